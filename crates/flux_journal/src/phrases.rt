//! What is in the lines of a program's nodes and of its keys, laid out once for a whole journal.

ghost use Rattle.std.specs.Prelude.{◌≡◌, ◌++◌, [], IfOk, OnOk, map, codes, slice_get};
ghost use Rattle.std.specs.Fmt.{decimal};
ghost use Rattle.flux_model.specs.Texts.{node_name, class_name};
ghost use Rattle.flow_model.specs.Texts.{printed_key};
ghost use Rattle.flux_journal.specs.steps.Phrases.{phrase_text, text_in, phrases_with, phrases_of, ArePhrasesOf};
ghost use Rattle.flux_journal.specs.steps.KeyPhrases.{key_word, key_behind, key_text, AreKeyPhrasesOf};

use crate::digits::{append_number, append_number_with};
use crate::key_phrases::{ClassPhrases, KeyPhrase, append_key_phrase, lay_out_classes};
use flow_model::Key;
use flux_model::{ClassNo, FlowNo, Node, NodeNo, Program};
use flux_values::{Bytes, List, Memory};
use std::alloc::Global;
use std::marker::Model;

/// A journal is worth the laying out where it has so many lines for each node, or for each class.
const LINES_FOR_EACH: usize = 8;

/// How a node's line goes on after its flow's number.
#[derive(Clone, Copy)]
pub enum Phrase {
    /// ` enter NAME` and LF.
    Enter,
    /// ` call NAME (`, before the arguments.
    Call,
    /// ` exit NAME `, before how the node is left.
    Exit,
    /// ` exit NAME ok` and LF.
    Done,
}

/// A node's phrases.
#[derive(Drop)]
struct NodePhrases {
    enter: Bytes,
    call: Bytes,
    exit: Bytes,
    done: Bytes,
}

impl NodePhrases {
    fn text(&self, phrase: Phrase) -> &[u8]
        ensures { result.now ≡ text_in self.now phrase }
    {
        match phrase {
            Phrase::Enter => self.enter.as_bytes(),
            Phrase::Call => self.call.as_bytes(),
            Phrase::Exit => self.exit.as_bytes(),
            Phrase::Done => self.done.as_bytes(),
        }
    }
}

/// A program with the phrases of its nodes and classes, seen as the program.
/// Where none are laid out, a phrase is put together each time.
pub struct Phrases<'a> {
    program: &'a Program,
    nodes: List<NodePhrases>,
    classes: List<ClassPhrases>,
}

impl<'a> Drop for Phrases<'a> {
    fn drop(self) {
        let Phrases {
            program,
            nodes,
            classes,
        } = self;
    }
}

impl<'a> Model for Phrases<'a> {
    ghost use Rattle.flux_model.specs.declared.programs.Program.{Program};
    ghost use Rattle.flux_model.specs.contracts.programs.Program as programs;

    ghost Value = { Program };

    ghost coded = { programs.the_row.coded };

    ghost use Rattle.flux_journal.specs.steps.Phrases.{ArePhrasesOf};
    ghost use Rattle.flux_journal.specs.steps.KeyPhrases.{AreKeyPhrasesOf};

    ghost view = { λ p. p.program.now };

    ghost invariant = { λ p. ArePhrasesOf p.program.now p.nodes × AreKeyPhrasesOf p.program.now p.classes };
}

impl<'a> Phrases<'a> {
    /// For so many lines. They are laid out only where that is worth it.
    pub fn new(alloc: Global, program: &'a Program, lines: usize) -> Result<Phrases<'a>, Memory>
        ensures { IfOk result (λ phrases. phrases ≡ program.now) }
    {
        let mut nodes = List::new(alloc);
        if lines / LINES_FOR_EACH >= program.nodes.len() {
            lay_out(alloc, &mut nodes, program.nodes.as_slice())?;
        }
        let mut classes = List::new(alloc);
        if lines / LINES_FOR_EACH >= program.classes.len() {
            lay_out_classes(alloc, &mut classes, program.classes.as_slice())?;
        }
        Ok(Phrases {
            program,
            nodes,
            classes,
        })
    }

    /// Adds a flow's number and a node's phrase.
    #[inline(always)]
    pub fn append(
        &self,
        out: &mut Bytes,
        flow: FlowNo,
        phrase: Phrase,
        node: NodeNo,
    ) -> Result<(), Memory>
        ensures { OnOk result (out.new ≡ out.old ++ (decimal flow.0
            ++ phrase_text phrase (node_name self.now node))) }
    {
        match self.nodes.get(node.0 as usize) {
            Some(phrases) => append_number_with(out, flow.0 as u64, phrases.text(phrase)),
            None => {
                append_number(out, flow.0 as u64)?;
                append_phrase(out, phrase, node_name(self.program, node))
            }
        }
    }

    /// Adds the line of a key that a flow takes, waits for or drops.
    #[inline(always)]
    pub fn append_key(
        &self,
        out: &mut Bytes,
        flow: FlowNo,
        phrase: KeyPhrase,
        key: Key,
    ) -> Result<(), Memory>
        ensures { OnOk result (out.new ≡ out.old ++ (decimal flow.0
            ++ key_word phrase ++ printed_key self.now key ++ key_behind phrase)) }
    {
        match key.id {
            None => self.append_class(out, flow, phrase, key.class, false),
            Some(number) => {
                self.append_class(out, flow, phrase, key.class, true)?;
                append_number_with(out, number, phrase.behind())
            }
        }
    }

    /// Adds a flow's number and a class's phrase.
    #[inline(always)]
    fn append_class(
        &self,
        out: &mut Bytes,
        flow: FlowNo,
        phrase: KeyPhrase,
        class: ClassNo,
        numbered: bool,
    ) -> Result<(), Memory>
        ensures { OnOk result (out.new ≡ out.old ++ (decimal flow.0
            ++ key_text phrase numbered (class_name (slice_get self.now.classes class.0)))) }
    {
        match self.classes.get(class.0 as usize) {
            Some(phrases) => {
                append_number_with(out, flow.0 as u64, phrases.text(phrase, numbered))
            }
            None => {
                append_number(out, flow.0 as u64)?;
                append_key_phrase(out, phrase, numbered, class_name(self.program, class))
            }
        }
    }
}

/// Adds the phrases of nodes, where there are none yet.
fn lay_out(alloc: Global, phrases: &mut List<NodePhrases>, nodes: &[Node]) -> Result<(), Memory>
    requires { phrases.old ≡ [] }
    ensures { OnOk result (phrases.new ≡ map phrases_of nodes.now) }
{
    for node in nodes {
        phrases.add(print_phrases(alloc, node.name.as_bytes())?)?;
    }
    Ok(())
}

/// The phrases of a node with a name.
fn print_phrases(alloc: Global, name: &[u8]) -> Result<NodePhrases, Memory>
    ensures { IfOk result (λ phrases. phrases ≡ phrases_with name.now) }
{
    Ok(NodePhrases {
        enter: print_phrase(alloc, Phrase::Enter, name)?,
        call: print_phrase(alloc, Phrase::Call, name)?,
        exit: print_phrase(alloc, Phrase::Exit, name)?,
        done: print_phrase(alloc, Phrase::Done, name)?,
    })
}

fn print_phrase(alloc: Global, phrase: Phrase, name: &[u8]) -> Result<Bytes, Memory>
    ensures { IfOk result (λ printed. printed ≡ phrase_text phrase name.now) }
{
    let mut out = Bytes::new(alloc);
    append_phrase(&mut out, phrase, name)?;
    Ok(out)
}

fn append_phrase(out: &mut Bytes, phrase: Phrase, name: &[u8]) -> Result<(), Memory>
    ensures { OnOk result (out.new ≡ out.old ++ phrase_text phrase name.now) }
{
    match phrase {
        Phrase::Enter => append_named(out, b" enter ", name, b"\n"),
        Phrase::Call => append_named(out, b" call ", name, b" ("),
        Phrase::Exit => append_named(out, b" exit ", name, b" "),
        Phrase::Done => append_named(out, b" exit ", name, b" ok\n"),
    }
}

fn append_named(out: &mut Bytes, before: &[u8], name: &[u8], behind: &[u8]) -> Result<(), Memory>
    ensures { OnOk result (out.new ≡ out.old ++ (before.now ++ name.now ++ behind.now)) }
{
    out.append(before)?;
    out.append(name)?;
    out.append(behind)
}

/// A node's name, and nothing for a number that no node has.
pub fn node_name(program: &Program, node: NodeNo) -> &[u8]
    ensures { result.now ≡ node_name program.now node }
{
    match program.nodes.as_slice().get(node.0 as usize) {
        Some(node) => node.name.as_bytes(),
        None => b"",
    }
}

/// A class's name, and nothing for a number that no class has.
fn class_name(program: &Program, class: ClassNo) -> &[u8]
    ensures { result.now ≡ class_name (slice_get program.now.classes class.0) }
{
    match program.classes.as_slice().get(class.0 as usize) {
        Some(class) => class.name.as_bytes(),
        None => b"",
    }
}
