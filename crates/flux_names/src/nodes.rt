//! A node, made from its lines.

ghost use Rattle.std.specs.Prelude.{◌≡◌, ◌≤◌, ◌<◌, ◌++◌, Some, IfOk, OnOk, length, map};
ghost use Rattle.std.specs.List.{filter_map, flat_map, list_any};
ghost use Rattle.std.specs.List.Sorted.{IsStrictlySortedBy};
ghost use Rattle.flux_model.specs.Modes.{class_cmp};
ghost use Rattle.flux_model.specs.declared.programs.TheConstants.{COUNT_LIMIT};
ghost use Rattle.flux_syntax.specs.Words.{texts_of};
ghost use Rattle.flux_syntax.specs.ProgramOfText.{library_name, place_of, number_of, pattern_of, patterns_of};
ghost use Rattle.flux_names.specs.Rows.{code_of};
ghost use Rattle.flux_names.specs.steps.Nodes.{lines_now, is_signature, cases_in, arms_in, body_in, node_in, session_in};

use crate::codes::code_of;
use crate::modes::declared;
use crate::signatures::library_name;
use crate::words::copied_name;
use flux_model::{Body, Case, Class, HandleArm, Node, NodeNo};
use flux_syntax::{Decl, Names, Word};
use flux_values::{List, Memory, TextBytes};
use std::alloc::Global;

/// A name's number: its place among the names.
pub fn number_of(names: &Names, word: &Word) -> NodeNo
    requires { length names.now ≤ COUNT_LIMIT }
    ensures { result ≡ number_of names.now word.now }
{
    NodeNo(names.place(word.text.as_bytes()) as u32)
}

fn numbers_of(alloc: Global, names: &Names, words: &[Word]) -> Result<List<NodeNo>, Memory>
    requires { length names.now ≤ COUNT_LIMIT }
    ensures { IfOk result (λ numbers. numbers ≡ map (number_of names.now) words.now) }
{
    let mut numbers = List::new(alloc);
    for word in words {
        numbers.add(number_of(names, word))?;
    }
    Ok(numbers)
}

fn pattern_of(types: &Names, pattern: &Option<Word>) -> Option<u32>
    requires { length types.now ≤ COUNT_LIMIT }
    ensures { result ≡ pattern_of types.now pattern.now }
{
    match pattern {
        Some(word) => Some(types.place(word.text.as_bytes()) as u32),
        None => None,
    }
}

fn patterns_of(
    alloc: Global,
    types: &Names,
    patterns: &Option<List<Option<Word>>>,
) -> Result<List<Option<u32>>, Memory>
    requires { length types.now ≤ COUNT_LIMIT }
    ensures { IfOk result (λ numbers. numbers ≡ patterns_of types.now patterns.now) }
{
    let mut numbers = List::new(alloc);
    if let Some(patterns) = patterns {
        for pattern in patterns.as_slice() {
            numbers.add(pattern_of(types, pattern))?;
        }
    }
    Ok(numbers)
}

/// What nodes are made of beside their lines.
#[derive(Drop)]
pub struct Tables<'r, 'a> {
    /// The names of nodes.
    pub names: &'r Names<'a>,
    /// The names of `typedef` lines.
    pub types: &'r Names<'a>,
    /// All classes, in canonical order.
    pub classes: &'r [Class],
}

fn add_case(
    alloc: Global,
    tables: &Tables,
    line: &Decl,
    cases: &mut List<Case>,
) -> Result<(), Memory>
    requires names { length tables.now.names.now ≤ COUNT_LIMIT }
    requires types { length tables.now.types.now ≤ COUNT_LIMIT }
    ensures { OnOk result
        (cases.new ≡ cases.old ++ cases_in tables.now.names.now tables.now.types.now line.now) }
{
    match line {
        Decl::Flow {
            patterns,
            members,
            ..
        } => cases.add(Case {
            patterns: patterns_of(alloc, tables.types, patterns)?,
            members: numbers_of(alloc, tables.names, members.as_slice())?,
        }),
        _ => Ok(()),
    }
}

fn is_signature(line: &Decl) -> bool
    ensures { result ≡ is_signature line.now }
{
    match line {
        Decl::Signature { .. } => true,
        _ => false,
    }
}

fn are_signed(lines: &[&Decl]) -> bool
    ensures { result ≡ list_any is_signature (lines_now lines.now) }
{
    for line in lines {
        if is_signature(line) {
            return true;
        }
    }
    false
}

fn body(alloc: Global, tables: &Tables, name: &Word, lines: &[&Decl]) -> Result<Body, Memory>
    requires names { length tables.now.names.now ≤ COUNT_LIMIT }
    requires types { length tables.now.types.now ≤ COUNT_LIMIT }
    ensures { IfOk result (λ body.
        body ≡
        body_in tables.now.names.now tables.now.types.now name.now.text (lines_now lines.now)) }
{
    if are_signed(lines) {
        let library = library_name(name.text.as_bytes());
        return Ok(Body::Concrete(copied_name(alloc, library)?));
    }
    let mut cases = List::new(alloc);
    for line in lines {
        add_case(alloc, tables, line, &mut cases)?;
    }
    Ok(Body::Abstract(cases))
}

/// The codes that words spell, of those that spell one.
fn codes_of(alloc: Global, words: &[Word]) -> Result<List<u16>, Memory>
    ensures { IfOk result (λ codes. codes ≡ filter_map (λ word. code_of word.text) words.now) }
{
    let mut codes = List::new(alloc);
    for word in words {
        if let Some(code) = code_of(word.text.as_bytes()) {
            codes.add(code)?;
        }
    }
    Ok(codes)
}

fn add_arm(
    alloc: Global,
    names: &Names,
    line: &Decl,
    arms: &mut List<HandleArm>,
) -> Result<(), Memory>
    requires { length names.now ≤ COUNT_LIMIT }
    ensures { OnOk result (arms.new ≡ arms.old ++ arms_in names.now line.now) }
{
    match line {
        Decl::Handler { codes, handler, .. } => arms.add(HandleArm {
            codes: codes_of(alloc, codes.as_slice())?,
            node: number_of(names, handler),
        }),
        _ => Ok(()),
    }
}

fn arms(alloc: Global, names: &Names, lines: &[&Decl]) -> Result<List<HandleArm>, Memory>
    requires { length names.now ≤ COUNT_LIMIT }
    ensures { IfOk result (λ arms. arms ≡ flat_map (arms_in names.now) (lines_now lines.now)) }
{
    let mut arms = List::new(alloc);
    for line in lines {
        add_arm(alloc, names, line, &mut arms)?;
    }
    Ok(arms)
}

/// The node of a name, with these lines.
pub fn node_of(alloc: Global, tables: &Tables, name: &Word, lines: &[&Decl]) -> Result<Node, Memory>
    requires names { length tables.now.names.now ≤ COUNT_LIMIT }
    requires types { length tables.now.types.now ≤ COUNT_LIMIT }
    requires order { IsStrictlySortedBy class_cmp tables.now.classes.now }
    requires few { length tables.now.classes.now ≤ COUNT_LIMIT }
    ensures { IfOk result (λ node.
        node ≡
        node_in tables.now.names.now tables.now.types.now tables.now.classes.now name.now.text
        (lines_now lines.now)) }
{
    Ok(Node {
        name: name.text.again(alloc)?,
        body: body(alloc, tables, name, lines)?,
        on_fail: arms(alloc, tables.names, lines)?,
        declared: declared(alloc, tables.classes, lines)?,
    })
}

/// The session function that lines give to their source.
pub fn session_of(alloc: Global, lines: &[&Decl]) -> Result<Option<TextBytes>, Memory>
    ensures { IfOk result (λ session. session ≡ session_in (lines_now lines.now)) }
{
    for line in lines {
        if let Decl::Session { function, .. } = *line {
            return Ok(Some(function.text.again(alloc)?));
        }
    }
    Ok(None)
}
