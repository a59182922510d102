//! The program of declarations, and where its names are.

ghost use Rattle.std.specs.Prelude.{◌≡◌, ◌≤◌, ◌++◌, [], IfOk, OnOk, length, map, drop, slice_index_or};
ghost use Rattle.std.specs.List.{filter_map, flat_map};
ghost use Rattle.std.specs.List.Sorted.{IsStrictlySortedBy};
ghost use Rattle.flux_model.specs.Modes.{class_cmp};
ghost use Rattle.flux_model.specs.declared.programs.TheConstants.{COUNT_LIMIT};
ghost use Rattle.flux_syntax.specs.Counted.{words_of};
ghost use Rattle.flux_syntax.specs.Words.{names_of, first_words, defined, sourced, texts_of};
ghost use Rattle.flux_syntax.specs.ProgramOfText.{classes_of, named_of, program_of, sites_of, places};
ghost use Rattle.flux_names.specs.Rows.{class_words, repeated, used_names, not_among, unknown_nodes, bad_codes};
ghost use Rattle.flux_names.specs.steps.Sorts.{names_by, word_of};
ghost use Rattle.flux_names.specs.steps.Picks.{words_now};
ghost use Rattle.flux_names.specs.steps.Nodes.{lines_now, lines_of, nodes_from, unknown_in, sources_in, predicates_in, handler_sites_in, handler_sites_from};

use crate::classes::{ClassTable, Classes};
use crate::lines::Lines;
use crate::naming::NodeTable;
use crate::nodes::{Tables, node_of, number_of, session_of};
use crate::sorts::Sort;
use crate::words::Words;
use flux_model::{Named, Node, Program, Sites, SourceLine};
use flux_syntax::{Decl, Names, Word};
use flux_values::{List, Memory, TextBytes};
use std::alloc::Global;

/// What declarations name.
#[derive(Drop)]
pub struct Symbols<'a> {
    pub nodes: NodeTable<'a>,
    pub classes: ClassTable<'a>,
    /// The names of `typedef` lines.
    pub types: Names<'a>,
    /// The nodes of `source` lines.
    pub sources: Names<'a>,
}

impl<'a> Symbols<'a> {
    pub fn new(alloc: Global) -> Symbols<'a>
        ensures { result
            ≡ record {
              nodes = record { names = []; words = [] };
              classes = record { classes = []; words = [] };
              types = [];
              sources = [];
            } }
    {
        Symbols {
            nodes: NodeTable {
                names: Names::new(alloc),
                words: Words::new(alloc),
            },
            classes: ClassTable {
                classes: Classes::new(alloc),
                words: Words::new(alloc),
            },
            types: Names::new(alloc),
            sources: Names::new(alloc),
        }
    }

    /// Takes in what declarations name, where nothing was taken in before.
    pub fn fill(&mut self, decls: &'a [Decl]) -> Result<(), Memory>
        requires { self.old
            ≡ record {
              nodes = record { names = []; words = [] };
              classes = record { classes = []; words = [] };
              types = [];
              sources = [];
            } }
        ensures names { OnOk result (self.new.nodes.names ≡ names_of decls.now) }
        ensures words { OnOk result (self.new.nodes.words ≡ first_words decls.now) }
        ensures classes { OnOk result (self.new.classes.classes ≡ classes_of decls.now) }
        ensures class_words { OnOk result (self.new.classes.words ≡ class_words decls.now) }
        ensures types { OnOk result (self.new.types ≡ names_by defined decls.now) }
        ensures sources { OnOk result (self.new.sources ≡ names_by sourced decls.now) }
    {
        self.nodes.add_lines(decls)?;
        self.classes.add_lines(decls)?;
        Sort::Defined.add_names(&mut self.types, decls)?;
        Sort::Sourced.add_names(&mut self.sources, decls)?;
        Ok(())
    }
}

/// The nodes of words, each with the lines of the next number.
fn nodes_of(
    alloc: Global,
    tables: &Tables,
    words: &[&Word],
    lines: &Lines,
) -> Result<List<Node>, Memory>
    requires names { length tables.now.names.now ≤ COUNT_LIMIT }
    requires types { length tables.now.types.now ≤ COUNT_LIMIT }
    requires order { IsStrictlySortedBy class_cmp tables.now.classes.now }
    requires few { length tables.now.classes.now ≤ COUNT_LIMIT }
    requires each { length words.now ≡ length lines.now }
    ensures { IfOk result (λ nodes.
        nodes ≡
        nodes_from tables.now.names.now tables.now.types.now tables.now.classes.now lines.now 0
        (words_now words.now)) }
{
    let mut nodes = List::new(alloc);
    for word in words {
        let own = lines.of(nodes.len());
        nodes.add(node_of(alloc, tables, word, own)?)?;
    }
    Ok(nodes)
}

fn add_source(
    alloc: Global,
    names: &Names,
    lines: &Lines,
    decl: &Decl,
    sources: &mut List<SourceLine>,
) -> Result<(), Memory>
    requires few { length names.now ≤ COUNT_LIMIT }
    requires each { length lines.now ≡ length names.now }
    requires known { not_among names.now (used_names decl.now) ≡ [] }
    ensures { OnOk result (sources.new ≡ sources.old ++ sources_in names.now lines.now decl.now) }
{
    match decl {
        Decl::Source { name, target } => {
            let node = number_of(names, name);
            sources.add(SourceLine {
                node,
                target: number_of(names, target),
                session: session_of(alloc, lines.of(node.0 as usize))?,
            })
        }
        _ => Ok(()),
    }
}

fn sources_of(
    alloc: Global,
    names: &Names,
    lines: &Lines,
    decls: &[Decl],
) -> Result<List<SourceLine>, Memory>
    requires few { length names.now ≤ COUNT_LIMIT }
    requires each { length lines.now ≡ length names.now }
    requires known { unknown_in names.now decls.now ≡ [] }
    ensures { IfOk result (λ sources.
        sources ≡ flat_map (sources_in names.now lines.now) decls.now) }
{
    let mut sources = List::new(alloc);
    for decl in decls {
        add_source(alloc, names, lines, decl, &mut sources)?;
    }
    Ok(sources)
}

fn add_predicate(alloc: Global, decl: &Decl, predicates: &mut List<TextBytes>) -> Result<(), Memory>
    ensures { OnOk result (predicates.new ≡ predicates.old ++ predicates_in decl.now) }
{
    match decl {
        Decl::Typedef { function, .. } => predicates.add(function.text.again(alloc)?),
        _ => Ok(()),
    }
}

fn predicates_of(alloc: Global, decls: &[Decl]) -> Result<List<TextBytes>, Memory>
    ensures { IfOk result (λ predicates. predicates ≡ flat_map predicates_in decls.now) }
{
    let mut predicates = List::new(alloc);
    for decl in decls {
        add_predicate(alloc, decl, &mut predicates)?;
    }
    Ok(predicates)
}

/// The program of declarations without faults of names.
fn program_of(
    alloc: Global,
    symbols: &Symbols,
    lines: &Lines,
    decls: &[Decl],
) -> Result<Program, Memory>
    requires names { symbols.now.nodes.names ≡ names_of decls.now }
    requires words { symbols.now.nodes.words ≡ first_words decls.now }
    requires classes { symbols.now.classes.classes ≡ classes_of decls.now }
    requires types { symbols.now.types ≡ names_by defined decls.now }
    requires lines { lines.now ≡ map (lines_of decls.now) (names_of decls.now) }
    requires few { words_of decls.now ≤ COUNT_LIMIT }
    requires once { repeated decls.now defined ≡ [] }
    requires known { unknown_nodes decls.now ≡ [] }
    requires codes { bad_codes decls.now ≡ [] }
    ensures { IfOk result (λ program. program ≡ program_of decls.now) }
{
    let classes = symbols.classes.classes.copied(alloc)?;
    let tables = Tables {
        names: &symbols.nodes.names,
        types: &symbols.types,
        classes: classes.as_slice(),
    };
    let nodes = nodes_of(alloc, &tables, symbols.nodes.words.as_slice(), lines)?;
    Ok(Program {
        nodes,
        sources: sources_of(alloc, &symbols.nodes.names, lines, decls)?,
        predicates: predicates_of(alloc, decls)?,
        classes,
    })
}

// ---- places

fn places_of(alloc: Global, words: &[&Word]) -> Result<List<u32>, Memory>
    ensures { IfOk result (λ sites. sites ≡ places (words_now words.now)) }
{
    let mut sites = List::new(alloc);
    for word in words {
        sites.add(word.at)?;
    }
    Ok(sites)
}

/// The places of the words of one sort.
fn places_by(alloc: Global, sort: Sort, decls: &[Decl]) -> Result<List<u32>, Memory>
    ensures { IfOk result (λ sites. sites ≡ places (filter_map (word_of sort) decls.now)) }
{
    let mut sites = List::new(alloc);
    for decl in decls {
        if let Some(word) = sort.word(decl) {
            sites.add(word.at)?;
        }
    }
    Ok(sites)
}

fn add_handlers(lines: &[&Decl], handlers: &mut List<u32>) -> Result<(), Memory>
    ensures { OnOk result
        (handlers.new ≡ handlers.old ++ flat_map handler_sites_in (lines_now lines.now)) }
{
    for line in lines {
        if let Decl::Handler { handler, .. } = *line {
            handlers.add(handler.at)?;
        }
    }
    Ok(())
}

fn handlers_of(alloc: Global, lines: &Lines, count: usize) -> Result<List<u32>, Memory>
    requires { count ≡ length lines.now }
    ensures { IfOk result (λ handlers. handlers ≡ handler_sites_from lines.now count) }
{
    let mut handlers = List::new(alloc);
    for number in 0..count {
        add_handlers(lines.of(number), &mut handlers)?;
    }
    Ok(handlers)
}

fn sites_of(
    alloc: Global,
    nodes: &NodeTable,
    lines: &Lines,
    decls: &[Decl],
) -> Result<Sites, Memory>
    requires words { nodes.now.words ≡ first_words decls.now }
    requires names { nodes.now.names ≡ names_of decls.now }
    requires lines { lines.now ≡ map (lines_of decls.now) (names_of decls.now) }
    ensures { IfOk result (λ sites. sites ≡ sites_of decls.now) }
{
    Ok(Sites {
        nodes: places_of(alloc, nodes.words.as_slice())?,
        targets: places_by(alloc, Sort::Targeted, decls)?,
        sources: places_by(alloc, Sort::Sourced, decls)?,
        handlers: handlers_of(alloc, lines, nodes.names.len())?,
    })
}

fn named_by(
    alloc: Global,
    symbols: &Symbols,
    lines: &Lines,
    decls: &[Decl],
) -> Result<Named, Memory>
    requires names { symbols.now.nodes.names ≡ names_of decls.now }
    requires words { symbols.now.nodes.words ≡ first_words decls.now }
    requires classes { symbols.now.classes.classes ≡ classes_of decls.now }
    requires types { symbols.now.types ≡ names_by defined decls.now }
    requires lines { lines.now ≡ map (lines_of decls.now) (names_of decls.now) }
    requires few { words_of decls.now ≤ COUNT_LIMIT }
    requires once { repeated decls.now defined ≡ [] }
    requires known { unknown_nodes decls.now ≡ [] }
    requires codes { bad_codes decls.now ≡ [] }
    ensures { IfOk result (λ named. named ≡ named_of decls.now) }
{
    let sites = sites_of(alloc, &symbols.nodes, lines, decls)?;
    let program = program_of(alloc, symbols, lines, decls)?;
    Ok(Named { program, sites })
}

/// The program of declarations without faults of names, and where its names are.
pub fn named_of(alloc: Global, symbols: &Symbols, decls: &[Decl]) -> Result<Named, Memory>
    requires names { symbols.now.nodes.names ≡ names_of decls.now }
    requires words { symbols.now.nodes.words ≡ first_words decls.now }
    requires classes { symbols.now.classes.classes ≡ classes_of decls.now }
    requires types { symbols.now.types ≡ names_by defined decls.now }
    requires few { words_of decls.now ≤ COUNT_LIMIT }
    requires once { repeated decls.now defined ≡ [] }
    requires known { unknown_nodes decls.now ≡ [] }
    requires codes { bad_codes decls.now ≡ [] }
    ensures { IfOk result (λ named. named ≡ named_of decls.now) }
{
    let lines = Lines::gathered(alloc, &symbols.nodes.names, decls)?;
    named_by(alloc, symbols, &lines, decls)
}
