//! The lines of each node, gathered in one pass.

ghost use Rattle.std.specs.Prelude.{◌≡◌, ◌<◌, ◌++◌, ◌∷◌, [], IfOk, OnOk, length, map, replicate, option_copied};
ghost use Rattle.std.specs.Prelude.{slice_set, slice_index_or};
ghost use Rattle.flux_syntax.specs.Words.{names_of};
ghost use Rattle.flux_names.specs.steps.Nodes.{subject, with_line, lines_of, lines_now};

use flux_syntax::{Decl, Names, Word};
use flux_values::Memory;
use std::alloc::Global;
use std::marker::Model;

/// The node that a line is about: the name of a signature or a flow, the node of a `handle` or
/// `atomic` line, the source of a `session` line.
fn subject(decl: &Decl) -> Option<&Word>
    ensures { option_copied result ≡ subject decl.now }
{
    match decl {
        Decl::Signature { name, .. } | Decl::Flow { name, .. } => Some(name),
        Decl::Handler { node, .. } | Decl::Atomic { node, .. } => Some(node),
        Decl::Session { source, .. } => Some(source),
        _ => None,
    }
}

/// For each number a list of lines.
#[derive(Drop)]
pub struct Lines<'a> {
    lists: Vec<Vec<&'a Decl>>,
}

impl<'a> Model for Lines<'a> {
    ghost use Rattle.std.specs.Prelude.{List, map};
    ghost use Rattle.flux_syntax.specs.declared.declarations.Decl.{Decl};

    ghost Value = { List (List Decl) };

    ghost view = { λ l. map (λ lines. map (λ line. line.now) lines.items) l.lists.items };
}

impl<'a> Lines<'a> {
    /// So many numbers without lines.
    fn new(alloc: Global, count: usize) -> Result<Lines<'a>, Memory>
        ensures { IfOk result (λ lines. lines ≡ replicate count []) }
    {
        let mut lists = Vec::new(alloc);
        for _number in 0..count {
            lists.push(Vec::new(alloc))?;
        }
        Ok(Lines { lists })
    }

    /// Adds a line to those of a number, if there is such a number.
    fn add(&mut self, number: usize, line: &'a Decl) -> Result<(), Memory>
        ensures { OnOk result
            (self.new ≡
            slice_set self.old number (slice_index_or self.old number [] ++ line.now ∷ [])) }
    {
        if number < self.lists.len() {
            self.lists[number].push(line)?;
        }
        Ok(())
    }

    /// Adds a line to those of its node.
    fn add_line(&mut self, names: &Names, line: &'a Decl) -> Result<(), Memory>
        ensures { OnOk result
            (self.new ≡ with_line names.now line.now (subject line.now) self.old) }
    {
        match subject(line) {
            Some(word) => self.add(names.place(word.text.as_bytes()), line),
            None => Ok(()),
        }
    }

    /// The lines of a number.
    pub fn of(&self, number: usize) -> &[&'a Decl]
        requires { number < length self.now }
        ensures { lines_now result.now ≡ slice_index_or self.now number [] }
    {
        self.lists[number].as_slice()
    }

    /// The lines of each node, in order of the text.
    pub fn gathered(alloc: Global, names: &Names, decls: &'a [Decl]) -> Result<Lines<'a>, Memory>
        requires { names.now ≡ names_of decls.now }
        ensures { IfOk result (λ lines. lines ≡ map (lines_of decls.now) names.now) }
    {
        let mut lines = Lines::new(alloc, names.len())?;
        for decl in decls {
            lines.add_line(names, decl)?;
        }
        Ok(lines)
    }
}
