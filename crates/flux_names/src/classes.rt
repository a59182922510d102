//! The classes of constraints.

ghost use Rattle.std.specs.Prelude.{◌≡◌, ◌++◌, ◌∷◌, [], not, IfOk, OnOk};
ghost use Rattle.std.specs.List.{flat_map};
ghost use Rattle.flux_syntax.specs.ProgramOfText.{insert_class, class_of, constraints_of};
ghost use Rattle.flux_names.specs.Rows.{word_if};
ghost use Rattle.flux_names.specs.steps.Classes.{has_class, classes_after, words_by};

use crate::words::{Words, copied_name};
use flux_model::Class;
use flux_syntax::{Constraint, Decl};
use flux_values::{List, Memory};
use std::alloc::Global;
use std::collections::BTreeSet;
use std::marker::Model;

/// A class's name, and whether it is of a session.
type Key<'a> = (&'a [u8], bool);

/// Distinct classes in canonical order.
#[derive(Drop)]
pub struct Classes<'a> {
    keys: BTreeSet<Key<'a>>,
}

impl<'a> Model for Classes<'a> {
    ghost use Rattle.std.specs.Prelude.{List, map, length, ◌≤◌};
    ghost use Rattle.std.specs.Coded.{coded_list};
    ghost use Rattle.std.specs.List.{AllByRecursion};
    ghost use Rattle.flux_model.specs.declared.programs.Class.{Class};
    ghost use Rattle.flux_model.specs.contracts.programs.Class as class;

    ghost Value = { List Class };

    ghost coded = { coded_list class.the_row.coded };

    ghost view = { λ c. map (λ k. record { name = k.0.now; session = k.1 }) c.keys.keys };

    ghost invariant = { λ c. AllByRecursion (λ k. length k.0.now ≤ 65536) c.keys.keys };
}

impl<'a> Classes<'a> {
    pub fn new(alloc: Global) -> Classes<'a>
        ensures { result ≡ [] }
    {
        Classes {
            keys: BTreeSet::new(alloc),
        }
    }

    /// Adds the class of a constraint at its place, and says whether it is new.
    pub fn add(&mut self, constraint: &'a Constraint) -> Result<bool, Memory>
        ensures new { IfOk result (λ new.
            new ≡ not (has_class self.old (class_of constraint.now))) }
        ensures added { OnOk result (self.new ≡ insert_class (class_of constraint.now) self.old) }
    {
        let key = (constraint.name.text.as_bytes(), constraint.session);
        Ok(self.keys.insert(key)?)
    }

    /// The classes as they are in a program.
    pub fn copied(&self, alloc: Global) -> Result<List<Class>, Memory>
        ensures { IfOk result (λ classes. classes ≡ self.now) }
    {
        let mut classes = List::new(alloc);
        for (name, session) in &self.keys {
            classes.add(Class {
                name: copied_name(alloc, name)?,
                session: *session,
            })?;
        }
        Ok(classes)
    }
}

/// The classes of declarations, and the words that name them first.
#[derive(Drop)]
pub struct ClassTable<'a> {
    pub classes: Classes<'a>,
    pub words: Words<'a>,
}

impl<'a> ClassTable<'a> {
    fn add(&mut self, constraint: &'a Constraint) -> Result<(), Memory>
        ensures classes { OnOk result
            (self.new.classes ≡ insert_class (class_of constraint.now) self.old.classes) }
        ensures words { OnOk result
            (self.new.words ≡
            self.old.words ++ word_if (not (has_class self.old.classes
            (class_of constraint.now))) constraint.now.name) }
    {
        if self.classes.add(constraint)? {
            self.words.add(&constraint.name)?;
        }
        Ok(())
    }

    fn add_all(&mut self, constraints: &'a [Constraint]) -> Result<(), Memory>
        ensures classes { OnOk result
            (self.new.classes ≡ classes_after self.old.classes constraints.now) }
        ensures words { OnOk result
            (self.new.words ≡ self.old.words ++ words_by self.old.classes constraints.now) }
    {
        for constraint in constraints {
            self.add(constraint)?;
        }
        Ok(())
    }

    fn add_line(&mut self, decl: &'a Decl) -> Result<(), Memory>
        ensures classes { OnOk result
            (self.new.classes ≡ classes_after self.old.classes (constraints_of decl.now)) }
        ensures words { OnOk result
            (self.new.words ≡
            self.old.words ++ words_by self.old.classes (constraints_of decl.now)) }
    {
        match decl {
            Decl::Atomic { constraints, .. } => self.add_all(constraints.as_slice()),
            _ => Ok(()),
        }
    }

    /// Adds the classes of declarations, and the words that name them first.
    pub fn add_lines(&mut self, decls: &'a [Decl]) -> Result<(), Memory>
        ensures classes { OnOk result
            (self.new.classes ≡
            classes_after self.old.classes (flat_map constraints_of decls.now)) }
        ensures words { OnOk result
            (self.new.words ≡
            self.old.words ++ words_by self.old.classes (flat_map constraints_of decls.now)) }
    {
        for decl in decls {
            self.add_line(decl)?;
        }
        Ok(())
    }
}
