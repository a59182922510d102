//! Class sets.

ghost use Rattle.std.specs.Prelude.{◌≡◌, [], IfOk, OnOk, OnErr, MatchOption, IsTrue, ◌↔◌};
ghost use Rattle.std.specs.List.{filter};
ghost use Rattle.std.specs.Ordering.{nat_cmp};
ghost use Rattle.flux_model.specs.Locks.{AreRising, HasAtLeast};
ghost use Rattle.flux_constraints.specs.ClassSets.{IsJoined, AreUpTo, IsGreatestOf};
ghost use Rattle.flux_constraints.specs.steps.Places.{IsPlaceOf, is_up_to};

use flux_model::{ClassNo, Hold, at_least};
use flux_values::Memory;
use std::alloc::Global;
use std::cmp::Ordering;
use std::marker::Model;

/// Classes by rising numbers, each once, with the mode in which it is held.
pub struct ClassSet {
    holds: Vec<Hold>,
}

impl Drop for ClassSet {
    fn drop(self) {
        let ClassSet { holds } = self;
    }
}

impl Model for ClassSet {
    ghost use Rattle.std.specs.Prelude.{List};
    ghost use Rattle.flux_model.specs.declared.programs.Hold.{Hold as A_Hold};
    ghost use Rattle.flux_model.specs.Locks.{AreRising};

    ghost Value = { List A_Hold };

    ghost view = { λ set. set.holds.items };

    ghost invariant = { λ set. AreRising set.holds.items };
}

impl ClassSet {
    /// The empty set, which takes no memory yet.
    pub fn new(alloc: Global) -> ClassSet
        ensures { result ≡ [] }
    {
        ClassSet {
            holds: Vec::new(alloc),
        }
    }

    /// Adds a hold. Where its class is there already, a writer wins.
    pub fn join(&mut self, hold: Hold) -> Result<(), Memory>
        ensures rising { AreRising self.new }
        ensures joined { OnOk result (IsJoined self.old hold self.new) }
        ensures unchanged { OnErr result (self.new ≡ self.old) }
    {
        match find_place(&self.holds, hold.class) {
            Ok(place) => {
                if at_least(hold.mode, self.holds[place].mode) {
                    self.holds[place] = hold;
                }
                Ok(())
            }
            Err(place) => Ok(self.holds.insert(place, hold)?),
        }
    }

    /// The holds on classes that are at most this one, itself included.
    pub fn up_to(&self, alloc: Global, class: ClassNo) -> Result<ClassSet, Memory>
        ensures rising { IfOk result AreRising }
        ensures lower { IfOk result (AreUpTo self.now class) }
    {
        Ok(ClassSet {
            holds: copy_up_to(alloc, &self.holds, class)?,
        })
    }

    /// The greatest class of the set.
    pub fn greatest(&self) -> Option<ClassNo>
        ensures { MatchOption result (self.now ≡ []) (IsGreatestOf self.now) }
    {
        match self.holds.last() {
            Some(hold) => Some(hold.class),
            None => None,
        }
    }

    /// Whether the set has a class in at least this mode.
    pub fn covers(&self, hold: Hold) -> bool
        ensures { IsTrue result ↔ HasAtLeast self.now hold }
    {
        match find_place(&self.holds, hold.class) {
            Ok(place) => at_least(self.holds[place].mode, hold.mode),
            Err(_) => false,
        }
    }

    pub fn as_slice(&self) -> &[Hold]
        ensures rising { AreRising result.now }
        ensures same { result.now ≡ self.now }
    {
        self.holds.as_slice()
    }
}

/// The holds on classes that are at most this one.
fn copy_up_to(alloc: Global, holds: &[Hold], class: ClassNo) -> Result<Vec<Hold>, Memory>
    ensures { IfOk result (λ lower. lower.items ≡ filter (is_up_to class) holds.now) }
{
    let mut lower = Vec::new(alloc);
    for hold in holds {
        if hold.class.0 <= class.0 {
            lower.push(*hold)?;
        }
    }
    Ok(lower)
}

/// Where the class is, or where it would go.
fn find_place(holds: &[Hold], class: ClassNo) -> Result<usize, usize>
    requires { AreRising holds.now }
    ensures { IsPlaceOf holds.now class result }
{
    holds.binary_search_by(|hold| compare_class(hold, class))
}

fn compare_class(hold: &Hold, class: ClassNo) -> Ordering
    ensures { result ≡ nat_cmp hold.now.class.0 class.0 }
{
    hold.class.0.cmp(&class.0)
}
