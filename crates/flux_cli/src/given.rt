//! All that is given after the command's word.

ghost use Rattle.std.specs.Prelude.{◌≡◌, ◌∷◌, ◌++◌, [], List, IfSome, IfNone, IsTrue, IsFalse, length};
ghost use Rattle.flux_cli.specs.Parts.{Part as AnyPart, BeginWith, option};
ghost use Rattle.flux_cli.specs.steps.Found.{part_of};
ghost use Rattle.flux_cli.specs.steps.Given.{files_of, listed, HoldsAll, Adds, IsFull, IsGiven, IsTooMuch};

use crate::names::OptionName;
use crate::parts::{Part, take_part};
use flux_values::Bytes;

/// The positional words, of which no command takes more than four.
#[derive(Clone, Copy)]
pub enum Files<'a> {
    None,
    One(&'a [u8]),
    Two(&'a [u8], &'a [u8]),
    Three(&'a [u8], &'a [u8], &'a [u8]),
    Four(&'a [u8], &'a [u8], &'a [u8], &'a [u8]),
}

/// The positional words, and the value of each option.
#[derive(Clone, Copy)]
pub struct Given<'a> {
    pub files: Files<'a>,
    pub runtime: Option<&'a [u8]>,
    pub docs: Option<&'a [u8]>,
    pub journal: Option<&'a [u8]>,
    pub port: Option<&'a [u8]>,
    pub batches: Option<&'a [u8]>,
    pub at_once: Option<&'a [u8]>,
    pub processors: Option<&'a [u8]>,
    pub costs: Option<&'a [u8]>,
}

impl<'a> Files<'a> {
    /// With one word more, where there is room.
    fn with(self, word: &'a [u8]) -> Option<Files<'a>>
        ensures added { IfSome result (λ files. files_of files ≡ files_of self.entry ++ word.now ∷ []) }
        ensures full { IfNone result (length (files_of self.entry) ≡ 4) }
    {
        match self {
            Files::None => Some(Files::One(word)),
            Files::One(first) => Some(Files::Two(first, word)),
            Files::Two(first, second) => Some(Files::Three(first, second, word)),
            Files::Three(first, second, third) => Some(Files::Four(first, second, third, word)),
            Files::Four(_, _, _, _) => None,
        }
    }
}

/// Adds a positional word, where there is room.
fn put_word<'a>(files: &mut Files<'a>, word: &'a [u8]) -> Option<()>
    ensures added { IfSome result (λ _. files_of files.new ≡ files_of files.old ++ word.now ∷ []) }
    ensures full { IfNone result (length (files_of files.old) ≡ 4) }
{
    *files = files.with(word)?;
    Some(())
}

/// Puts the value of an option that wasn't given before.
fn put_value<'a>(slot: &mut Option<&'a [u8]>, value: &'a [u8]) -> Option<()>
    ensures added { IfSome result (λ _. listed slot.new ≡ listed slot.old ++ value.now ∷ []) }
    ensures full { IfNone result (length (listed slot.old) ≡ 1) }
{
    if slot.is_some() {
        return None;
    }
    *slot = Some(value);
    Some(())
}

impl<'a> Given<'a> {
    fn none() -> Given<'a>
        ensures { HoldsAll result [] }
    {
        Given {
            files: Files::None,
            runtime: None,
            docs: None,
            journal: None,
            port: None,
            batches: None,
            at_once: None,
            processors: None,
            costs: None,
        }
    }

    /// Whether an option is given that `serve` alone has.
    pub fn serves(&self) -> bool
        ensures some { IsTrue result → listed self.now.port ≡ [] → listed self.now.batches ≡ []
            → listed self.now.at_once ≡ [] → ⊥ }
        ensures none { IsFalse result → (listed self.now.port ≡ []) × (listed self.now.batches ≡ [])
            × (listed self.now.at_once ≡ []) }
    {
        self.port.is_some() || self.batches.is_some() || self.at_once.is_some()
    }

    /// Whether an option is given that `simulate` alone has.
    pub fn simulates(&self) -> bool
        ensures some { IsTrue result → listed self.now.processors ≡ [] → listed self.now.costs ≡ [] → ⊥ }
        ensures none { IsFalse result → (listed self.now.processors ≡ []) × (listed self.now.costs ≡ []) }
    {
        self.processors.is_some() || self.costs.is_some()
    }

    /// Adds an option's value; None where no command has it once more.
    fn add_option(&mut self, name: OptionName, value: &'a [u8]) -> Option<()>
        ensures added { IfSome result (λ _. Adds self.old self.new (option name value.now)) }
        ensures full { IfNone result (IsFull self.old (option name value.now)) }
    {
        match name {
            OptionName::Runtime => put_value(&mut self.runtime, value),
            OptionName::Docs => put_value(&mut self.docs, value),
            OptionName::Journal => put_value(&mut self.journal, value),
            OptionName::Port => put_value(&mut self.port, value),
            OptionName::Batches => put_value(&mut self.batches, value),
            OptionName::AtOnce => put_value(&mut self.at_once, value),
            OptionName::Processors => put_value(&mut self.processors, value),
            OptionName::Costs => put_value(&mut self.costs, value),
        }
    }

    /// Adds a part; None where no command has it once more.
    fn add(&mut self, part: Part<'a>) -> Option<()>
        ensures added { IfSome result (λ _. Adds self.old self.new (part_of part.entry)) }
        ensures full { IfNone result (IsFull self.old (part_of part.entry)) }
    {
        match part {
            Part::Word(word) => put_word(&mut self.files, word),
            Part::Option(name, value) => self.add_option(name, value),
        }
    }
}

/// All that is given by words.
pub fn gather<'a>(words: &'a [Bytes]) -> Option<Given<'a>>
    ensures found { IfSome result (IsGiven words.now) }
    ensures none { IfNone result ((parts : List AnyPart) → BeginWith parts words.now []
        → IsTooMuch parts) }
{
    let mut given = Given::none();
    let mut rest = words;
    'parts: while !rest.is_empty() {
        let (part, behind) = take_part(rest)?;
        given.add(part)?;
        rest = behind;
    }
    Some(given)
}
