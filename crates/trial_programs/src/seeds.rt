//! Random programs, each made of a seed.

ghost use Rattle.std.specs.Prelude.{◌<◌};

use flux_values::List;
use plain_journals::Given;
use std::alloc::{AllocError, Global};
use trial_ends::Trouble;

/// What the texts of seeds begin with.
const HEAD: &str =
    "Tick () => (int n);\nPass (int n) => (int n);\nAdd (int n) => (int n);\nRead (int n) => (int n);\nBump (int n) => (int n);\nsource Tick => Level0;\nsession Tick => ByNumber;\natomic Add:{counter};\natomic Read:{counter?};\natomic Bump:{visits(session)};\n";

/// The nodes that lead to each other, one below the other.
const LEVELS: [&str; 5] = ["Level0", "Level1", "Level2", "Level3", "Level4"];

/// The last of them.
const LAST: usize = 4;

/// Numbers that a seed leads to.
#[derive(Drop)]
struct Dice {
    state: u64,
}

impl Dice {
    fn of(seed: u32) -> Dice {
        Dice {
            state: 1_000_003u64.wrapping_mul(u64::from(seed)),
        }
    }

    fn roll(&mut self, sides: u64) -> u64
        requires { 0 < sides }
        ensures { result < sides }
    {
        self.state = self
            .state
            .wrapping_mul(6_364_136_223_846_793_005)
            .wrapping_add(1_442_695_040_888_963_407);
        (self.state >> 33) % sides
    }
}

/// A node without cases.
fn node_of(roll: u64) -> &'static str {
    match roll {
        0 => "Pass",
        1 => "Add",
        2 => "Read",
        _ => "Bump",
    }
}

fn locks_of(roll: u64) -> &'static str {
    match roll {
        0 => "aisle",
        1 => "aisle?",
        2 => "zone",
        3 => "zone?",
        4 => "aisle?, zone",
        5 => "zone?, aisle",
        6 => "desk(session), aisle?",
        _ => "zone?, desk?(session)",
    }
}

/// Adds texts to a text.
fn push_all(text: &mut String, parts: &[&str]) -> Result<(), AllocError> {
    for part in parts {
        text.push_str(part)?;
    }
    Ok(())
}

/// Adds a level, which goes through the next one, between two nodes, with locks of its own.
fn push_level(
    text: &mut String,
    dice: &mut Dice,
    level: &'static str,
    next: &'static str,
) -> Result<(), AllocError> {
    let front = node_of(dice.roll(4));
    let back = node_of(dice.roll(4));
    let locks = locks_of(dice.roll(8));
    push_all(
        text,
        &[level, " = ", front, " -> ", next, " -> ", back, ";\n"],
    )?;
    push_all(text, &["atomic ", level, ":{", locks, "};\n"])
}

/// The text of a seed.
pub fn text_of(alloc: Global, seed: u32) -> Result<String, AllocError> {
    let mut text = String::from_str(alloc, HEAD)?;
    push_levels(&mut text, &mut Dice::of(seed))?;
    Ok(text)
}

/// Adds the levels, and the last node.
fn push_levels(text: &mut String, dice: &mut Dice) -> Result<(), AllocError> {
    for level in 0..LAST {
        push_level(text, dice, LEVELS[level], LEVELS[level + 1])?;
    }
    push_all(text, &[LEVELS[LAST], " = ", node_of(dice.roll(4)), ";\n"])
}

/// The numbers of a seed's flows: up to eight, of four sessions.
pub fn numbers_of(alloc: Global, seed: u32) -> Result<List<Given>, Trouble> {
    let mut dice = Dice::of(seed);
    let flows = 1 + dice.roll(8);
    let mut all = List::new(alloc);
    for _flow in 0..flows {
        all.add(Given {
            source: 0,
            number: dice.roll(4) as i64,
        })?;
    }
    Ok(all)
}
