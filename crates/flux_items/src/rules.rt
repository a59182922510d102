//! What items are read by, and what can be wrong with them.

ghost use Rattle.std.specs.Prelude.{◌≡◌};
ghost use Rattle.flux_items.specs.declared.rules.ItemFault.TheVariants as faults;

use flux_values::{Kind, List, Memory, TextBytes};

/// The most items of a text.
pub const ITEM_LIMIT: usize = 4096;

/// The most that the sizes of the items' sources sum to, one for each item.
pub const SIZE_LIMIT: u64 = 4_194_304;

/// The sources of a program, by their places: the name, the kinds of the values and the size of each.
pub struct ItemRules {
    pub names: List<TextBytes>,
    pub kinds: List<List<Kind>>,
    pub sizes: List<u32>,
}

impl Drop for ItemRules {
    fn drop(self) {
        let ItemRules {
            names,
            kinds,
            sizes,
        } = self;
    }
}

/// Why a text has no items: what is wrong with its first faulty line, which is counted from 1.
#[derive(Clone, Copy, PartialEq, Eq)]
pub enum ItemFault {
    /// The line is of another form.
    BadItem { line: u64 },
    /// No source has the line's name.
    UnknownSource { line: u64 },
    /// The source gives other values, in number or in kinds.
    ItemTypes { line: u64 },
    /// There is an item too many, or the sizes go past their limit.
    TooMany { line: u64 },
    Memory,
}

impl From<Memory> for ItemFault {
    ghost from_gives = { λ _ fault. fault ≡ faults.Memory };

    fn from(_memory: Memory) -> ItemFault {
        ItemFault::Memory
    }
}
