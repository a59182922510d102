//! The items of a text.

ghost use Rattle.std.specs.Prelude.{◌≡◌, ◌<◌, ◌^◌, List, Ok, Err, slice_index};
ghost use Rattle.flux_values.specs.Answers.{IsOrMemory};
ghost use Rattle.flux_model.specs.declared.items.Item.{Item};
ghost use Rattle.flux_items.specs.declared.rules.ItemFault.{ItemFault};
ghost use Rattle.flux_items.specs.declared.rules.ItemFault.TheVariants as faults;
ghost use Rattle.flux_items.specs.Rules.{AreRules};
ghost use Rattle.flux_items.specs.Items.{AreItemsOf};
ghost use Rattle.flux_items.specs.Faults.{HasCause, IsFaultOf};

use crate::lines::{LineRead, read_line};
use crate::names::names_of;
use crate::rules::{ITEM_LIMIT, ItemFault, ItemRules, SIZE_LIMIT};
use flux_model::Item;
use flux_values::List;
use std::alloc::Global;

/// The items of a text, in order, or the fault of its first faulty line.
///
/// Lines end with LF, which the last may lack. A line of blanks (space, tab and CR) is passed over, and
/// so is one whose first other byte is `#`. Each other line is a source's name, `(`, values in any
/// spelling that `read_value` takes with commas between them, and `)`, with blanks before, between and
/// after these.
pub fn read_items(alloc: Global, bytes: &[u8], rules: &ItemRules) -> Result<List<Item>, ItemFault>
    requires { AreRules rules.now }
    // Each answer has its cause.
    ensures cause { HasCause rules.now bytes.now result }
    // Each cause has its answer, but for want of memory.
    ensures items { (items : List Item) → AreItemsOf rules.now items bytes.now
        → IsOrMemory faults.Memory (Ok items) result }
    ensures fault { (fault : ItemFault) → IsFaultOf rules.now fault bytes.now
        → IsOrMemory faults.Memory (Err fault) result }
{
    read_all(alloc, bytes, rules)
}

fn read_all(alloc: Global, bytes: &[u8], rules: &ItemRules) -> Result<List<Item>, ItemFault>
    requires { AreRules rules.now }
    ensures { HasCause rules.now bytes.now result }
{
    let names = names_of(alloc, rules)?;
    let mut items = List::new(alloc);
    let mut size: u64 = 0;
    let mut number: u64 = 0;
    'lines: for line in bytes.split(|byte| *byte == b'\n') {
        number += 1;
        match read_line(alloc, rules, &names, line)? {
            LineRead::PassedOver => {}
            LineRead::Item(item) => {
                size += size_at(rules, &item);
                if items.len() == ITEM_LIMIT || size > SIZE_LIMIT {
                    return Err(ItemFault::TooMany { line: number });
                }
                items.add(item)?;
            }
            LineRead::BadItem => return Err(ItemFault::BadItem { line: number }),
            LineRead::UnknownSource => return Err(ItemFault::UnknownSource { line: number }),
            LineRead::ItemTypes => return Err(ItemFault::ItemTypes { line: number }),
        }
    }
    Ok(items)
}

/// The size of an item's source.
fn size_at(rules: &ItemRules, item: &Item) -> u64
    ensures value { let from = rules.now in let of = item.now in result ≡ slice_index from.sizes of.source.0 }
    ensures small { result < 2 ^ 32 }
{
    match rules.sizes.get(item.source.0 as usize) {
        Some(size) => u64::from(*size),
        None => 0,
    }
}
