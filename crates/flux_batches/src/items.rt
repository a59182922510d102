//! The items of links.

ghost use Rattle.std.specs.Prelude.{◌≡◌, ℕ, ◌+◌, ◌^◌, ◌<◌, ◌≤◌, pos, length, IfOk};
ghost use Rattle.std.specs.List.{AllByRecursion};
ghost use Rattle.std.specs.VecDeque.{deque_len};
ghost use Rattle.flux_batches.specs.Links.{link_item, items_from, AreRead, IsLinkItem};

use crate::reading::{ReadLink, Sent};
use flux_model::{Item, SourceNo};
use flux_values::{List, Memory, TEXT_LIMIT, TextBytes, Value};
use std::alloc::Global;
use std::collections::VecDeque;

/// The item of a link: its number and its text.
fn item_of(alloc: Global, number: i64, text: &[u8]) -> Result<Item, Memory>
    requires { length text.now ≤ TEXT_LIMIT }
    ensures item { IfOk result (λ item. (n : ℕ) → number ≡ pos n → item ≡ link_item n text.now) }
    ensures values { IfOk result IsLinkItem }
{
    let Ok(text) = TextBytes::copy(alloc, text) else {
        return Err(Memory);
    };
    let mut values = List::new(alloc);
    values.add(Value::Int(number))?;
    values.add(Value::Text(text))?;
    Ok(Item {
        source: SourceNo(0),
        values,
    })
}

/// The items of links, which are numbered from a number on. A link whose reading failed has none.
pub fn items_of<K>(
    alloc: Global,
    links: &VecDeque<ReadLink<K>>,
    number: u64,
) -> Result<List<Item>, Memory>
    requires { number + deque_len links.now < 2 ^ 63 }
    ensures items { IfOk result (λ items. items ≡ items_from number links.now.items) }
    ensures values { IfOk result (AllByRecursion IsLinkItem) }
    ensures read { IfOk result (λ items. AreRead links.now.items) }
{
    let mut items = List::new(alloc);
    for place in 0..links.len() {
        let Some(request) = links.get(place) else {
            return Err(Memory);
        };
        match &request.sent {
            Sent::Text(text) => {
                let number = (number + place as u64) as i64;
                items.add(item_of(alloc, number, text.as_bytes())?)?;
            }
            Sent::Failed => {}
            Sent::Memory => return Err(Memory),
        }
    }
    Ok(items)
}
