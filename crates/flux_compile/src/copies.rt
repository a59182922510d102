//! Copies of lists.

ghost use Rattle.std.specs.Prelude.{◌≡◌, IfOk};

use flux_model::HandleArm;
use flux_values::{List, Memory};
use std::alloc::Global;

pub fn copy_items<T: Copy + Drop>(alloc: Global, items: &[T]) -> Result<List<T>, Memory>
    ensures { IfOk result (λ copies. copies ≡ items.now) }
{
    let mut copies = List::new(alloc);
    for item in items {
        copies.add(*item)?;
    }
    Ok(copies)
}

pub fn copy_arms(alloc: Global, arms: &[HandleArm]) -> Result<List<HandleArm>, Memory>
    ensures { IfOk result (λ copies. copies ≡ arms.now) }
{
    let mut copies = List::new(alloc);
    for arm in arms {
        copies.add(HandleArm {
            codes: copy_items(alloc, arm.codes.as_slice())?,
            node: arm.node,
        })?;
    }
    Ok(copies)
}
