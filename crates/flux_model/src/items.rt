//! Items, each of which starts a flow.

use crate::programs::SourceNo;
use flux_values::{List, Value};

/// A flow, by its item's place among the items.
#[derive(Clone, Copy, PartialEq, Eq, PartialOrd, Ord, Hash)]
pub struct FlowNo(pub u32);

/// What starts one flow: the values that a source gives.
pub struct Item {
    pub source: SourceNo,
    pub values: List<Value>,
}

impl Drop for Item {
    fn drop(self) {
        let Item { source, values } = self;
    }
}
