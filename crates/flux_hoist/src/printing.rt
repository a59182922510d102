//! How nodes and the classes that they hold are printed.

ghost use Rattle.std.specs.Prelude.{◌≡◌, ◌++◌, OnOk, slice_get};
ghost use Rattle.flux_model.specs.Texts.{class_name, node_name, printed_mode};
ghost use Rattle.flux_hoist.specs.Printed.{printed_hold, printed_scope};

use flux_model::{ClassNo, Hold, Mode, NodeNo, Program};
use flux_values::{Bytes, Memory};

/// The name of a node; empty where there is no such node.
pub(crate) fn node_name(p: &Program, node: NodeNo) -> &[u8]
    ensures { result.now ≡ node_name p.now node }
{
    match p.nodes.as_slice().get(node.0 as usize) {
        Some(node) => node.name.as_bytes(),
        None => b"",
    }
}

fn class_name(p: &Program, class: ClassNo) -> &[u8]
    ensures { result.now ≡ class_name (slice_get p.now.classes class.0) }
{
    match p.classes.as_slice().get(class.0 as usize) {
        Some(class) => class.name.as_bytes(),
        None => b"",
    }
}

fn scope(p: &Program, class: ClassNo) -> &[u8]
    ensures { result.now ≡ printed_scope (slice_get p.now.classes class.0) }
{
    match p.classes.as_slice().get(class.0 as usize) {
        Some(class) if class.session => b"(session)",
        _ => b"",
    }
}

fn mark(mode: Mode) -> &'static [u8]
    ensures { result.now ≡ printed_mode mode }
{
    match mode {
        Mode::Reader => b"?",
        Mode::Writer => b"!",
    }
}

/// Adds a class and its mode at the end. After an `Err` a part of it may be there.
pub(crate) fn append_hold(out: &mut Bytes, p: &Program, hold: Hold) -> Result<(), Memory>
    ensures { OnOk result (out.new ≡ out.old ++ printed_hold p.now hold) }
{
    out.append(class_name(p, hold.class))?;
    out.append(scope(p, hold.class))?;
    out.append(mark(hold.mode))
}
