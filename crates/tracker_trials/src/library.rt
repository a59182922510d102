//! The library `Tracker` by its own calls: what it answers about names that it has, and about one of each that it hasn't.

use crate::calls::{append_answer, cell_with, text};
use crate::rows::{HASH, Held};
use flux_library::{CellUse, Library, Role, Sig};
use flux_spelling::append_number;
use flux_values::{Answer, Bytes, Kind, List, Mode, Value};
use nodes_tracker::Tracker;
use std::alloc::Global;
use trial_ends::Trouble;

/// The types that it is asked about; it hasn't the last one.
const TYPES: &[&str] = &["int", "long", "bool", "text", "char*", "float"];

/// The nodes that it is asked about; it hasn't the last one.
const NODES: &[&str] = &[
    "Listen", "ReadAsk", "Swarm", "Scrape", "Send", "Failure", "Full", "Store",
];

/// The predicates that it is asked about, and two texts that are tested.
const PREDICATES: &[&str] = &["IsScrape", "IsAnnounce"];

const TESTED: &[&str] = &["scrape", "announce"];

/// The session functions that it is asked about.
const SESSIONS: &[&str] = &["ByConn", "ByNumber"];

/// The word for a kind.
fn kind_word(kind: Kind) -> &'static [u8] {
    match kind {
        Kind::Int => b" int",
        Kind::Bool => b" bool",
        Kind::Text => b" text",
    }
}

/// The word for a role.
fn role_word(role: Role) -> &'static [u8] {
    match role {
        Role::Plain => b", plain",
        Role::Source => b", a source",
        Role::HeadSource => b", a source of heads",
        Role::LineSource => b", a source of lines",
    }
}

/// What a cell is used for.
fn mode_word(mode: Mode) -> &'static [u8] {
    match mode {
        Mode::Reader => b", reads ",
        Mode::Writer => b", writes ",
    }
}

/// What a line is about.
fn append_name(out: &mut Bytes, what: &str, name: &str) -> Result<(), Trouble> {
    out.append(what.as_bytes())?;
    out.append(b" ")?;
    out.append(name.as_bytes())?;
    Ok(out.append(b":")?)
}

/// A kind, or none.
fn append_kind(out: &mut Bytes, kind: Option<Kind>) -> Result<(), Trouble> {
    match kind {
        Some(kind) => Ok(out.append(kind_word(kind))?),
        None => Ok(out.append(b" none")?),
    }
}

/// Kinds in order.
fn append_kinds(out: &mut Bytes, kinds: &List<Kind>) -> Result<(), Trouble> {
    for kind in kinds {
        out.append(kind_word(*kind))?;
    }
    Ok(())
}

/// The cells that a node uses, and how.
fn append_cells(out: &mut Bytes, cells: &List<CellUse>) -> Result<(), Trouble> {
    for cell in cells {
        out.append(mode_word(cell.mode))?;
        out.append(cell.name.as_bytes())?;
    }
    Ok(())
}

/// What a node takes, gives, uses and is.
fn append_sig(out: &mut Bytes, sig: &Sig) -> Result<(), Trouble> {
    out.append(b" takes")?;
    append_kinds(out, &sig.ins)?;
    out.append(b", gives")?;
    append_kinds(out, &sig.outs)?;
    append_cells(out, &sig.cells)?;
    Ok(out.append(role_word(sig.role))?)
}

/// The kinds of types.
fn append_types(out: &mut Bytes) -> Result<(), Trouble> {
    for ty in TYPES {
        append_name(out, "type", ty)?;
        append_kind(out, Tracker.kind(ty.as_bytes()))?;
        out.append(b"\n")?;
    }
    Ok(())
}

/// The signatures of nodes.
fn append_nodes(alloc: Global, out: &mut Bytes) -> Result<(), Trouble> {
    for name in NODES {
        append_name(out, "node", name)?;
        match Tracker.node(alloc, name.as_bytes())? {
            Some(sig) => append_sig(out, &sig)?,
            None => out.append(b" none")?,
        }
        out.append(b"\n")?;
    }
    Ok(())
}

/// Whether a predicate holds of texts.
fn append_tests(alloc: Global, out: &mut Bytes, name: &str) -> Result<(), Trouble> {
    for tested in TESTED {
        let value = Value::Text(text(alloc, tested.as_bytes())?);
        let holds = Tracker.test(name.as_bytes(), &value);
        append_name(out, ", of", tested)?;
        out.append(if holds { b" true" } else { b" false" })?;
    }
    Ok(())
}

/// The kinds of predicates, and of what they hold.
fn append_predicates(alloc: Global, out: &mut Bytes) -> Result<(), Trouble> {
    for name in PREDICATES {
        append_name(out, "predicate", name)?;
        append_kind(out, Tracker.predicate(name.as_bytes()))?;
        append_tests(alloc, out, name)?;
        out.append(b"\n")?;
    }
    Ok(())
}

/// The kinds of session functions, and a session.
fn append_sessions(alloc: Global, out: &mut Bytes) -> Result<(), Trouble> {
    for name in SESSIONS {
        append_name(out, "session", name)?;
        match Tracker.session(alloc, name.as_bytes())? {
            Some(kinds) => append_kinds(out, &kinds)?,
            None => out.append(b" none")?,
        }
        out.append(b"\n")?;
    }
    let link = [Value::Int(-2), Value::Text(text(alloc, b"line")?)];
    append_name(out, "session of", "-2")?;
    out.append(b" ")?;
    append_number(alloc, out, Tracker.id(b"ByConn", &link))?;
    Ok(out.append(b"\n")?)
}

/// What `Send` answers, which emits a text.
fn sent(alloc: Global) -> Result<Answer, Trouble> {
    let args = [Value::Text(text(alloc, b"reply")?)];
    Ok(Tracker.call(alloc, b"Send", &args, &[])?)
}

/// What `Swarm` answers on the cell that nobody has put to, for a peer with nothing left.
fn announced(alloc: Global, hash: &[u8]) -> Result<Answer, Trouble> {
    let args = [
        Value::Text(text(alloc, b"announce")?),
        Value::Text(text(alloc, hash)?),
        Value::Text(text(alloc, b"peer-1")?),
        Value::Int(0),
    ];
    let cells = [cell_with(alloc, Held::Nothing)?];
    Ok(Tracker.call(alloc, b"Swarm", &args, &cells)?)
}

/// A line about an answer.
fn append_call(alloc: Global, out: &mut Bytes, name: &str, answer: &Answer) -> Result<(), Trouble> {
    out.append(b"call ")?;
    out.append(name.as_bytes())?;
    append_answer(alloc, out, answer)?;
    if !answer.emits.as_bytes().is_empty() {
        out.append(b" emits ")?;
        out.append(answer.emits.as_bytes())?;
    }
    Ok(out.append(b"\n")?)
}

/// Calls of nodes: one that emits, one that puts, and one that is refused.
fn append_calls(alloc: Global, out: &mut Bytes) -> Result<(), Trouble> {
    append_call(alloc, out, "Send", &sent(alloc)?)?;
    append_call(alloc, out, "Swarm", &announced(alloc, HASH)?)?;
    append_call(alloc, out, "Swarm", &announced(alloc, b"no hash")?)
}

/// A line for each answer of the library.
pub fn library_lines(alloc: Global) -> Result<Bytes, Trouble> {
    let mut out = Bytes::new(alloc);
    append_types(&mut out)?;
    append_nodes(alloc, &mut out)?;
    append_predicates(alloc, &mut out)?;
    append_sessions(alloc, &mut out)?;
    append_calls(alloc, &mut out)?;
    Ok(out)
}
