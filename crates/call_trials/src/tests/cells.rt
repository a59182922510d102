//! Cells after puts, in order and apart.

use flow_model::Key;
use flux_cells::Cells;
use flux_model::{Class, ClassNo, Program};
use flux_values::{List, Put, TextBytes, Value};
use std::alloc::Global;
use std::process::Abort;
use std::test::Fail;

/// A program with the program-wide class `counter` and the session class `basket`.
fn program(alloc: Global) -> Result<Program, Fail> {
    let mut classes = List::new(alloc);
    for (name, session) in [(b"basket".as_slice(), true), (b"counter", false)] {
        let name = TextBytes::copy(alloc, name)?;
        classes.add(Class { name, session })?;
    }
    Ok(Program {
        classes,
        nodes: List::new(alloc),
        sources: List::new(alloc),
        predicates: List::new(alloc),
    })
}

const COUNTER: Key = Key {
    class: ClassNo(1),
    id: None,
};

fn basket(session: u64) -> Key {
    Key {
        class: ClassNo(0),
        id: Some(session),
    }
}

/// A put of a number or a removal: the cell's name, and the name in the cell.
type Wanted = (&'static [u8], &'static [u8], Option<i64>);

fn puts(alloc: Global, wanted: &[Wanted]) -> Result<List<Put>, Fail> {
    let mut puts = List::new(alloc);
    for (cell, name, number) in wanted {
        let cell = TextBytes::copy(alloc, cell)?;
        let name = TextBytes::copy(alloc, name)?;
        let value = number.map(Value::Int);
        puts.add(Put { cell, name, value })?;
    }
    Ok(puts)
}

fn apply(alloc: Global, cells: &mut Cells, keys: &[Key], wanted: &[Wanted]) -> Result<(), Fail> {
    let p = program(alloc)?;
    let puts = puts(alloc, wanted)?;
    cells.apply(keys, &puts, &p)?;
    Ok(())
}

/// The number under a name of a key's cell.
fn number(cells: &Cells, key: Key, name: &[u8]) -> Option<i64> {
    match cells.cell(key)?.get(name)? {
        Value::Int(number) => Some(*number),
        _ => None,
    }
}

fn assert_numbers(rt: &impl Abort, cells: &Cells, wanted: &[(Key, &[u8], Option<i64>)]) {
    for (key, name, wanted) in wanted {
        assert_eq!(rt;
            number(cells, *key, name),
            *wanted,
            "{} {name:?}",
            key.class.0
        );
    }
}

#[test]
fn a_copy_keeps_what_the_cells_had(rt: HostRuntime) -> Result<(), Fail> {
    let alloc = rt.alloc();
    let keys = [basket(7), COUNTER];
    let before = [
        (b"counter".as_slice(), b"a".as_slice(), Some(1)),
        (b"basket", b"b", Some(2)),
    ];
    let after = [
        (b"counter".as_slice(), b"a".as_slice(), Some(3)),
        (b"basket", b"b", None),
    ];
    let mut cells = Cells::new(alloc);
    apply(alloc, &mut cells, &keys, &before)?;
    let kept = cells.copy()?;
    apply(alloc, &mut cells, &keys, &after)?;
    assert_numbers(
        &rt,
        &kept,
        &[(COUNTER, b"a", Some(1)), (basket(7), b"b", Some(2))],
    );
    assert_numbers(
        &rt,
        &cells,
        &[(COUNTER, b"a", Some(3)), (basket(7), b"b", None)],
    );
    assert!(rt; cells.cell(basket(7)).is_none());
    Ok(())
}

#[test]
fn puts_are_applied_in_order_on_the_cells_of_their_names(rt: HostRuntime) -> Result<(), Fail> {
    let alloc = rt.alloc();
    let mut cells = Cells::new(alloc);
    apply(
        alloc,
        &mut cells,
        &[basket(8)],
        &[(b"basket", b"n", Some(9))],
    )?;
    let table = [
        (b"counter".as_slice(), b"n".as_slice(), Some(1)),
        (b"basket", b"n", Some(2)),
        (b"counter", b"n", Some(3)),
        (b"counter", b"m", Some(4)),
        (b"counter", b"gone", Some(5)),
        (b"counter", b"gone", None),
        (b"counter", b"m", None),
        (b"counter", b"m", Some(6)),
    ];
    apply(alloc, &mut cells, &[COUNTER, basket(7)], &table)?;
    let wanted = [
        (COUNTER, b"n".as_slice(), Some(3)),
        (COUNTER, b"m", Some(6)),
        (COUNTER, b"gone", None),
        (basket(7), b"n", Some(2)),
        // The other session's cell stays.
        (basket(8), b"n", Some(9)),
    ];
    assert_numbers(&rt, &cells, &wanted);
    Ok(())
}
