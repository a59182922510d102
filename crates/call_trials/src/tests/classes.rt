//! What a set of classes covers, and the order of classes.

use flux_constraints::ClassSet;
use flux_model::{Class, ClassNo, Hold, Mode, class_order};
use flux_values::TextBytes;
use std::alloc::Global;
use std::cmp::Ordering;
use std::test::Fail;

/// A class by its digit, with `!` as a writer and else as a reader.
fn hold_of(word: &str) -> Hold {
    let mode = if word.ends_with('!') {
        Mode::Writer
    } else {
        Mode::Reader
    };
    let digit = word.as_bytes().first().copied().unwrap_or(b'0');
    let class = ClassNo(u32::from(digit.saturating_sub(b'0')));
    Hold { class, mode }
}

#[test]
fn a_set_covers_its_classes_in_no_greater_modes(rt: HostRuntime) -> Result<(), Fail> {
    let mut set = ClassSet::new(rt.alloc());
    for word in "8! 2! 5?".split(' ') {
        set.join(hold_of(word))?;
    }
    for word in "2? 2! 5? 8? 8!".split(' ') {
        assert!(rt; set.covers(hold_of(word)), "{word}");
    }
    for word in "5! 3? 9? 0!".split(' ') {
        assert!(rt; !set.covers(hold_of(word)), "{word}");
    }
    Ok(())
}

/// The order of two classes, of which those of a session have a blank in front.
fn order_of(alloc: Global, one: &str, other: &str) -> Result<Ordering, Fail> {
    Ok(class_order(&class(alloc, one)?, &class(alloc, other)?))
}

fn class(alloc: Global, word: &str) -> Result<Class, Fail> {
    Ok(Class {
        name: TextBytes::copy(alloc, word.trim_start().as_bytes())?,
        session: word.starts_with(' '),
    })
}

#[test]
fn classes_come_by_name_and_program_wide_ones_first(rt: HostRuntime) -> Result<(), Fail> {
    let alloc = rt.alloc();
    assert!(rt; order_of(alloc, "a", " a")? == Ordering::Less);
    assert!(rt; order_of(alloc, "a", " ")? == Ordering::Greater);
    assert!(rt; order_of(alloc, " a", " a")? == Ordering::Equal);
    Ok(())
}
