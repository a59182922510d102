//! Folders of a made-up system: which documents they give, and in which order.

use super::made_up::{Entry, System};
use flux_outside::{Folder, NextDoc, RealFolder, StoreFault};
use flux_values::{Bytes, Memory};
use std::alloc::Global;
use std::io::ErrorKind;
use std::test::Fail;

/// Folders in one another. What a link leads to is no document.
static NESTED: [(&str, Entry); 11] = [
    ("top", Entry::Folder(b"a\0link\0sub\0empty\0other\0")),
    ("top/a", Entry::File(b"in a")),
    ("top/link", Entry::Link(b"elsewhere")),
    ("top/sub", Entry::Folder(b"b\0deep\0")),
    ("top/sub/b", Entry::File(b"in b")),
    ("top/sub/deep", Entry::Folder(b"c\0")),
    ("top/sub/deep/c", Entry::File(b"")),
    ("top/empty", Entry::Folder(b"")),
    ("top/other", Entry::Folder(b"link\0d\0")),
    ("top/other/link", Entry::Link(b"elsewhere")),
    ("top/other/d", Entry::File(b"in d")),
];

/// As many subfolders as there may be.
static FULL: [(&str, Entry); 1] = [("top", Entry::Many(4_096))];

/// One subfolder too many.
static OVERFULL: [(&str, Entry); 1] = [("top", Entry::Many(4_097))];

/// A name that is no text, and a file that goes away before it is opened.
static FAULTY: [(&str, Entry); 3] = [
    ("top", Entry::Folder(b"\xff\0a\0gone\0")),
    ("top/a", Entry::File(b"in a")),
    ("top/gone", Entry::Gone),
];

/// What the next document comes to: its name and its body, or a word.
fn told(
    alloc: Global,
    folder: &mut RealFolder<(System, Global)>,
    max: usize,
) -> Result<Bytes, Memory> {
    match folder.next_doc(alloc, max) {
        Ok(NextDoc::Doc(name, body)) => {
            let mut told = name;
            told.append(b": ")?;
            told.append(body.as_bytes())?;
            Ok(told)
        }
        Ok(NextDoc::Longer) => Bytes::copy(alloc, b"longer"),
        Ok(NextDoc::NoMore) => Bytes::copy(alloc, b"no more"),
        Err(StoreFault::Failed) => Bytes::copy(alloc, b"failed"),
        Err(StoreFault::Memory) => Bytes::copy(alloc, b"memory"),
    }
}

/// Walks through the folder `top`: the limit of each step, and what it must come to. Gives what comes of the first wrong step.
fn walk(
    alloc: Global,
    entries: &'static [(&'static str, Entry)],
    steps: &[(usize, &str)],
) -> Result<Option<Bytes>, Memory> {
    let system = System {
        entries,
        other: ErrorKind::NotFound,
        first: None,
    };
    let mut folder = RealFolder::new(alloc, (system, alloc))?;
    let before = told(alloc, &mut folder, 9)?;
    if before.as_bytes() != b"no more".as_slice() || folder.open(b"top") != Ok(true) {
        return Ok(Some(before));
    }
    for (max, wanted) in steps {
        let told = told(alloc, &mut folder, *max)?;
        if told.as_bytes() != wanted.as_bytes() {
            return Ok(Some(told));
        }
    }
    Ok(None)
}

/// A folder's own documents come first, and then those of the subfolder that was found last. At the end there is none more.
#[test]
fn nested(rt: HostRuntime) -> Result<(), Fail> {
    let steps = [
        (4, "a: in a"),
        (4, "other/d: in d"),
        (4, "sub/b: in b"),
        (0, "sub/deep/c: "),
        (9, "no more"),
        (9, "no more"),
    ];
    assert!(rt; walk(rt.alloc(), &NESTED, &steps)?.is_none());
    Ok(())
}

/// A document that is longer stays until it is asked for with more room.
#[test]
fn longer(rt: HostRuntime) -> Result<(), Fail> {
    let steps = [
        (3, "longer"),
        (0, "longer"),
        (4, "a: in a"),
        (3, "longer"),
        (9, "other/d: in d"),
    ];
    assert!(rt; walk(rt.alloc(), &NESTED, &steps)?.is_none());
    Ok(())
}

/// Where there is one subfolder too many, the folder is longer than what is read, however often it is asked for.
#[test]
fn subfolders(rt: HostRuntime) -> Result<(), Fail> {
    let full = walk(rt.alloc(), &FULL, &[(9, "no more")])?;
    assert!(rt; full.is_none());
    let overfull = walk(rt.alloc(), &OVERFULL, &[(9, "longer"), (9, "longer")])?;
    assert!(rt; overfull.is_none());
    Ok(())
}

/// What fails is tried again, but for a name that the system has given.
#[test]
fn faulty(rt: HostRuntime) -> Result<(), Fail> {
    let steps = [(9, "failed"), (9, "a: in a"), (9, "failed"), (9, "failed")];
    assert!(rt; walk(rt.alloc(), &FAULTY, &steps)?.is_none());
    Ok(())
}
