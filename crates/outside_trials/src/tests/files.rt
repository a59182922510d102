//! Files of a made-up system: what they come to, within which limits, and for which errors.

use super::made_up::{Entry, System};
use flux_outside::{Failed, File, Folder, RealFolder, RealStore, Store, StoreFault};
use std::io::ErrorKind;
use std::test::Fail;

static ONE_FILE: [(&str, Entry); 1] = [("long ", Entry::File(&[b'x'; 9_000]))];

/// What reading came to, with the length of what was found.
fn outcome(answer: Result<File, StoreFault>) -> Result<Option<usize>, &'static str> {
    match answer {
        Ok(File::Found(body)) => Ok(Some(body.as_bytes().len())),
        Ok(File::Missing) => Ok(None),
        Ok(File::Longer) => Err("longer"),
        Err(StoreFault::Failed) => Err("failed"),
        Err(StoreFault::Memory) => Err("memory"),
    }
}

fn system(other: ErrorKind, first: Option<ErrorKind>) -> System {
    System {
        entries: &ONE_FILE,
        other,
        first,
    }
}

#[test]
fn limits(rt: HostRuntime) -> Result<(), Fail> {
    let mut store = RealStore::new(system(ErrorKind::NotFound, None));
    let whole = store.read_file(rt.alloc(), b"long ", 9_000);
    assert_eq!(rt; outcome(whole), Ok(Some(9_000)));
    let one_less = store.read_file(rt.alloc(), b"long ", 8_999);
    assert_eq!(rt; outcome(one_less), Err("longer"));
    let none = store.read_file(rt.alloc(), b"long ", 0);
    assert_eq!(rt; outcome(none), Err("longer"));
    let without_blank = store.read_file(rt.alloc(), b"long", 9_000);
    assert_eq!(rt; outcome(without_blank), Ok(None));
    let no_text = store.read_file(rt.alloc(), b"\xff", 9_000);
    assert_eq!(rt; outcome(no_text), Err("failed"));
    Ok(())
}

#[test]
fn errors_of_opening(rt: HostRuntime) -> Result<(), Fail> {
    let table = [
        (ErrorKind::NotFound, Ok(None)),
        (ErrorKind::NotADirectory, Ok(None)),
        (ErrorKind::PermissionDenied, Err("failed")),
        (ErrorKind::OutOfMemory, Err("memory")),
    ];
    for (kind, wanted) in table {
        let mut store = RealStore::new(system(kind, None));
        let answer = store.read_file(rt.alloc(), b"long/x", 9_000);
        assert_eq!(rt; outcome(answer), wanted);
    }
    Ok(())
}

#[test]
fn errors_of_folders(rt: HostRuntime) -> Result<(), Fail> {
    let table = [
        (ErrorKind::NotFound, Ok(false)),
        (ErrorKind::NotADirectory, Ok(false)),
        (ErrorKind::PermissionDenied, Err(Failed)),
    ];
    for (kind, wanted) in table {
        let mut folder = RealFolder::new(rt.alloc(), (system(kind, None), rt.alloc()))?;
        assert_eq!(rt; folder.open(b"nowhere"), wanted);
    }
    Ok(())
}

/// A read that fails once is a failure, and isn't tried again; only what a signal interrupted is.
#[test]
fn errors_of_reading(rt: HostRuntime) -> Result<(), Fail> {
    let table = [
        (ErrorKind::Other, Err("failed")),
        (ErrorKind::WouldBlock, Err("failed")),
        (ErrorKind::NotFound, Err("failed")),
        (ErrorKind::OutOfMemory, Err("memory")),
        (ErrorKind::Interrupted, Ok(Some(9_000))),
    ];
    for (kind, wanted) in table {
        let mut store = RealStore::new(system(ErrorKind::NotFound, Some(kind)));
        let answer = store.read_file(rt.alloc(), b"long ", 9_000);
        assert_eq!(rt; outcome(answer), wanted);
    }
    Ok(())
}
