//! What answers of std tell, each apart from the call that gave it.

ghost use Rattle.std.specs.Prelude.{◌≡◌, ◌↔◌, IsTrue, Some, None, Ok, Err, IfOk, IfErr, IfSome, IfNone, IsSome, IsOk};
ghost use Rattle.std.specs.IoError.{error_kind};
ghost use Rattle.std.specs.Fs.{file_type, IsDir};
ghost use Rattle.flux_outside.specs.Opening.{why_not};
ghost use Rattle.flux_outside.specs.Told.{folder_for, fault_of, why_no_count, IsKindOf};

use crate::faults::StoreFault;
use crate::system::{EntryKind, NotOpened, OpenFile};
use std::fs::{FileType, Metadata};
use std::io;
use std::io::ErrorKind;

fn why_not(kind: ErrorKind) -> NotOpened
    ensures { result ≡ why_not kind }
{
    match kind {
        ErrorKind::NotFound | ErrorKind::NotADirectory => NotOpened::Missing,
        ErrorKind::OutOfMemory => NotOpened::Memory,
        _ => NotOpened::Failed,
    }
}

/// A file that was opened, or why it wasn't.
pub fn opened<F: Drop>(answer: io::Result<F>) -> Result<OpenFile<F>, NotOpened>
    ensures file { IfOk answer (λ reader. result ≡ Ok (record { reader = reader })) }
    ensures none { IfErr answer (λ e. result ≡ Err (why_not (error_kind e))) }
{
    match answer {
        Ok(reader) => Ok(OpenFile { reader }),
        Err(e) => Err(why_not(e.kind())),
    }
}

fn folder_for(kind: ErrorKind) -> Option<bool>
    ensures { result ≡ folder_for kind }
{
    match kind {
        ErrorKind::NotFound | ErrorKind::NotADirectory => Some(false),
        _ => None,
    }
}

/// Whether there is a folder; None where the system failed.
pub fn folder_told(answer: &io::Result<Metadata>) -> Option<bool>
    ensures told { IfOk answer.now (λ _. IsSome result) }
    ensures folder { IfOk answer.now (λ metadata. IfSome result (λ is. IsTrue is ↔ IsDir (file_type metadata))) }
    ensures none { IfErr answer.now (λ e. result ≡ folder_for (error_kind e)) }
{
    match answer {
        Ok(metadata) => Some(metadata.is_dir()),
        Err(e) => folder_for(e.kind()),
    }
}

/// The next entry of a listing; None at its end.
pub fn entry_told<T: Drop>(answer: Option<io::Result<T>>) -> Result<Option<T>, ErrorKind>
    ensures entry { IfSome answer (λ some. IfOk some (λ entry. result ≡ Ok (Some entry))) }
    ensures failed { IfSome answer (λ some. IfErr some (λ e. result ≡ Err (error_kind e))) }
    ensures end { IfNone answer (result ≡ Ok None) }
{
    match answer {
        None => Ok(None),
        Some(Ok(entry)) => Ok(Some(entry)),
        Some(Err(e)) => Err(e.kind()),
    }
}

/// What an entry is.
pub fn kind_told(answer: &io::Result<FileType>) -> Result<EntryKind, ErrorKind>
    ensures told { IfOk answer.now (λ _. IsOk result) }
    ensures kind { IfOk answer.now (λ type. IfOk result (IsKindOf type)) }
    ensures failed { IfErr answer.now (λ e. result ≡ Err (error_kind e)) }
{
    match answer {
        Ok(kind) if kind.is_file() => Ok(EntryKind::File),
        Ok(kind) if kind.is_dir() => Ok(EntryKind::Folder),
        Ok(_) => Ok(EntryKind::Other),
        Err(e) => Err(e.kind()),
    }
}

/// What a read or a write of std came to.
#[derive(Clone, Copy)]
pub enum Counted {
    /// It took or gave so many bytes.
    Took(usize),
    /// A signal interrupted it, so nothing was done.
    Interrupted,
    Failed(ErrorKind),
}

fn why_no_count(kind: ErrorKind) -> Counted
    ensures { result ≡ why_no_count kind }
{
    match kind {
        ErrorKind::Interrupted => Counted::Interrupted,
        kind => Counted::Failed(kind),
    }
}

/// What a read or a write came to: only what a signal interrupted may be tried again.
pub fn count_told(answer: io::Result<usize>) -> Counted
    ensures took { IfOk answer (λ count. result ≡ Counted.Took count) }
    ensures failed { IfErr answer (λ e. result ≡ why_no_count (error_kind e)) }
{
    match answer {
        Ok(count) => Counted::Took(count),
        Err(e) => why_no_count(e.kind()),
    }
}

/// The fault that an error means.
pub fn fault_of(kind: ErrorKind) -> StoreFault
    ensures { result ≡ fault_of kind }
{
    match kind {
        ErrorKind::OutOfMemory => StoreFault::Memory,
        _ => StoreFault::Failed,
    }
}
