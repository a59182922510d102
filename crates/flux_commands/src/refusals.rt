//! Why a command was not carried out, and what is said about it.

ghost use Rattle.std.specs.Prelude.{◌≡◌, ◌++◌, IfOk, OnOk};
ghost use Rattle.flux_commands.specs.declared.refusals.Refusal.TheVariants as refusals;
ghost use Rattle.flux_commands.specs.Causes.{item_fault_name, item_fault_line};
ghost use Rattle.flux_commands.specs.Refusals.{status_of, line_of, of_items};
ghost use Rattle.flux_items.specs.Faults.{line_of as number_of};

use crate::statuses::Status;
use flux_items::ItemFault;
use flux_spelling::append_number;
use flux_values::{Bytes, Memory};
use std::alloc::Global;

/// Why a command was not carried out.
#[derive(Drop)]
pub enum Refusal<'a> {
    Usage,
    /// The line about a fault of the program's text.
    Static(Bytes),
    /// The fault of the items text.
    Items(ItemFault),
    Read,
    /// The name of a file or a folder that is missing or too long.
    Missing(&'a [u8]),
    /// The program can't be served.
    NotServed,
    Memory,
}

impl<'a> From<Memory> for Refusal<'a> {
    ghost from_gives = { λ _ e. e ≡ refusals.Memory };

    fn from(_e: Memory) -> Refusal<'a> {
        Refusal::Memory
    }
}

impl<'a> From<ItemFault> for Refusal<'a> {
    ghost from_gives = { λ fault e. e ≡ of_items fault };

    fn from(fault: ItemFault) -> Refusal<'a> {
        match fault {
            ItemFault::Memory => Refusal::Memory,
            _ => Refusal::Items(fault),
        }
    }
}

/// The number of the line of an item fault.
fn number_of(fault: ItemFault) -> u64
    ensures { result ≡ number_of fault }
{
    match fault {
        ItemFault::BadItem { line } => line,
        ItemFault::UnknownSource { line } => line,
        ItemFault::ItemTypes { line } => line,
        ItemFault::TooMany { line } => line,
        ItemFault::Memory => 0,
    }
}

/// The number and the name of an item fault.
fn name_of(fault: ItemFault) -> &'static [u8]
    ensures { result.now ≡ item_fault_name fault }
{
    match fault {
        ItemFault::BadItem { .. } => b"1 BadItem",
        ItemFault::UnknownSource { .. } => b"2 UnknownSource",
        ItemFault::ItemTypes { .. } => b"3 ItemTypes",
        ItemFault::TooMany { .. } => b"4 TooMany",
        ItemFault::Memory => b"",
    }
}

fn append_fault(alloc: Global, line: &mut Bytes, fault: ItemFault) -> Result<(), Memory>
    ensures { OnOk result (line.new ≡ line.old ++ item_fault_line fault) }
{
    line.append(b"line ")?;
    append_number(alloc, line, number_of(fault))?;
    line.append(b": item fault ")?;
    line.append(name_of(fault))?;
    line.append(b"\n")
}

impl<'a> Refusal<'a> {
    pub fn status(&self) -> Status
        ensures { result ≡ status_of self.now }
    {
        match self {
            Refusal::Usage => Status::Usage,
            Refusal::Static(_) => Status::Static,
            Refusal::Items(_) => Status::Items,
            Refusal::Read => Status::Read,
            Refusal::Missing(_) => Status::Missing,
            Refusal::NotServed => Status::NotServed,
            Refusal::Memory => Status::Memory,
        }
    }

    /// The line that is written about it.
    pub fn line(&self, alloc: Global) -> Result<Bytes, Memory>
        ensures { IfOk result (λ line. line ≡ line_of self.now) }
    {
        let mut line = Bytes::new(alloc);
        match self {
            Refusal::Usage => line.append(b"flux: bad command line, try flux --help\n")?,
            Refusal::Static(text) => line.append(text.as_bytes())?,
            Refusal::Items(fault) => append_fault(alloc, &mut line, *fault)?,
            Refusal::Read => line.append(b"flux: read failed\n")?,
            Refusal::Missing(name) => {
                line.append(b"flux: missing or too long: ")?;
                line.append(name)?;
                line.append(b"\n")?;
            }
            Refusal::NotServed => line.append(b"flux: not a served program\n")?,
            Refusal::Memory => {}
        }
        Ok(line)
    }
}
