//! The values of options, and numbers.

ghost use Rattle.std.specs.Prelude.{◌↔◌, List, IfOk, IsTrue};
ghost use Rattle.flux_cli.specs.Values.{SpellsNumbers, IsRuntime};
ghost use Rattle.flux_cli.specs.steps.Given.{listed};
ghost use Rattle.flux_cli.specs.steps.Found.{IsValueRead, IsNumberRead, AreNumbersRead, AreWorkersRead, IsThreadedRead, IsRuntimeRead, IsFormatRead, IsPortRead, IsBatchesRead};

use crate::names::strip;
use crate::workers::Workers;
use flux_model::FlowNo;
use flux_values::{List, Memory};
use std::alloc::Global;

/// A number has at most so many digits, leading zeros included.
pub const DIGIT_LIMIT: usize = 10;

/// The greatest number of a flow that a script names.
pub const NUMBER_LIMIT: u32 = 4_095;

/// The greatest number of workers of a pool, and of helpers of an event loop.
pub const WORKER_LIMIT: u32 = 16;

/// The greatest number of a port.
pub const PORT_LIMIT: u32 = 65_535;

/// The greatest number of batches, which is wanted where none is given.
pub const BATCHES_LIMIT: u32 = 4_294_967_295;

/// By which runtime items are run.
#[derive(Drop)]
pub enum Runtime {
    /// Flow after flow, each up to its first call, its wait or its end.
    Event,
    /// An event loop that so many helpers run calls for.
    EventWithHelpers(Workers),
    /// One event of each flow that is named, in order, as often as it is named.
    Script(List<FlowNo>),
    /// A thread for each flow.
    PerFlow,
    /// So many workers, which share the flows.
    Pool(Workers),
}

/// The format of a printed journal.
#[derive(Clone, Copy, PartialEq, Eq)]
pub enum JournalFormat {
    One,
    Two,
}

/// The number that decimal digits spell, if it isn't greater than a limit.
fn value_of(digits: &[u8], most: u32) -> Option<u32>
    ensures { IsValueRead most digits.now result }
{
    let mut number: u64 = 0;
    let mut rest = digits;
    while let [digit, others @ ..] = rest {
        if *digit < b'0' || b'9' < *digit {
            return None;
        }
        number = 10 * number + u64::from(*digit - b'0');
        if number > u64::from(most) {
            return None;
        }
        rest = others;
    }
    Some(number as u32)
}

/// The number that 1 to 10 decimal digits spell, if it is neither too small nor too great.
pub fn read_number(digits: &[u8], least: u32, most: u32) -> Option<u32>
    ensures { IsNumberRead least most digits.now result }
{
    if digits.is_empty() || digits.len() > DIGIT_LIMIT {
        return None;
    }
    match value_of(digits, most) {
        Some(number) if number >= least => Some(number),
        _ => None,
    }
}

fn read_numbers(alloc: Global, list: &[u8]) -> Result<Option<List<FlowNo>>, Memory>
    ensures { IfOk result (AreNumbersRead list.now) }
{
    let mut numbers = List::new(alloc);
    if list.is_empty() {
        return Ok(Some(numbers));
    }
    'numbers: for digits in list.split(|byte| *byte == b',') {
        match read_number(digits, 0, NUMBER_LIMIT) {
            Some(number) => numbers.add(FlowNo(number))?,
            None => return Ok(None),
        }
    }
    Ok(Some(numbers))
}

/// The number of workers, or of helpers, that digits spell.
pub fn read_workers(digits: &[u8]) -> Option<Workers>
    ensures { AreWorkersRead digits.now result }
{
    match read_number(digits, 1, WORKER_LIMIT) {
        Some(count) => Some(Workers { count: count as u8 }),
        None => None,
    }
}

/// The runtime with threads that a value spells.
pub fn read_threaded(value: &[u8]) -> Option<Runtime>
    ensures { IsThreadedRead value.now result }
{
    if value == b"perflow".as_slice() {
        return Some(Runtime::PerFlow);
    }
    if let Some(digits) = strip(b"pool=", value) {
        return match read_workers(digits) {
            Some(workers) => Some(Runtime::Pool(workers)),
            None => None,
        };
    }
    let Some(digits) = strip(b"event=", value) else {
        return None;
    };
    match read_workers(digits) {
        Some(helpers) => Some(Runtime::EventWithHelpers(helpers)),
        None => None,
    }
}

/// Whether numbers are in a list, which is decided without memory.
fn are_numbers(list: &[u8]) -> bool
    ensures { IsTrue result ↔ ((numbers : List FlowNo) × SpellsNumbers list.now numbers) }
{
    if list.is_empty() {
        return true;
    }
    'numbers: for digits in list.split(|byte| *byte == b',') {
        match read_number(digits, 0, NUMBER_LIMIT) {
            Some(_) => {}
            None => return false,
        }
    }
    true
}

/// Whether a runtime is given, or none has to be, which is decided without memory.
pub fn is_runtime(given: Option<&[u8]>) -> bool
    ensures { IsTrue result ↔ ((runtime : Runtime) × IsRuntime (listed given.entry) runtime) }
{
    let Some(value) = given else {
        return true;
    };
    if value == b"event".as_slice() {
        return true;
    }
    match strip(b"script=", value) {
        Some(list) => are_numbers(list),
        None => read_threaded(value).is_some(),
    }
}

/// The runtime that is given, or `event`.
pub fn read_runtime(alloc: Global, given: Option<&[u8]>) -> Result<Option<Runtime>, Memory>
    ensures { IfOk result (IsRuntimeRead (listed given.entry)) }
{
    let Some(value) = given else {
        return Ok(Some(Runtime::Event));
    };
    if value == b"event".as_slice() {
        return Ok(Some(Runtime::Event));
    }
    let Some(list) = strip(b"script=", value) else {
        return Ok(read_threaded(value));
    };
    match read_numbers(alloc, list)? {
        Some(numbers) => Ok(Some(Runtime::Script(numbers))),
        None => Ok(None),
    }
}

/// The format that is given, or 1.
pub fn read_format(given: Option<&[u8]>) -> Option<JournalFormat>
    ensures { IsFormatRead (listed given.entry) result }
{
    let Some(value) = given else {
        return Some(JournalFormat::One);
    };
    match value {
        b"1" => Some(JournalFormat::One),
        b"2" => Some(JournalFormat::Two),
        _ => None,
    }
}

/// The port that is given.
pub fn read_port(given: Option<&[u8]>) -> Option<u16>
    ensures { IsPortRead (listed given.entry) result }
{
    match read_number(given?, 1, PORT_LIMIT) {
        Some(port) => Some(port as u16),
        None => None,
    }
}

/// How many batches are given, or as many as can be.
pub fn read_batches(given: Option<&[u8]>) -> Option<u32>
    ensures { IsBatchesRead (listed given.entry) result }
{
    match given {
        Some(value) => read_number(value, 1, BATCHES_LIMIT),
        None => Some(BATCHES_LIMIT),
    }
}
