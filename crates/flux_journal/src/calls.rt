//! Calls: what follows the node's name.

ghost use Rattle.std.specs.Prelude.{◌≡◌, IfOk};
ghost use Rattle.flux_model.specs.Names.{IsNamed};
ghost use Rattle.flux_journal.specs.Spelled.{BeginClosed, BeginValues, BeginsResult, IsEmission};
ghost use Rattle.flux_journal.specs.steps.Reading.{IsPartRead, IsWholeRead, AreMoreRead, BeginsCell, BeginsName, BeginsSet, BeginsRemoved, IsPutOrNone, ArePutsRead, IsEmitted, IsCallAt};

use crate::cursors::Cursor;
use crate::cuts::{behind, cut};
use crate::faults::LineFault;
use crate::names::find_cell;
use flow_model::{CallMade, Carried, SharedAnswer};
use flux_model::{CallResult, NodeNo, Program, Put};
use flux_spelling::read_text_within;
use flux_values::{Answer, Bytes, EMISSION_LIMIT, List, Memory, TextBytes, Value};
use std::alloc::Global;

impl Cursor<'_> {
    /// Goes past values with commas before them, and adds them to others.
    fn more_values(&mut self, alloc: Global, values: &mut List<Value>) -> Result<(), LineFault>
        ensures { AreMoreRead values.old values.new self.old.rest.now self.new.rest.now result }
    {
        'values: while self.skip(b", ") {
            let value = self.value(alloc)?;
            values.add(value)?;
        }
        Ok(())
    }

    /// Goes past values with commas between them, and `)`.
    fn closed(&mut self, alloc: Global) -> Result<List<Value>, LineFault>
        ensures { IsPartRead BeginClosed self.old.rest.now self.new.rest.now result }
    {
        let mut values = List::new(alloc);
        if self.skip(b")") {
            return Ok(values);
        }
        let value = self.value(alloc)?;
        values.add(value)?;
        self.more_values(alloc, &mut values)?;
        self.expect(b")")?;
        Ok(values)
    }

    /// Goes past values in parentheses.
    fn values(&mut self, alloc: Global) -> Result<List<Value>, LineFault>
        ensures { IsPartRead BeginValues self.old.rest.now self.new.rest.now result }
    {
        self.expect(b"(")?;
        self.closed(alloc)
    }

    /// Goes past a result.
    fn result(&mut self, alloc: Global) -> Result<CallResult, LineFault>
        ensures { IsPartRead BeginsResult self.old.rest.now self.new.rest.now result }
    {
        if self.skip(b"ok ") {
            let values = self.values(alloc)?;
            return Ok(CallResult::Good(values));
        }
        self.expect(b"fail ")?;
        let code = self.code()?;
        Ok(CallResult::Bad(code))
    }

    /// Goes past a class's name and a space.
    fn cell(&mut self, alloc: Global, program: &Program) -> Result<TextBytes, LineFault>
        requires { IsNamed program.now }
        ensures { IsPartRead (BeginsCell program.now) self.old.rest.now self.new.rest.now result }
    {
        let Some((name, rest)) = cut(b' ', self.rest) else {
            return Err(LineFault::BadLine);
        };
        let Some(cell) = find_cell(program, name) else {
            return Err(LineFault::BadLine);
        };
        self.rest = rest;
        Ok(cell.again(alloc)?)
    }

    /// Goes past a text.
    fn text(&mut self, alloc: Global) -> Result<TextBytes, LineFault>
        ensures { IsPartRead BeginsName self.old.rest.now self.new.rest.now result }
    {
        match self.value(alloc)?.into_text() {
            Some(text) => Ok(text),
            None => Err(LineFault::BadLine),
        }
    }

    /// Goes past what follows ` put `.
    fn set(&mut self, alloc: Global, program: &Program) -> Result<Put, LineFault>
        requires { IsNamed program.now }
        ensures { IsPartRead (λ text put rest. BeginsSet program.now text put rest put.value)
            self.old.rest.now self.new.rest.now result }
    {
        let cell = self.cell(alloc, program)?;
        let name = self.text(alloc)?;
        self.expect(b" ")?;
        let value = self.value(alloc)?;
        Ok(Put {
            cell,
            name,
            value: Some(value),
        })
    }

    /// Goes past what follows ` cut `.
    fn removed(&mut self, alloc: Global, program: &Program) -> Result<Put, LineFault>
        requires { IsNamed program.now }
        ensures { IsPartRead (λ text put rest. BeginsRemoved program.now text put rest put.value)
            self.old.rest.now self.new.rest.now result }
    {
        let cell = self.cell(alloc, program)?;
        let name = self.text(alloc)?;
        Ok(Put {
            cell,
            name,
            value: None,
        })
    }

    /// Goes past a change of a cell, if there is one.
    fn put(&mut self, alloc: Global, program: &Program) -> Result<Option<Put>, LineFault>
        requires { IsNamed program.now }
        ensures { IsPutOrNone program.now self.old.rest.now self.new.rest.now result }
    {
        if self.skip(b" put ") {
            let put = self.set(alloc, program)?;
            return Ok(Some(put));
        }
        if self.skip(b" cut ") {
            let put = self.removed(alloc, program)?;
            return Ok(Some(put));
        }
        Ok(None)
    }

    /// Goes past changes of cells.
    fn puts(&mut self, alloc: Global, program: &Program) -> Result<List<Put>, LineFault>
        requires { IsNamed program.now }
        ensures { ArePutsRead program.now self.old.rest.now self.new.rest.now result }
    {
        let mut puts = List::new(alloc);
        'puts: while let Some(put) = self.put(alloc, program)? {
            puts.add(put)?;
        }
        Ok(puts)
    }
}

/// The bytes that a text up to the end spells.
fn read_emitted(alloc: Global, text: &[u8]) -> Result<Bytes, LineFault>
    ensures { IsWholeRead (IsEmitted text.now) result }
{
    let Some((bytes, length)) = read_text_within(alloc, text, EMISSION_LIMIT)? else {
        return Err(LineFault::BadLine);
    };
    if length != text.len() {
        return Err(LineFault::BadLine);
    }
    if bytes.as_bytes().is_empty() {
        return Err(LineFault::BadLine);
    }
    Ok(bytes)
}

/// The emission that is left.
fn read_emission(alloc: Global, text: &[u8]) -> Result<Bytes, LineFault>
    ensures { IsWholeRead (IsEmission text.now) result }
{
    if text.is_empty() {
        return Ok(Bytes::new(alloc));
    }
    match behind(b" emits ", text) {
        Some(text) => read_emitted(alloc, text),
        None => Err(LineFault::BadLine),
    }
}

/// The call that was read.
fn call_made(
    alloc: Global,
    node: NodeNo,
    args: List<Value>,
    answer: Answer,
) -> Result<CallMade, Memory>
    ensures { IfOk result (λ made. made ≡ record { node = node; args = args; answer = answer }) }
{
    let answer = SharedAnswer::new(alloc, answer)?;
    let args = Carried::new(alloc, args)?;
    Ok(CallMade { node, args, answer })
}

/// The call of a node, of what follows the node's name.
pub fn read_call(
    alloc: Global,
    program: &Program,
    node: NodeNo,
    text: &[u8],
) -> Result<CallMade, LineFault>
    requires { IsNamed program.now }
    ensures { IsWholeRead (IsCallAt program.now node text.now) result }
{
    let mut cursor = Cursor { rest: text };
    let args = cursor.values(alloc)?;
    cursor.expect(b" ")?;
    let result = cursor.result(alloc)?;
    let puts = cursor.puts(alloc, program)?;
    let emits = read_emission(alloc, cursor.rest)?;
    let answer = Answer {
        result,
        puts,
        emits,
    };
    Ok(call_made(alloc, node, args, answer)?)
}
