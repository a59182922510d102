//! One line of a journal.

ghost use Rattle.std.specs.Prelude.{◌≡◌, ◌≢◌, ℕ, IfOk, IfSome, IfNone, Ok, Err};
ghost use Rattle.flux_values.specs.Answers.{IsOrMemory};
ghost use Rattle.flux_model.specs.declared.programs.NodeNo.{NodeNo};
ghost use Rattle.flow_model.specs.declared.journals.Outcome.{Outcome};
ghost use Rattle.flow_model.specs.declared.journals.Entry.{Entry};
ghost use Rattle.flux_model.specs.Names.{IsNamed};
ghost use Rattle.flux_model.specs.Numbered.{IsNumbered};
ghost use Rattle.flux_journal.specs.declared.faults.LineFault.TheVariants as faults;
ghost use Rattle.flux_journal.specs.declared.lines.Word.{Word};
ghost use Rattle.flux_journal.specs.Journals.{HasLineCause};
ghost use Rattle.flux_journal.specs.Spelled.{IsEventText, IsEntryLine};
ghost use Rattle.flux_journal.specs.steps.Named.{IsReady};
ghost use Rattle.flux_journal.specs.steps.Reading.{IsWholeRead};
ghost use Rattle.flux_journal.specs.steps.Events.{word_text, IsNodeText, IsExitRest, IsCallRest, IsPlainRead, IsRestRead};

use crate::calls::read_call;
use crate::cuts::{cut, read_number};
use crate::faults::LineFault;
use crate::keys::{read_hold, read_key};
use crate::names::{find_node, names_of};
use crate::outcomes::{read_end, read_exit};
use flow_model::{CallMade, Entry, Event, KeptKey, Outcome};
use flux_model::{FlowNo, Names, NodeNo, Program};
use flux_values::Memory;
use std::alloc::Global;
use std::marker::Model;

/// The word that an event's text begins with.
#[derive(Clone, Copy)]
enum Word {
    Take,
    Wait,
    Enter,
    Choose,
    Call,
    Exit,
    Drop,
    End,
}

fn read_word(bytes: &[u8]) -> Option<Word>
    ensures found { IfSome result (λ word. bytes.now ≡ word_text word) }
    ensures none { IfNone result ((word : Word) → bytes.now ≡ word_text word → ⊥) }
{
    if bytes == b"take".as_slice() {
        Some(Word::Take)
    } else if bytes == b"wait".as_slice() {
        Some(Word::Wait)
    } else if bytes == b"enter".as_slice() {
        Some(Word::Enter)
    } else if bytes == b"choose".as_slice() {
        Some(Word::Choose)
    } else if bytes == b"call".as_slice() {
        Some(Word::Call)
    } else if bytes == b"exit".as_slice() {
        Some(Word::Exit)
    } else if bytes == b"drop".as_slice() {
        Some(Word::Drop)
    } else if bytes == b"end".as_slice() {
        Some(Word::End)
    } else {
        None
    }
}

/// A program with its nodes' names, by which its lines are read.
#[derive(Drop)]
pub struct Reader<'a> {
    alloc: Global,
    program: &'a Program,
    names: Names<'a>,
}

impl<'a> Reader<'a> {
    pub fn new(alloc: Global, program: &'a Program) -> Result<Reader<'a>, Memory>
        requires numbered { IsNumbered program.now }
        requires named { IsNamed program.now }
        ensures same { IfOk result (λ reader. reader.program.now ≡ program.now) }
        ensures ready { IfOk result (λ reader. IsReady program.now reader.names) }
    {
        let names = names_of(alloc, program.nodes.as_slice())?;
        Ok(Reader {
            alloc,
            program,
            names,
        })
    }

    /// The node of a name.
    fn node(&self, name: &[u8]) -> Option<NodeNo>
        requires { IsReady self.now.program.now self.now.names }
        ensures found { IfSome result (IsNodeText self.now.program.now name.now) }
        ensures none { IfNone result ((node : NodeNo) → IsNodeText self.now.program.now name.now node
            → ⊥) }
    {
        find_node(&self.names, name)
    }

    /// The node and the outcome of an exit.
    fn exit(&self, text: &[u8]) -> Option<(NodeNo, Outcome)>
        requires { IsReady self.now.program.now self.now.names }
        ensures found { IfSome result (λ exit. IsExitRest self.now.program.now text.now exit.0 exit.1) }
        ensures none { IfNone result ((node : NodeNo) (outcome : Outcome)
            → IsExitRest self.now.program.now text.now node outcome → ⊥) }
    {
        let (name, outcome) = cut(b' ', text)?;
        let node = self.node(name)?;
        let outcome = read_exit(outcome)?;
        Some((node, outcome))
    }

    /// The event of a word and what follows it, unless it is a call.
    fn plain(&self, word: Word, text: &[u8]) -> Option<Event>
        requires ready { IsReady self.now.program.now self.now.names }
        requires plain { word ≢ Word.Call }
        ensures { IsPlainRead self.now.program.now word text.now result }
    {
        match word {
            Word::Take => {
                let (key, mode) = read_hold(self.program, text)?;
                Some(Event::Take(KeptKey::new(key), mode))
            }
            Word::Wait => {
                let (key, mode) = read_hold(self.program, text)?;
                Some(Event::Wait(KeptKey::new(key), mode))
            }
            Word::Enter => Some(Event::Enter(self.node(text)?)),
            Word::Choose => {
                let place = read_number(text, u64::from(u32::MAX))?;
                Some(Event::Choose(place as u32))
            }
            Word::Call => unreachable!(),
            Word::Exit => {
                let (node, outcome) = self.exit(text)?;
                Some(Event::Exit(node, outcome))
            }
            Word::Drop => {
                let key = read_key(self.program, text)?;
                Some(Event::Drop(KeptKey::new(key)))
            }
            Word::End => Some(Event::End(read_end(text)?)),
        }
    }

    fn call(&self, text: &[u8]) -> Result<CallMade, LineFault>
        requires { IsReady self.now.program.now self.now.names }
        ensures { IsWholeRead (IsCallRest self.now.program.now text.now) result }
    {
        let Some((name, text)) = cut(b' ', text) else {
            return Err(LineFault::BadLine);
        };
        match self.node(name) {
            Some(node) => read_call(self.alloc, self.program, node, text),
            None => Err(LineFault::BadLine),
        }
    }

    /// The event of a word and what follows it.
    fn behind_word(&self, word: Word, text: &[u8]) -> Result<Event, LineFault>
        requires { IsReady self.now.program.now self.now.names }
        ensures { IsRestRead self.now.program.now word text.now result }
    {
        if let Word::Call = word {
            let made = self.call(text)?;
            return Ok(Event::Call(made));
        }
        match self.plain(word, text) {
            Some(event) => Ok(event),
            None => Err(LineFault::BadLine),
        }
    }

    fn event(&self, text: &[u8]) -> Result<Event, LineFault>
        requires { IsReady self.now.program.now self.now.names }
        ensures { IsWholeRead (IsEventText self.now.program.now text.now) result }
    {
        let Some((word, rest)) = cut(b' ', text) else {
            return Err(LineFault::BadLine);
        };
        match read_word(word) {
            Some(word) => self.behind_word(word, rest),
            None => Err(LineFault::BadLine),
        }
    }

    /// The entry of a line.
    pub fn entry(&self, line: &[u8]) -> Result<Entry, LineFault>
        requires { IsReady self.now.program.now self.now.names }
        ensures { HasLineCause self.now.program.now line.now result }
    {
        let Some((number, text)) = cut(b' ', line) else {
            return Err(LineFault::BadLine);
        };
        let Some(flow) = read_number(number, u64::from(u32::MAX)) else {
            return Err(LineFault::BadLine);
        };
        let event = self.event(text)?;
        Ok(Entry {
            flow: FlowNo(flow as u32),
            event,
        })
    }
}

/// The entry that a line of a program's journal spells. The line comes without its LF.
///
/// A line is the printed line of an entry, with values and texts in any spelling that `read_value` takes.
pub fn read_line(alloc: Global, program: &Program, line: &[u8]) -> Result<Entry, LineFault>
    requires numbered { IsNumbered program.now }
    requires named { IsNamed program.now }
    // Each answer has its cause.
    ensures cause { HasLineCause program.now line.now result }
    // Each cause has its answer, but for want of memory.
    ensures entry { (entry : Entry) → IsEntryLine program.now line.now entry
        → IsOrMemory faults.Memory (Ok entry) result }
    ensures bad { ((entry : Entry) → IsEntryLine program.now line.now entry → ⊥)
        → IsOrMemory faults.Memory (Err faults.BadLine) result }
{
    LineReader::new(alloc, program)?.read_line(line)
}

/// What the lines of a program's journal are read by, one after the other. It is made once for a journal, since it has the
/// program's names by hash. Contracts see it as the program.
pub struct LineReader<'a> {
    reader: Reader<'a>,
}

impl<'a> Drop for LineReader<'a> {
    fn drop(self) {
        let LineReader { reader } = self;
    }
}

impl<'a> Model for LineReader<'a> {
    ghost use Rattle.flux_model.specs.declared.programs.Program.{Program};
    ghost use Rattle.flux_model.specs.contracts.programs.Program as program;

    ghost Value = { Program };

    ghost coded = { program.the_row.coded };

    ghost use Rattle.flux_model.specs.Names.{IsNamed};
    ghost use Rattle.flux_journal.specs.steps.Named.{IsReady};

    ghost view = { λ r. r.reader.program.now };

    ghost invariant = { λ r. IsReady r.reader.program.now r.reader.names };
}

impl<'a> LineReader<'a> {
    pub fn new(alloc: Global, program: &'a Program) -> Result<LineReader<'a>, Memory>
        requires numbered { IsNumbered program.now }
        requires named { IsNamed program.now }
        ensures { IfOk result (λ reader. reader ≡ program.now) }
    {
        Ok(LineReader {
            reader: Reader::new(alloc, program)?,
        })
    }

    /// The entry that a line spells. The line comes without its LF.
    pub fn read_line(&self, line: &[u8]) -> Result<Entry, LineFault>
        // Each answer has its cause.
        ensures cause { HasLineCause self.now line.now result }
        // Each cause has its answer, but for want of memory.
        ensures entry { (entry : Entry) → IsEntryLine self.now line.now entry
            → IsOrMemory faults.Memory (Ok entry) result }
        ensures bad { ((entry : Entry) → IsEntryLine self.now line.now entry → ⊥)
            → IsOrMemory faults.Memory (Err faults.BadLine) result }
    {
        self.reader.entry(line)
    }
}
