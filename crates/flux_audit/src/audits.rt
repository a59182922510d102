//! The audit of a text.

ghost use Rattle.std.specs.Prelude.{◌≡◌, ℕ, [], IfOk, length};
ghost use Rattle.std.specs.Arc.{arc_value};
ghost use Rattle.flow_model.specs.declared.journals.Journal.{Journal};
ghost use Rattle.flux_model.specs.Names.{IsNamed};
ghost use Rattle.flux_model.specs.Numbered.{IsNumbered};
ghost use Rattle.flow_state.specs.States.{setup_of, setup_by, setup_at, MayRun};
ghost use Rattle.flux_audit.specs.declared.verdicts.Rule.{Rule};
ghost use Rattle.flux_audit.specs.declared.verdicts.Verdict.TheVariants.{Yes, No};
ghost use Rattle.flux_audit.specs.Verdicts.{IsTrueText, IsFirstBroken, HasVerdict};

use crate::entries::check_line;
use crate::heads::open;
use crate::verdicts::{Rule, Verdict};
use flow_state::{Setup, State};
use flux_journal::LineReader;
use flux_library::Library;
use flux_model::Program;
use flux_values::Memory;
use std::alloc::Global;
use std::sync::Arc;

/// Goes through the lines of a text, which lead a state on that has made no entry.
fn judge_lines<L: Library>(
    reader: &LineReader<'_>,
    state: &mut State<L>,
    journal: &[u8],
) -> Result<Verdict, Memory>
    requires fresh { state.old.entries ≡ [] }
    requires same { reader.now ≡ state.old.setup.program }
    requires named { IsNamed reader.now }
    ensures { IfOk result (HasVerdict (setup_at L.meaning state.old) journal.now) }
{
    let Some(opened) = open(journal, state.flows()) else {
        return Ok(Verdict::No {
            line: 1,
            rule: Rule::Head,
        });
    };
    let first = opened.first;
    let mut lines = opened.lines;
    let mut number = first;
    state.keep();
    'lines: while let Some(line) = lines.next_line() {
        if let Some(rule) = check_line(reader, state, line)? {
            return Ok(Verdict::No { line: number, rule });
        }
        state.keep();
        number += 1;
    }
    if state.live() > 0 {
        return Ok(Verdict::No {
            line: number,
            rule: Rule::Short,
        });
    }
    Ok(Verdict::Yes {
        events: number - first,
    })
}

/// Reads the lines by a program's names, and goes through them.
fn judge_by<L: Library>(
    alloc: Global,
    program: &Program,
    state: &mut State<L>,
    journal: &[u8],
) -> Result<Verdict, Memory>
    requires fresh { state.old.entries ≡ [] }
    requires same { program.now ≡ state.old.setup.program }
    requires numbered { IsNumbered program.now }
    requires named { IsNamed program.now }
    ensures { IfOk result (HasVerdict (setup_at L.meaning state.old) journal.now) }
{
    let reader = LineReader::new(alloc, program)?;
    judge_lines(&reader, state, journal)
}

/// Opens a setup, and goes through the lines.
fn judge<L: Library>(alloc: Global, setup: Setup<L>, journal: &[u8]) -> Result<Verdict, Memory>
    requires run { MayRun (L.meaning (arc_value setup.library)) (arc_value setup.program)
        (arc_value setup.plans) setup.items }
    requires named { IsNamed (arc_value setup.program) }
    ensures { IfOk result (HasVerdict (setup_by L.meaning (setup_of setup)) journal.now) }
{
    let program = Arc::try_clone(&setup.program)?;
    let mut state = State::new(alloc, setup)?;
    judge_by(alloc, &program, &mut state, journal)
}

/// Whether a text is the journal of a true run of a setup.
///
/// `Yes` comes exactly where the text reads as a legal and whole journal of the setup's program, items, opening cells and
/// library, with the number of its events. A text of format 2 must have its head line, with the number of the items. Else
/// `No` has the first line that breaks a rule, counted from 1 and from the head line, and the first of its rules.
pub fn audit<L: Library>(alloc: Global, setup: Setup<L>, journal: &[u8]) -> Result<Verdict, Memory>
    requires run { MayRun (L.meaning (arc_value setup.library)) (arc_value setup.program)
        (arc_value setup.plans) setup.items }
    requires named { IsNamed (arc_value setup.program) }
    // Each verdict has its cause.
    ensures cause { IfOk result (HasVerdict (setup_by L.meaning (setup_of setup)) journal.now) }
    // Each cause has its verdict, but for want of memory.
    ensures yes { (own : Journal) → IsTrueText (setup_by L.meaning (setup_of setup)) journal.now own
        → IfOk result (λ verdict. verdict ≡ Yes (length own.entries)) }
    ensures no { (line : ℕ) (rule : Rule)
        → IsFirstBroken (setup_by L.meaning (setup_of setup)) journal.now line rule
        → IfOk result (λ verdict. verdict ≡ No line rule) }
{
    judge(alloc, setup, journal)
}
