//! The line of a verdict.

ghost use Rattle.std.specs.Prelude.{◌≡◌, ◌++◌, IfOk, OnOk, codes};
ghost use Rattle.flux_audit.specs.declared.verdicts.Verdict.TheVariants.{Yes, No};
ghost use Rattle.flux_audit.specs.Printed.{rule_name, printed_verdict};

use crate::verdicts::{Rule, Verdict};
use flux_spelling::append_number;
use flux_values::{Bytes, Memory};
use std::alloc::Global;

fn rule_name(rule: Rule) -> &'static [u8]
    ensures { result.now ≡ rule_name rule }
{
    match rule {
        Rule::Head => b"head",
        Rule::Text => b"text",
        Rule::Flow => b"flow",
        Rule::Path => b"path",
        Rule::Answer => b"answer",
        Rule::Hold => b"hold",
        Rule::Turn => b"turn",
        Rule::Wait => b"wait",
        Rule::Short => b"short",
    }
}

/// Adds the line of a yes at the end. After an `Err` a part of it may be there.
fn append_yes(alloc: Global, out: &mut Bytes, events: u64) -> Result<(), Memory>
    ensures { OnOk result (out.new ≡ out.old ++ printed_verdict (Yes events)) }
{
    out.append(b"ok ")?;
    append_number(alloc, out, events)?;
    out.append(b" events\n")
}

/// Adds the name of a rule and a line end. After an `Err` a part of it may be there.
fn append_rule(out: &mut Bytes, rule: Rule) -> Result<(), Memory>
    ensures { OnOk result (out.new ≡ out.old ++ rule_name rule ++ codes "\n") }
{
    out.append(rule_name(rule))?;
    out.append(b"\n")
}

/// Adds the line of a no at the end. After an `Err` a part of it may be there.
fn append_no(alloc: Global, out: &mut Bytes, line: u64, rule: Rule) -> Result<(), Memory>
    ensures { OnOk result (out.new ≡ out.old ++ printed_verdict (No line rule)) }
{
    out.append(b"line ")?;
    append_number(alloc, out, line)?;
    out.append(b": ")?;
    append_rule(out, rule)
}

fn append_verdict(alloc: Global, out: &mut Bytes, verdict: Verdict) -> Result<(), Memory>
    ensures { OnOk result (out.new ≡ out.old ++ printed_verdict verdict) }
{
    match verdict {
        Verdict::Yes { events } => append_yes(alloc, out, events),
        Verdict::No { line, rule } => append_no(alloc, out, line, rule),
    }
}

/// The line of a verdict: `ok 12 events`, or `line 3: turn`.
pub fn print_verdict(alloc: Global, verdict: Verdict) -> Result<Bytes, Memory>
    ensures { IfOk result (λ printed. printed ≡ printed_verdict verdict) }
{
    let mut out = Bytes::new(alloc);
    append_verdict(alloc, &mut out, verdict)?;
    Ok(out)
}
