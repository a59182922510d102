//! The formatted text of declarations.

ghost use Rattle.std.specs.Prelude.{◌≡◌, ◌++◌, ◌≤◌, OnOk, IfOk, codes, replicate, length};
ghost use Rattle.flux_syntax.specs.Again.{AreOfText, Gives};
ghost use Rattle.flux_syntax.specs.declared.declarations.Decl.TheVariants as decl;
ghost use Rattle.flux_syntax.specs.Formatted.{others, joined, param_text, params_text, pattern_text, patterns_text, word_text, codes_text, mode_text, scope_text, constraint_text, line_of, formatted};

use crate::declarations::{Constraint, Decl, Param, Word};
use flux_lexer::PROGRAM_LIMIT;
use flux_values::{Bytes, List, Memory, Mode};
use std::alloc::Global;

/// What has a text of its own.
trait Written {
    ghost use Rattle.std.specs.Prelude.{List, ℕ};

    ghost text: { Self → List ℕ };

    fn append_to(&self, out: &mut Bytes) -> Result<(), Memory>
        ensures { OnOk result (out.new ≡ out.old ++ text self.now) };
}

impl Written for Word {
    ghost text = { word_text };

    fn append_to(&self, out: &mut Bytes) -> Result<(), Memory> {
        out.append(self.text.as_bytes())
    }
}

impl Written for Param {
    ghost text = { param_text };

    fn append_to(&self, out: &mut Bytes) -> Result<(), Memory> {
        self.ty.append_to(out)?;
        append_stars(out, self.stars)?;
        out.append(b" ")?;
        self.name.append_to(out)
    }
}

fn append_stars(out: &mut Bytes, stars: u32) -> Result<(), Memory>
    ensures { OnOk result (out.new ≡ out.old ++ replicate stars 42) }
{
    for _ in 0..stars {
        out.append(b"*")?;
    }
    Ok(())
}

impl Written for Option<Word> {
    ghost text = { pattern_text };

    fn append_to(&self, out: &mut Bytes) -> Result<(), Memory> {
        match self {
            None => out.append(b"_"),
            Some(word) => word.append_to(out),
        }
    }
}

impl Written for Constraint {
    ghost text = { constraint_text };

    fn append_to(&self, out: &mut Bytes) -> Result<(), Memory> {
        self.name.append_to(out)?;
        append_mode(out, self.mode)?;
        append_scope(out, self.session)
    }
}

fn append_mode(out: &mut Bytes, mode: Mode) -> Result<(), Memory>
    ensures { OnOk result (out.new ≡ out.old ++ mode_text mode) }
{
    match mode {
        Mode::Reader => out.append(b"?"),
        Mode::Writer => Ok(()),
    }
}

fn append_scope(out: &mut Bytes, session: bool) -> Result<(), Memory>
    ensures { OnOk result (out.new ≡ out.old ++ scope_text session) }
{
    if session {
        out.append(b"(session)")
    } else {
        Ok(())
    }
}

fn append_others<T: Written>(out: &mut Bytes, between: &[u8], items: &[T]) -> Result<(), Memory>
    ensures { OnOk result (out.new ≡ out.old ++ others between.now T.text items.now) }
{
    for item in items {
        out.append(between)?;
        item.append_to(out)?;
    }
    Ok(())
}

fn append_joined<T: Written>(out: &mut Bytes, between: &[u8], items: &[T]) -> Result<(), Memory>
    ensures { OnOk result (out.new ≡ out.old ++ joined between.now T.text items.now) }
{
    match items {
        [] => Ok(()),
        [first, others @ ..] => {
            first.append_to(out)?;
            append_others(out, between, others)
        }
    }
}

fn append_params(out: &mut Bytes, params: &List<Param>) -> Result<(), Memory>
    ensures { OnOk result (out.new ≡ out.old ++ params_text params.now) }
{
    out.append(b"(")?;
    append_joined(out, b", ", params.as_slice())?;
    out.append(b")")
}

fn append_patterns(out: &mut Bytes, patterns: &Option<List<Option<Word>>>) -> Result<(), Memory>
    ensures { OnOk result (out.new ≡ out.old ++ patterns_text patterns.now) }
{
    match patterns {
        None => Ok(()),
        Some(patterns) => {
            out.append(b":[")?;
            append_joined(out, b", ", patterns.as_slice())?;
            out.append(b"]")
        }
    }
}

fn append_codes(out: &mut Bytes, codes: &List<Word>) -> Result<(), Memory>
    ensures { OnOk result (out.new ≡ out.old ++ codes_text codes.now) }
{
    match codes.as_slice() {
        [] => Ok(()),
        codes => {
            out.append(b":(")?;
            append_joined(out, b", ", codes)?;
            out.append(b")")
        }
    }
}

/// A line of two names.
fn append_pair(
    out: &mut Bytes,
    start: &[u8],
    first: &Word,
    middle: &[u8],
    second: &Word,
) -> Result<(), Memory>
    ensures { let end = middle.now ++ (second.now.text ++ codes ";\n") in
        OnOk result (out.new ≡ out.old ++ (start.now ++ (first.now.text ++ end))) }
{
    out.append(start)?;
    first.append_to(out)?;
    out.append(middle)?;
    second.append_to(out)?;
    out.append(b";\n")
}

fn append_signature(
    out: &mut Bytes,
    name: &Word,
    ins: &List<Param>,
    outs: &List<Param>,
) -> Result<(), Memory>
    ensures { let line = line_of (decl.Signature name.now ins.now outs.now) in
        OnOk result (out.new ≡ out.old ++ line) }
{
    name.append_to(out)?;
    out.append(b" ")?;
    append_params(out, ins)?;
    out.append(b" => ")?;
    append_params(out, outs)?;
    out.append(b";\n")
}

fn append_flow(
    out: &mut Bytes,
    name: &Word,
    patterns: &Option<List<Option<Word>>>,
    members: &List<Word>,
) -> Result<(), Memory>
    ensures { let line = line_of (decl.Flow name.now patterns.now members.now) in
        OnOk result (out.new ≡ out.old ++ line) }
{
    name.append_to(out)?;
    append_patterns(out, patterns)?;
    out.append(b" = ")?;
    append_joined(out, b" -> ", members.as_slice())?;
    out.append(b";\n")
}

fn append_handler(
    out: &mut Bytes,
    node: &Word,
    codes: &List<Word>,
    handler: &Word,
) -> Result<(), Memory>
    ensures { let line = line_of (decl.Handler node.now codes.now handler.now) in
        OnOk result (out.new ≡ out.old ++ line) }
{
    out.append(b"handle error ")?;
    node.append_to(out)?;
    append_codes(out, codes)?;
    out.append(b" => ")?;
    handler.append_to(out)?;
    out.append(b";\n")
}

fn append_atomic(out: &mut Bytes, node: &Word, constraints: &List<Constraint>) -> Result<(), Memory>
    ensures { let line = line_of (decl.Atomic node.now constraints.now) in
        OnOk result (out.new ≡ out.old ++ line) }
{
    out.append(b"atomic ")?;
    node.append_to(out)?;
    out.append(b":{")?;
    append_joined(out, b", ", constraints.as_slice())?;
    out.append(b"};\n")
}

fn append_line(out: &mut Bytes, decl: &Decl) -> Result<(), Memory>
    ensures { OnOk result (out.new ≡ out.old ++ line_of decl.now) }
{
    match decl {
        Decl::Signature { name, ins, outs } => append_signature(out, name, ins, outs),
        Decl::Flow {
            name,
            patterns,
            members,
        } => append_flow(out, name, patterns, members),
        Decl::Source { name, target } => append_pair(out, b"source ", name, b" => ", target),
        Decl::Typedef { name, function } => append_pair(out, b"typedef ", name, b" ", function),
        Decl::Handler {
            node,
            codes,
            handler,
        } => append_handler(out, node, codes, handler),
        Decl::Atomic { node, constraints } => append_atomic(out, node, constraints),
        Decl::Session { source, function } => append_pair(
            out,
            b"session ",
            source,
            b" => ",
            function,
        ),
    }
}

/// The formatted text: a line for each declaration. Comments and odd spacing are gone. Where it
/// isn't too long for a program, it is parsed to the same declarations apart from places, and
/// formatted it is the same text.
pub fn format(alloc: Global, decls: &List<Decl>) -> Result<Bytes, Memory>
    requires { AreOfText decls.now }
    ensures text { IfOk result (λ text. text ≡ formatted decls.now) }
    ensures again { IfOk result (λ text. length text ≤ PROGRAM_LIMIT → Gives decls.now text) }
{
    let mut out = Bytes::new(alloc);
    for decl in decls.as_slice() {
        append_line(&mut out, decl)?;
    }
    Ok(out)
}
