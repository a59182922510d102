//! Declarations, by recursive descent.

ghost use Rattle.std.specs.Prelude.{◌≡◌, ◌≤◌, ◌<◌, ◌-◌, drop, OnOk, IfOk, IfErr, length};
ghost use Rattle.flux_faults.specs.Faults.{IsPlacedIn};
ghost use Rattle.flux_lexer.specs.Texts.{AreTokensOf};
ghost use Rattle.flux_syntax.specs.Counted.{words_of};
ghost use Rattle.flux_syntax.specs.Declares.{Spell, HasOneReading};
ghost use Rattle.flux_syntax.specs.Unexpected.{IsFaultOf, GivesDecls, GivesUnexpected};
ghost use Rattle.flux_syntax.specs.steps.Reading.{place_at, Reads, got, param_at, pattern_at, constraint_at, name_at, number_at, mode_at, mark_after, scope_at, stars_at, params_at, cases_at, members_at, signature_at, flow_at, named_at, source_at, typedef_at, codes_at, handler_at, atomic_at, session_at, declaration_at, program_at};

use crate::cursors::{Cursor, Stop};
use crate::declarations::{Constraint, Decl, Param, Word};
use crate::lists::{Reader, list};
use flux_faults::{CheckFault, FaultKind, StaticFault};
use flux_lexer::{PROGRAM_LIMIT, Token, TokenKind};
use flux_values::{List, Memory, Mode};
use std::alloc::Global;

/// `param = IDENT { "*" } IDENT`
struct ParamReader;

impl Reader<Param> for ParamReader {
    ghost read = { param_at };

    fn read(cursor: &mut Cursor) -> Result<Param, Stop> {
        Ok(Param {
            ty: cursor.name()?,
            stars: stars(cursor),
            name: cursor.name()?,
        })
    }
}

fn stars(cursor: &mut Cursor) -> u32
    ensures read { stars_at cursor.old ≡ got result cursor.new }
    ensures shorter { length cursor.new ≤ length cursor.old }
{
    let mut stars = 0;
    while cursor.takes(TokenKind::Star) {
        stars += 1;
    }
    stars
}

/// `pattern = "_" | IDENT`
struct PatternReader;

impl Reader<Option<Word>> for PatternReader {
    ghost read = { pattern_at };

    fn read(cursor: &mut Cursor) -> Result<Option<Word>, Stop> {
        if cursor.takes(TokenKind::Wildcard) {
            Ok(None)
        } else {
            Ok(Some(cursor.name()?))
        }
    }
}

/// A member of a flow is a name.
struct MemberReader;

impl Reader<Word> for MemberReader {
    ghost read = { name_at };

    fn read(cursor: &mut Cursor) -> Result<Word, Stop> {
        cursor.name()
    }
}

/// A code is a number.
struct CodeReader;

impl Reader<Word> for CodeReader {
    ghost read = { number_at };

    fn read(cursor: &mut Cursor) -> Result<Word, Stop> {
        cursor.number()
    }
}

/// `constraint = IDENT [ mark ] [ scope ] | IDENT scope mark`
struct ConstraintReader;

impl Reader<Constraint> for ConstraintReader {
    ghost read = { constraint_at };

    fn read(cursor: &mut Cursor) -> Result<Constraint, Stop> {
        let name = cursor.name()?;
        if let Some(mode) = mode(cursor) {
            let session = scope(cursor)?;
            return Ok(Constraint {
                name,
                mode,
                session,
            });
        }
        let session = scope(cursor)?;
        Ok(Constraint {
            name,
            mode: mode_after(cursor, session).unwrap_or(Mode::Writer),
            session,
        })
    }
}

/// A mark may follow a scope.
fn mode_after(cursor: &mut Cursor, session: bool) -> Option<Mode>
    ensures read { mark_after session cursor.old ≡ got result cursor.new }
    ensures shorter { length cursor.new ≤ length cursor.old }
{
    if session { mode(cursor) } else { None }
}

/// `mark = "?" | "!"`
fn mode(cursor: &mut Cursor) -> Option<Mode>
    ensures read { mode_at cursor.old ≡ got result cursor.new }
    ensures shorter { length cursor.new ≤ length cursor.old }
{
    if cursor.takes(TokenKind::Question) {
        Some(Mode::Reader)
    } else if cursor.takes(TokenKind::Bang) {
        Some(Mode::Writer)
    } else {
        None
    }
}

/// Whether `scope = "(" "session" ")"` is next.
fn scope(cursor: &mut Cursor) -> Result<bool, Stop>
    ensures read { Reads result cursor.new (scope_at cursor.old) }
    ensures shorter { OnOk result (length cursor.new ≤ length cursor.old) }
{
    if cursor.takes(TokenKind::OpenParen) {
        cursor.mark(TokenKind::Session)?;
        cursor.mark(TokenKind::CloseParen)?;
        Ok(true)
    } else {
        Ok(false)
    }
}

/// `"(" [ params ] ")"`
fn params(cursor: &mut Cursor) -> Result<List<Param>, Stop>
    ensures read { Reads result cursor.new (params_at cursor.old) }
    ensures shorter { OnOk result (length cursor.new ≤ length cursor.old) }
{
    cursor.mark(TokenKind::OpenParen)?;
    let params = if cursor.is_next(TokenKind::Identifier) {
        list::<Param, ParamReader>(cursor, TokenKind::Comma)?
    } else {
        List::new(cursor.alloc())
    };
    cursor.mark(TokenKind::CloseParen)?;
    Ok(params)
}

/// What follows the name of a signature.
fn signature(cursor: &mut Cursor, name: Word) -> Result<Decl, Stop>
    ensures read { Reads result cursor.new (signature_at name cursor.old) }
    ensures shorter { OnOk result (length cursor.new ≤ length cursor.old) }
{
    let ins = params(cursor)?;
    cursor.mark(TokenKind::Arrow)?;
    let outs = params(cursor)?;
    cursor.mark(TokenKind::Semicolon)?;
    Ok(Decl::Signature { name, ins, outs })
}

/// `[ ":" "[" pattern { "," pattern } "]" ]`
fn patterns(cursor: &mut Cursor) -> Result<Option<List<Option<Word>>>, Stop>
    ensures read { Reads result cursor.new (cases_at cursor.old) }
    ensures shorter { OnOk result (length cursor.new ≤ length cursor.old) }
{
    if !cursor.takes(TokenKind::Colon) {
        return Ok(None);
    }
    cursor.mark(TokenKind::OpenBracket)?;
    let patterns = list::<Option<Word>, PatternReader>(cursor, TokenKind::Comma)?;
    cursor.mark(TokenKind::CloseBracket)?;
    Ok(Some(patterns))
}

/// `[ IDENT { "->" IDENT } ]`
fn members(cursor: &mut Cursor) -> Result<List<Word>, Stop>
    ensures read { Reads result cursor.new (members_at cursor.old) }
    ensures shorter { OnOk result (length cursor.new ≤ length cursor.old) }
{
    if cursor.is_next(TokenKind::Identifier) {
        list::<Word, MemberReader>(cursor, TokenKind::ThinArrow)
    } else {
        Ok(List::new(cursor.alloc()))
    }
}

/// What follows the name of a flow.
fn flow(cursor: &mut Cursor, name: Word) -> Result<Decl, Stop>
    ensures read { Reads result cursor.new (flow_at name cursor.old) }
    ensures shorter { OnOk result (length cursor.new ≤ length cursor.old) }
{
    let patterns = patterns(cursor)?;
    cursor.mark(TokenKind::Equals)?;
    let members = members(cursor)?;
    cursor.mark(TokenKind::Semicolon)?;
    Ok(Decl::Flow {
        name,
        patterns,
        members,
    })
}

/// A signature or a flow.
fn named(cursor: &mut Cursor) -> Result<Decl, Stop>
    ensures read { Reads result cursor.new (named_at cursor.old) }
    ensures shorter { OnOk result (length cursor.new < length cursor.old) }
{
    let name = cursor.name()?;
    if cursor.is_next(TokenKind::OpenParen) {
        signature(cursor, name)
    } else {
        flow(cursor, name)
    }
}

/// `source = "source" IDENT "=>" IDENT ";"`
fn source(cursor: &mut Cursor) -> Result<Decl, Stop>
    ensures read { Reads result cursor.new (source_at cursor.old) }
    ensures shorter { OnOk result (length cursor.new < length cursor.old) }
{
    cursor.mark(TokenKind::Source)?;
    let name = cursor.name()?;
    cursor.mark(TokenKind::Arrow)?;
    let target = cursor.name()?;
    cursor.mark(TokenKind::Semicolon)?;
    Ok(Decl::Source { name, target })
}

/// `typedef = "typedef" IDENT IDENT ";"`
fn typedef(cursor: &mut Cursor) -> Result<Decl, Stop>
    ensures read { Reads result cursor.new (typedef_at cursor.old) }
    ensures shorter { OnOk result (length cursor.new < length cursor.old) }
{
    cursor.mark(TokenKind::Typedef)?;
    let name = cursor.name()?;
    let function = cursor.name()?;
    cursor.mark(TokenKind::Semicolon)?;
    Ok(Decl::Typedef { name, function })
}

/// `[ ":" "(" NUMBER { "," NUMBER } ")" ]`
fn codes(cursor: &mut Cursor) -> Result<List<Word>, Stop>
    ensures read { Reads result cursor.new (codes_at cursor.old) }
    ensures shorter { OnOk result (length cursor.new ≤ length cursor.old) }
{
    if !cursor.takes(TokenKind::Colon) {
        return Ok(List::new(cursor.alloc()));
    }
    cursor.mark(TokenKind::OpenParen)?;
    let codes = list::<Word, CodeReader>(cursor, TokenKind::Comma)?;
    cursor.mark(TokenKind::CloseParen)?;
    Ok(codes)
}

/// `handler = "handle" "error" IDENT codes "=>" IDENT ";"`
fn handler(cursor: &mut Cursor) -> Result<Decl, Stop>
    ensures read { Reads result cursor.new (handler_at cursor.old) }
    ensures shorter { OnOk result (length cursor.new < length cursor.old) }
{
    cursor.mark(TokenKind::Handle)?;
    cursor.mark(TokenKind::Error)?;
    let node = cursor.name()?;
    let codes = codes(cursor)?;
    cursor.mark(TokenKind::Arrow)?;
    let handler = cursor.name()?;
    cursor.mark(TokenKind::Semicolon)?;
    Ok(Decl::Handler {
        node,
        codes,
        handler,
    })
}

/// `atomic = "atomic" IDENT ":" "{" constraint { "," constraint } "}" ";"`
fn atomic(cursor: &mut Cursor) -> Result<Decl, Stop>
    ensures read { Reads result cursor.new (atomic_at cursor.old) }
    ensures shorter { OnOk result (length cursor.new < length cursor.old) }
{
    cursor.mark(TokenKind::Atomic)?;
    let node = cursor.name()?;
    cursor.mark(TokenKind::Colon)?;
    cursor.mark(TokenKind::OpenBrace)?;
    let constraints = list::<Constraint, ConstraintReader>(cursor, TokenKind::Comma)?;
    cursor.mark(TokenKind::CloseBrace)?;
    cursor.mark(TokenKind::Semicolon)?;
    Ok(Decl::Atomic { node, constraints })
}

/// `session = "session" IDENT "=>" IDENT ";"`
fn session(cursor: &mut Cursor) -> Result<Decl, Stop>
    ensures read { Reads result cursor.new (session_at cursor.old) }
    ensures shorter { OnOk result (length cursor.new < length cursor.old) }
{
    cursor.mark(TokenKind::Session)?;
    let source = cursor.name()?;
    cursor.mark(TokenKind::Arrow)?;
    let function = cursor.name()?;
    cursor.mark(TokenKind::Semicolon)?;
    Ok(Decl::Session { source, function })
}

/// `declaration = signature | flow | source | typedef | handler | atomic | session`
fn declaration(cursor: &mut Cursor) -> Result<Decl, Stop>
    ensures read { Reads result cursor.new (declaration_at cursor.old) }
    ensures shorter { OnOk result (length cursor.new < length cursor.old) }
{
    match cursor.kind() {
        Some(TokenKind::Identifier) => named(cursor),
        Some(TokenKind::Source) => source(cursor),
        Some(TokenKind::Typedef) => typedef(cursor),
        Some(TokenKind::Handle) => handler(cursor),
        Some(TokenKind::Atomic) => atomic(cursor),
        Some(TokenKind::Session) => session(cursor),
        _ => Err(Stop::Unexpected),
    }
}

/// Declarations up to the end.
fn declarations(cursor: &mut Cursor) -> Result<List<Decl>, Stop>
    ensures { Reads result cursor.new (program_at cursor.old) }
{
    let mut decls = List::new(cursor.alloc());
    while cursor.len() > 0 {
        let decl = declaration(cursor)?;
        if decls.push(decl).is_err() {
            Err(Memory)?;
        }
    }
    Ok(decls)
}

/// The place of the first of so many last tokens, or the end of the text.
fn place(text: &[u8], tokens: &[Token], left: usize) -> u32
    requires few { length text.now ≤ PROGRAM_LIMIT }
    requires some { left ≤ length tokens.now }
    ensures { result ≡ place_at (length text.now) (drop (length tokens.now - left) tokens.now) }
{
    match tokens.get(tokens.len() - left) {
        Some(token) => token.start,
        None => text.len() as u32,
    }
}

/// The declarations that the tokens spell; or `Unexpected`, at the first token such that no program
/// begins with those up to it, or at the end of the text.
pub fn parse(alloc: Global, text: &[u8], tokens: &List<Token>) -> Result<List<Decl>, CheckFault>
    requires { AreTokensOf tokens.now text.now }
    // What is answered holds of the tokens,
    ensures parsed { IfOk result (Spell text.now tokens.now) }
    ensures few { IfOk result (λ decls. words_of decls ≤ PROGRAM_LIMIT) }
    ensures fault { IfErr result (IsFaultOf text.now tokens.now) }
    ensures placed { IfErr result (IsPlacedIn text.now) }
    // and what holds of them is answered, unless memory is short.
    ensures decls { GivesDecls text.now tokens.now result }
    ensures stands { GivesUnexpected text.now tokens.now result }
    // The grammar is unambiguous.
    ensures one { HasOneReading text.now tokens.now }
{
    let mut cursor = Cursor::new(alloc, text, tokens.as_slice());
    match declarations(&mut cursor) {
        Ok(decls) => Ok(decls),
        Err(Stop::Memory) => Err(CheckFault::Memory),
        Err(Stop::Unexpected) => Err(CheckFault::Static(StaticFault {
            kind: FaultKind::Unexpected,
            at: place(text, tokens.as_slice(), cursor.len()),
            path: List::new(alloc),
        })),
    }
}
