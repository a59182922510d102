//! Texts and their declarations.

ghost use Rattle.std.specs.Prelude.{◌≤◌, IfOk, IfErr};
ghost use Rattle.flux_syntax.specs.Counted.{words_of};
ghost use Rattle.flux_syntax.specs.Declares.{Declares};
ghost use Rattle.flux_syntax.specs.Unexpected.{IsRefusalOf, GivesDeclared, GivesRefusal};

use crate::declarations::Decl;
use crate::parsing::parse;
use flux_faults::CheckFault;
use flux_lexer::{PROGRAM_LIMIT, tokens};
use flux_values::List;
use std::alloc::Global;

/// The declarations of a text, or the least of the faults 1 to 4.
pub fn read(alloc: Global, text: &[u8]) -> Result<List<Decl>, CheckFault>
    // What is answered holds of the text,
    ensures declared { IfOk result (λ decls. Declares decls text.now) }
    ensures fault { IfErr result (IsRefusalOf text.now) }
    ensures few { IfOk result (λ decls. words_of decls ≤ PROGRAM_LIMIT) }
    // and what holds of the text is answered, unless memory is short.
    ensures decls { GivesDeclared text.now result }
    ensures stands { GivesRefusal text.now result }
{
    let tokens = tokens(alloc, text)?;
    parse(alloc, text, &tokens)
}
