//! The names of commands and of options.

ghost use Rattle.std.specs.Prelude.{◌≡◌, ◌↔◌, ◌++◌, ℕ, List, IsTrue, IfSome, IfNone};
ghost use Rattle.flux_cli.specs.declared.names.CommandName.{CommandName};
ghost use Rattle.flux_cli.specs.declared.names.OptionName.{OptionName};
ghost use Rattle.flux_cli.specs.Names.{IsNamed};
ghost use Rattle.flux_cli.specs.Parts.{spelled};

/// A command, by the first word.
#[derive(Clone, Copy)]
pub enum CommandName {
    Check,
    Plan,
    Format,
    Run,
    Audit,
    Load,
    Serve,
    Help,
    Simulate,
    Swarm,
}

/// An option of the command line.
#[derive(Clone, Copy)]
pub enum OptionName {
    Runtime,
    Docs,
    Journal,
    Port,
    Batches,
    AtOnce,
    Processors,
    Costs,
}

/// Whether a word is this name.
fn is_name(word: &[u8], name: &[u8]) -> bool
    ensures { IsTrue result ↔ word.now ≡ name.now }
{
    word == name
}

/// The command that a first word names.
pub fn read_name(word: &[u8]) -> Option<CommandName>
    ensures found { IfSome result (λ name. IsNamed name word.now) }
    ensures none { IfNone result ((name : CommandName) → IsNamed name word.now → ⊥) }
{
    if is_name(word, b"check") {
        return Some(CommandName::Check);
    }
    if is_name(word, b"plan") {
        return Some(CommandName::Plan);
    }
    if is_name(word, b"format") {
        return Some(CommandName::Format);
    }
    if is_name(word, b"run") {
        return Some(CommandName::Run);
    }
    if is_name(word, b"audit") {
        return Some(CommandName::Audit);
    }
    if is_name(word, b"load") {
        return Some(CommandName::Load);
    }
    if is_name(word, b"serve") {
        return Some(CommandName::Serve);
    }
    if is_name(word, b"help") || is_name(word, b"--help") {
        return Some(CommandName::Help);
    }
    if is_name(word, b"simulate") {
        return Some(CommandName::Simulate);
    }
    if is_name(word, b"swarm") {
        return Some(CommandName::Swarm);
    }
    None
}

/// What follows a mark at the front.
pub fn strip<'a>(mark: &[u8], word: &'a [u8]) -> Option<&'a [u8]>
    ensures found { IfSome result (λ rest. word.now ≡ mark.now ++ rest.now) }
    ensures none { IfNone result ((rest : List ℕ) → word.now ≡ mark.now ++ rest → ⊥) }
{
    word.strip_prefix(mark)
}

/// The option that a word begins with, and what follows its name.
pub fn split_name(word: &[u8]) -> Option<(OptionName, &[u8])>
    ensures found { IfSome result (λ split. word.now ≡ spelled split.0 ++ split.1.now) }
    ensures none { IfNone result ((name : OptionName) (rest : List ℕ)
        → word.now ≡ spelled name ++ rest → ⊥) }
{
    if let Some(rest) = strip(b"--runtime", word) {
        return Some((OptionName::Runtime, rest));
    }
    if let Some(rest) = strip(b"--docs", word) {
        return Some((OptionName::Docs, rest));
    }
    if let Some(rest) = strip(b"--journal", word) {
        return Some((OptionName::Journal, rest));
    }
    if let Some(rest) = strip(b"--port", word) {
        return Some((OptionName::Port, rest));
    }
    if let Some(rest) = strip(b"--batches", word) {
        return Some((OptionName::Batches, rest));
    }
    if let Some(rest) = strip(b"--at-once", word) {
        return Some((OptionName::AtOnce, rest));
    }
    if let Some(rest) = strip(b"--processors", word) {
        return Some((OptionName::Processors, rest));
    }
    if let Some(rest) = strip(b"--costs", word) {
        return Some((OptionName::Costs, rest));
    }
    None
}
