//! What the nodes take and give that words of a text name.

ghost use Rattle.std.specs.Prelude.{◌≡◌, IfOk, OnOk, option_copied};
ghost use Rattle.flux_model.specs.Kinds.{sig_at};
ghost use Rattle.flux_syntax.specs.Words.{naming, and_name, names_of, names_after};
ghost use Rattle.flux_types.specs.Rows.{word_sig};

use flux_model::{NodeSig, TypeText};
use flux_syntax::{Decl, Names, Word};
use flux_values::Memory;
use std::alloc::Global;

/// The name of a node, where it is signed or has a flow.
fn naming(decl: &Decl) -> Option<&Word>
    ensures { option_copied result ≡ naming decl.now }
{
    match decl {
        Decl::Signature { name, .. } | Decl::Flow { name, .. } => Some(name),
        _ => None,
    }
}

fn add<'a>(names: &mut Names<'a>, word: Option<&'a Word>) -> Result<(), Memory>
    ensures { OnOk result (names.new ≡ and_name names.old (option_copied word.entry)) }
{
    match word {
        Some(word) => names.add(word.text.as_bytes()),
        None => Ok(()),
    }
}

/// The distinct names of nodes, in order of their first naming lines.
pub fn names_of<'a>(alloc: Global, decls: &'a [Decl]) -> Result<Names<'a>, Memory>
    ensures { IfOk result (λ names. names ≡ names_of decls.now) }
{
    let mut names = Names::new(alloc);
    for decl in decls {
        add(&mut names, naming(decl))?;
    }
    Ok(names)
}

/// What a node takes; nothing where it has no signature.
pub fn ins_of(sigs: &[NodeSig], node: usize) -> &[TypeText]
    ensures { let sig = sig_at sigs.now node in result.now ≡ sig.ins }
{
    match sigs.get(node) {
        Some(sig) => sig.ins.as_slice(),
        None => &[],
    }
}

/// What a node gives; nothing where it has no signature.
pub fn outs_of(sigs: &[NodeSig], node: usize) -> &[TypeText]
    ensures { let sig = sig_at sigs.now node in result.now ≡ sig.outs }
{
    match sigs.get(node) {
        Some(sig) => sig.outs.as_slice(),
        None => &[],
    }
}

/// Signatures by the names of their nodes.
#[derive(Drop)]
pub struct Signed<'n, 's> {
    pub names: Names<'n>,
    pub sigs: &'s [NodeSig],
}

impl<'n, 's> Signed<'n, 's> {
    /// What the node of a word takes; nothing where no node has that name.
    pub fn ins(&self, word: &Word) -> &'s [TypeText]
        ensures { let sig = word_sig self.now.names (sig_at self.now.sigs.now) word.now in
            result.now ≡ sig.ins }
    {
        ins_of(self.sigs, self.names.place(word.text.as_bytes()))
    }

    /// What the node of a word gives; nothing where no node has that name.
    pub fn outs(&self, word: &Word) -> &'s [TypeText]
        ensures { let sig = word_sig self.now.names (sig_at self.now.sigs.now) word.now in
            result.now ≡ sig.outs }
    {
        outs_of(self.sigs, self.names.place(word.text.as_bytes()))
    }
}
