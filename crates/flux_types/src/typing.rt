//! The signatures of a program, and whether its flows and sources fit.

ghost use Rattle.std.specs.Prelude.{◌≡◌, IfOk, IfErr, OnOk, None};
ghost use Rattle.flux_model.specs.Ordering.{IsOrder};
ghost use Rattle.flux_syntax.specs.Least.{first_fault, IsLeastFault};
ghost use Rattle.flux_syntax.specs.ProgramOfText.{named_of};
ghost use Rattle.flux_types.specs.Signatures.{AreSigs};
ghost use Rattle.flux_syntax.specs.Words.{names_of};
ghost use Rattle.flux_types.specs.Rows.{sigs_of, predicates_of, flow_rows, sig_rows, source_rows};
ghost use Rattle.flux_types.specs.Typing.{AreTyped};

use crate::flows::{FlowPlaces, hollow_places};
use crate::predicates::Predicates;
use crate::signatures::fill;
use crate::sources::{session_places, target_places};
use crate::words::{Signed, names_of};
use flux_faults::{CheckFault, FaultKind};
use flux_graph::Order;
use flux_library::Library;
use flux_model::{Named, NodeSig, Sigs};
use flux_syntax::{Decl, Names, fault_at, fault_or};
use flux_values::{List, Memory};
use std::alloc::Global;

/// A fault and its place.
type Fault = Option<(FaultKind, u32)>;

/// The least of the rows 17 to 20.
fn flows<L: Library>(
    alloc: Global,
    library: &L,
    names: Names,
    sigs: &[NodeSig],
    decls: &[Decl],
) -> Result<Fault, Memory>
    requires names { names ≡ names_of decls.now }
    requires sigs { AreSigs (L.meaning library.now).kind decls.now sigs.now }
    ensures { IfOk result (λ fault. fault ≡ first_fault
        (flow_rows (sigs_of (L.meaning library.now) decls.now)
        (predicates_of (L.meaning library.now) decls.now) decls.now)) }
{
    let predicates = Predicates::of(alloc, library, decls)?;
    let signed = Signed { names, sigs };
    Ok(FlowPlaces::of(&signed, &predicates, decls).fault())
}

/// The signature of each node, and the least of the rows 16 to 20.
fn typed<L: Library>(
    alloc: Global,
    decls: &[Decl],
    named: &Named,
    order: &Order,
    library: &L,
) -> Result<(List<NodeSig>, Fault), Memory>
    requires named { named.now ≡ named_of decls.now }
    requires ordered { IsOrder named.now.program.nodes order.now.nodes }
    ensures { IfOk result (λ typed. (AreSigs (L.meaning library.now).kind decls.now typed.0)
        × (typed.1 ≡ first_fault (sig_rows (L.meaning library.now) decls.now))) }
{
    let names = names_of(alloc, decls)?;
    let nodes = named.program.nodes.as_slice();
    let sigs = fill(alloc, library, &names, decls, nodes, order.nodes.as_slice())?;
    let fault = flows(alloc, library, names, sigs.as_slice(), decls)?;
    let hollow = hollow_places(nodes, named.sites.nodes.as_slice());
    Ok((sigs, fault_or(FaultKind::NoSignature, hollow, fault)))
}

/// The signature of each node, or the least of the faults 16 to 20. The program is that of the
/// declarations, and the order lists each of its nodes after all that it leads to.
pub fn sigs<L: Library>(
    alloc: Global,
    decls: &List<Decl>,
    named: &Named,
    order: &Order,
    library: &L,
) -> Result<Sigs, CheckFault>
    requires named { named.now ≡ named_of decls.now }
    requires ordered { IsOrder named.now.program.nodes order.now.nodes }
    ensures typed { IfOk result (λ sigs. AreTyped (L.meaning library.now) decls.now sigs.nodes) }
    ensures fault { IfErr result
        (IsLeastFault (first_fault (sig_rows (L.meaning library.now) decls.now))) }
{
    let (nodes, fault) = typed(alloc, decls.as_slice(), named, order, library)?;
    match fault {
        Some((kind, at)) => Err(fault_at(alloc, kind, at)),
        None => Ok(Sigs { nodes }),
    }
}

/// The least of the rows 22 and 23.
fn sources<L: Library>(
    alloc: Global,
    decls: &[Decl],
    named: &Named,
    sigs: &[NodeSig],
    library: &L,
) -> Result<Fault, Memory>
    requires named { named.now ≡ named_of decls.now }
    requires sigs { AreSigs (L.meaning library.now).kind decls.now sigs.now }
    ensures { IfOk result
        (λ fault. fault ≡ first_fault (source_rows (L.meaning library.now) decls.now)) }
{
    let names = names_of(alloc, decls)?;
    let signed = Signed { names, sigs };
    let sessions = session_places(alloc, library, &signed, decls)?;
    let lines = named.program.sources.as_slice();
    let targets = target_places(sigs, lines, named.sites.targets.as_slice());
    let fault = fault_or(FaultKind::SessionTypes, sessions, None);
    Ok(fault_or(FaultKind::SourceTypes, targets, fault))
}

/// The least of the faults 22 and 23: a source gives what its target or its session function
/// doesn't take. The program and the signatures are those of the declarations.
pub fn source_types<L: Library>(
    alloc: Global,
    decls: &List<Decl>,
    named: &Named,
    sigs: &Sigs,
    library: &L,
) -> Result<(), CheckFault>
    requires named { named.now ≡ named_of decls.now }
    requires sigs { AreSigs (L.meaning library.now).kind decls.now sigs.now.nodes }
    ensures fits { OnOk result
        (first_fault (source_rows (L.meaning library.now) decls.now) ≡ None) }
    ensures fault { IfErr result
        (IsLeastFault (first_fault (source_rows (L.meaning library.now) decls.now))) }
{
    match sources(
        alloc,
        decls.as_slice(),
        named,
        sigs.nodes.as_slice(),
        library,
    )? {
        Some((kind, at)) => Err(fault_at(alloc, kind, at)),
        None => Ok(()),
    }
}
