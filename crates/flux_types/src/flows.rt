//! The rows on nodes and on flows, looked for in one pass.

ghost use Rattle.std.specs.Prelude.{◌≡◌, ◌==◌, ◌&&◌, fold, length, None};
ghost use Rattle.flux_model.specs.Kinds.{sig_at};
ghost use Rattle.flux_model.specs.Types.{same_types};
ghost use Rattle.flux_syntax.specs.Least.{soonest, first_fault};
ghost use Rattle.flux_types.specs.Signatures.{last_of};
ghost use Rattle.std.specs.List.{list_all};
ghost use Rattle.flux_types.specs.Rows.{word_sig, is_hollow, unjoined, unjoined_after, has_count, is_like_node, unlike_input, unlike_inputs, unlike_patterns, miscounted_in, unlike_node_in};
ghost use Rattle.flux_types.specs.steps.Passing.{kind_in, hollow_places, flow_passed, flow_fault};

use crate::comparing::{Place, takes, unless};
use crate::predicates::Predicates;
use crate::words::Signed;
use flux_faults::FaultKind;
use flux_model::{Body, Case, Node, TypeText, same_types};
use flux_syntax::{Decl, Word, fault_or, sooner};
use flux_values::List;

// ---- nodes

/// Whether all cases of an abstract node are empty.
fn is_hollow(body: &Body) -> bool
    ensures { result ≡ is_hollow body.now }
{
    match body {
        Body::Concrete(_) => false,
        Body::Abstract(cases) => are_empty(cases.as_slice()),
    }
}

fn are_empty(cases: &[Case]) -> bool
    ensures { result ≡ list_all (λ case. length case.members == 0) cases.now }
{
    cases.iter().all(|case| case.members.as_slice().is_empty())
}

/// Where the first node whose cases are all empty has its name. Each node has its place.
pub fn hollow_places(nodes: &[Node], sites: &[u32]) -> Place
    ensures { result ≡ hollow_places None nodes.now sites.now }
{
    let mut place = None;
    let mut rest = nodes;
    let mut left = sites;
    while let [node, others @ ..] = rest {
        let [at, more @ ..] = left else {
            return place;
        };
        if is_hollow(&node.body) {
            place = Some(sooner(place, *at));
        }
        rest = others;
        left = more;
    }
    place
}

// ---- flows

/// Members, where one's outputs differ from the next one's inputs.
fn unjoined(signed: &Signed, members: &[Word], place: Place) -> Place
    ensures { result ≡ soonest place
        (unjoined (word_sig signed.now.names (sig_at signed.now.sigs.now)) members.now) }
{
    let [first, words @ ..] = members else {
        return place;
    };
    let mut place = place;
    let mut from = first;
    let mut rest = words;
    while let [to, others @ ..] = rest {
        place = unless(same_types(signed.outs(from), signed.ins(to)), to, place);
        from = to;
        rest = others;
    }
    place
}

fn has_count(ins: &[TypeText], patterns: &Option<List<Option<Word>>>) -> bool
    ensures { result ≡ has_count ins.now patterns.now }
{
    match patterns {
        Some(patterns) => patterns.len() == ins.len(),
        None => true,
    }
}

/// Whether a case takes and gives what its node does.
fn is_like_node(signed: &Signed, name: &Word, members: &[Word]) -> bool
    ensures { let sigs = word_sig signed.now.names (sig_at signed.now.sigs.now) in
        result ≡ is_like_node sigs (sigs name.now) members.now }
{
    let (ins, outs) = (signed.ins(name), signed.outs(name));
    match members {
        [] => same_types(ins, outs),
        [first, others @ ..] => {
            let last = last_of(first, others);
            are_ends(signed.ins(first), ins, signed.outs(last), outs)
        }
    }
}

/// Whether what comes first is spelled as the inputs are, and what comes last as the outputs are.
fn are_ends(first: &[TypeText], ins: &[TypeText], last: &[TypeText], outs: &[TypeText]) -> bool
    ensures { result ≡ (same_types first.now ins.now && same_types last.now outs.now) }
{
    same_types(first, ins) && same_types(last, outs)
}

fn last_of<'a>(first: &'a Word, others: &'a [Word]) -> &'a Word
    ensures { result.now ≡ last_of first.now others.now }
{
    match others.last() {
        Some(last) => last,
        None => first,
    }
}

fn unlike_input(
    predicates: &Predicates,
    pattern: &Option<Word>,
    input: &TypeText,
    place: Place,
) -> Place
    ensures { result ≡ soonest place
        (unlike_input (kind_in predicates.now.names predicates.now.kinds) pattern.now input.now) }
{
    match pattern {
        Some(word) => {
            let own = predicates.find(word.text.as_bytes());
            unless(takes(own, input.kind), word, place)
        }
        None => place,
    }
}

/// Patterns and inputs in the places that both have, from the left.
fn unlike_inputs(
    predicates: &Predicates,
    patterns: &[Option<Word>],
    inputs: &[TypeText],
    place: Place,
) -> Place
    ensures { result ≡ soonest place
        (unlike_inputs (kind_in predicates.now.names predicates.now.kinds)
        patterns.now inputs.now) }
{
    let mut place = place;
    let mut rest = patterns;
    let mut left = inputs;
    while let [pattern, others @ ..] = rest {
        let [input, more @ ..] = left else {
            return place;
        };
        place = unlike_input(predicates, pattern, input, place);
        rest = others;
        left = more;
    }
    place
}

fn unlike_patterns(
    predicates: &Predicates,
    patterns: &Option<List<Option<Word>>>,
    inputs: &[TypeText],
    place: Place,
) -> Place
    ensures { result ≡ soonest place
        (unlike_patterns (kind_in predicates.now.names predicates.now.kinds)
        patterns.now inputs.now) }
{
    match patterns {
        Some(patterns) => unlike_inputs(predicates, patterns.as_slice(), inputs, place),
        None => place,
    }
}

/// The least place of each row on flows, so far.
#[derive(Clone, Copy)]
pub struct FlowPlaces {
    joins: Place,
    counts: Place,
    ends: Place,
    predicates: Place,
}

impl FlowPlaces {
    fn pass(self, signed: &Signed, predicates: &Predicates, decl: &Decl) -> FlowPlaces
        ensures { result ≡ flow_passed
            (word_sig signed.now.names (sig_at signed.now.sigs.now))
            (kind_in predicates.now.names predicates.now.kinds) self decl.now }
    {
        let Decl::Flow {
            name,
            patterns,
            members,
        } = decl
        else {
            return self;
        };
        let ins = signed.ins(name);
        let like = is_like_node(signed, name, members.as_slice());
        FlowPlaces {
            joins: unjoined(signed, members.as_slice(), self.joins),
            counts: unless(has_count(ins, patterns), name, self.counts),
            ends: unless(like, name, self.ends),
            predicates: unlike_patterns(predicates, patterns, ins, self.predicates),
        }
    }

    /// Looks at all flows.
    pub fn of(signed: &Signed, predicates: &Predicates, decls: &[Decl]) -> FlowPlaces
        ensures { result ≡ fold (flow_passed
            (word_sig signed.now.names (sig_at signed.now.sigs.now))
            (kind_in predicates.now.names predicates.now.kinds))
            (record { joins = None; counts = None; ends = None; predicates = None }) decls.now }
    {
        let mut places = FlowPlaces {
            joins: None,
            counts: None,
            ends: None,
            predicates: None,
        };
        for decl in decls {
            places = places.pass(signed, predicates, decl);
        }
        places
    }

    /// The least row that applies, at its least place.
    pub fn fault(self) -> Option<(FaultKind, u32)>
        ensures { result ≡ flow_fault self }
    {
        let fault = fault_or(FaultKind::PredicateType, self.predicates, None);
        let fault = fault_or(FaultKind::CaseTypes, self.ends, fault);
        let fault = fault_or(FaultKind::CaseCount, self.counts, fault);
        fault_or(FaultKind::JoinTypes, self.joins, fault)
    }
}
