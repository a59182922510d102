//! What the nodes answer.

ghost use Rattle.std.specs.Prelude.{◌≡◌, ◌≤◌, ◌+◌, ◌++◌, [], ◌∷◌, length, IfOk, OnOk, option_copied};
ghost use Rattle.flux_values.specs.declared.texts.TheConstants.{TEXT_LIMIT};
ghost use Rattle.flux_values.specs.declared.values.Value.TheVariants.{Text};
ghost use Rattle.flux_library.specs.Answers as answers;
ghost use Rattle.bencoding.specs.Trees.{spelling};
ghost use Rattle.bencoding.specs.Views.{tree_of};
ghost use Rattle.nodes_tracker.specs.Calls as calls;
ghost use Rattle.nodes_tracker.specs.Asks as asks;
ghost use Rattle.nodes_tracker.specs.steps.Fields.{AreFew, IsSmall};

use crate::asks::{Ask, read_ask};
use crate::nodes::Node;
use crate::peers::{PEER_LIMIT, Peer, dictionary_of, put_in, read_swarm, take_out};
use crate::replies::{announce_reply, joined, scrape_reply};
use bencoding::{Ben, print_ben};
use flux_library::answers::{emits, fails, good, text_in, word};
use flux_values::{Answer, Bytes, CallResult, Cell, List, Memory, Put, TextBytes, Value};
use std::alloc::Global;

impl Node {
    /// The answer on values of the node's kinds and on its cells.
    pub fn answer(self, alloc: Global, args: &[Value], cells: &[Cell]) -> Result<Answer, Memory>
        ensures { IfOk result (λ answer. answer ≡ calls.answer_of self args.now cells.now) }
    {
        match self {
            Node::Listen => good(alloc, List::new(alloc)),
            Node::ReadAsk => ask(alloc, text_in(args)),
            Node::Swarm => on_swarm(alloc, args, cells),
            Node::Scrape => on_scrape(alloc, args, cells),
            Node::Send => emits(alloc, Bytes::copy(alloc, one_text(args))?),
            Node::Failure => emits(
                alloc,
                Bytes::copy(alloc, b"d14:failure reason11:bad requeste")?,
            ),
            Node::Full => emits(
                alloc,
                Bytes::copy(alloc, b"d14:failure reason10:swarm fulle")?,
            ),
        }
    }
}

// What is given

/// The one text; of no meaning for other values.
fn one_text(args: &[Value]) -> &[u8]
    ensures { result.now ≡ calls.one_text args.now }
{
    match args {
        [Value::Text(text)] => text.as_bytes(),
        _ => b"",
    }
}

/// The ask that is in values; of no meaning for values of other kinds.
fn ask_given(alloc: Global, args: &[Value]) -> Result<Option<Ask>, Memory>
    ensures { IfOk result (λ ask. ask ≡ calls.ask_given args.now) }
{
    match args {
        [
            Value::Text(action),
            Value::Text(hash),
            Value::Text(peer),
            Value::Int(left),
        ] => {
            Ok(Some(Ask {
                action: action.again(alloc)?,
                hash: hash.again(alloc)?,
                peer: peer.again(alloc)?,
                left: *left,
            }))
        }
        _ => Ok(None),
    }
}

// What the cell has

/// A name of the cell: a mark, and a hash after it.
fn name_of(alloc: Global, mark: &[u8], hash: &[u8]) -> Result<TextBytes, Memory>
    requires { length mark.now + length hash.now ≤ TEXT_LIMIT }
    ensures { IfOk result (λ name. name ≡ mark.now ++ hash.now) }
{
    let mut name = Vec::from_slice(alloc, mark)?;
    name.extend_from_slice(hash)?;
    Ok(TextBytes::from_vec(name))
}

fn swarm_in(alloc: Global, cell: &Cell, hash: &[u8]) -> Result<Vec<Peer>, Memory>
    requires { length hash.now ≡ 20 }
    ensures { IfOk result (λ swarm. swarm.items ≡ calls.swarm_in cell.now hash.now) }
{
    let name = name_of(alloc, b"p", hash)?;
    match cell.get(name.as_bytes()) {
        Some(Value::Text(text)) => read_swarm(alloc, text.as_bytes()),
        _ => Ok(Vec::new(alloc)),
    }
}

fn completions_in(alloc: Global, cell: &Cell, hash: &[u8]) -> Result<i64, Memory>
    requires { length hash.now ≡ 20 }
    ensures { IfOk result (λ completions. completions ≡ calls.completions_in cell.now hash.now) }
{
    let name = name_of(alloc, b"c", hash)?;
    Ok(number_or_zero(cell.get(name.as_bytes())))
}

fn number_or_zero(value: Option<&Value>) -> i64
    ensures { result ≡ calls.number_or_zero (option_copied value.entry) }
{
    match value {
        Some(Value::Int(number)) => *number,
        _ => 0,
    }
}

// Answers

/// A bencoded value as a text.
fn printed(alloc: Global, value: &Ben) -> Result<Value, Memory>
    requires { length (spelling (tree_of value.now)) ≤ TEXT_LIMIT }
    ensures { IfOk result (λ printed. printed ≡ Text (spelling (tree_of value.now))) }
{
    Ok(Value::Text(word(alloc, print_ben(alloc, value)?.as_bytes())?))
}

/// A change under a name of the cell: a mark, and a hash after it.
fn put(alloc: Global, mark: &[u8], hash: &[u8], value: Option<Value>) -> Result<Put, Memory>
    requires { length mark.now + length hash.now ≤ TEXT_LIMIT }
    ensures { IfOk result (λ put. put ≡ calls.put (mark.now ++ hash.now) value) }
{
    Ok(Put {
        cell: word(alloc, b"swarms")?,
        name: name_of(alloc, mark, hash)?,
        value,
    })
}

fn swarm_put(alloc: Global, hash: &[u8], swarm: Vec<Peer>) -> Result<Put, Memory>
    requires hash { length hash.now ≡ 20 }
    requires few { AreFew swarm.items }
    ensures { IfOk result (λ put. put ≡ calls.swarm_put hash.now swarm.items) }
{
    if swarm.is_empty() {
        return put(alloc, b"p", hash, None);
    }
    let kept = dictionary_of(alloc, swarm)?;
    put(alloc, b"p", hash, Some(printed(alloc, &kept)?))
}

/// One completion more for `completed`.
fn complete(alloc: Global, puts: &mut List<Put>, ask: &Ask, cell: &Cell) -> Result<(), Memory>
    requires { length ask.now.hash ≡ 20 }
    ensures { OnOk result (puts.new ≡ puts.old ++ calls.completion_puts ask.now.action ask.now.hash
        (calls.completions_in cell.now ask.now.hash)) }
{
    if ask.action.as_bytes() != b"completed".as_slice() {
        return Ok(());
    }
    let hash = ask.hash.as_bytes();
    let completions = completions_in(alloc, cell, hash)?.saturating_add(1);
    puts.add(put(alloc, b"c", hash, Some(Value::Int(completions)))?)
}

/// Ok with one value.
fn good_with(alloc: Global, value: Value) -> Result<Answer, Memory>
    ensures { IfOk result (λ answer. answer ≡ answers.ok (value ∷ [])) }
{
    let mut values = List::new(alloc);
    values.add(value)?;
    good(alloc, values)
}

// Nodes

fn ask(alloc: Global, line: &[u8]) -> Result<Answer, Memory>
    ensures { IfOk result (λ answer. answer ≡ calls.read_ask_call (asks.ask_of line.now)) }
{
    let Some(ask) = read_ask(alloc, line)? else {
        return fails(alloc, 2);
    };
    let mut values = List::new(alloc);
    values.add(Value::Text(ask.action))?;
    values.add(Value::Text(ask.hash))?;
    values.add(Value::Text(ask.peer))?;
    values.add(Value::Int(ask.left))?;
    good(alloc, values)
}

fn on_swarm(alloc: Global, args: &[Value], cells: &[Cell]) -> Result<Answer, Memory>
    ensures { IfOk result (λ answer. answer ≡
        calls.on_ask calls.swarm_call (calls.ask_given args.now) cells.now) }
{
    match (ask_given(alloc, args)?, cells) {
        (Some(ask), [cell]) => swarm(alloc, &ask, cell),
        _ => good(alloc, List::new(alloc)),
    }
}

fn swarm(alloc: Global, ask: &Ask, cell: &Cell) -> Result<Answer, Memory>
    ensures { IfOk result (λ answer. answer ≡ calls.swarm_call ask.now cell.now) }
{
    let (hash, address) = (ask.hash.as_bytes(), ask.peer.as_bytes());
    if hash.len() != 20 || address.len() != 6 || ask.left < 0 {
        return fails(alloc, 4);
    }
    let mut others = swarm_in(alloc, cell, hash)?;
    take_out(&mut others, address);
    announce(alloc, ask, cell, others)
}

fn announce(alloc: Global, ask: &Ask, cell: &Cell, others: Vec<Peer>) -> Result<Answer, Memory>
    requires hash { length ask.now.hash ≡ 20 }
    requires peer { IsSmall (calls.asking ask.now) }
    requires few { AreFew others.items }
    ensures { IfOk result (λ answer. answer ≡ calls.announce_call ask.now cell.now others.items) }
{
    if !stops(ask) && others.len() >= PEER_LIMIT {
        return fails(alloc, 3);
    }
    let shown = joined(alloc, &others)?;
    let swarm = moved(alloc, ask, others)?;
    answer(alloc, ask, cell, swarm, shown)
}

fn stops(ask: &Ask) -> bool
    ensures { result ≡ calls.stops ask.now.action }
{
    ask.action.as_bytes() == b"stopped".as_slice()
}

/// The swarm after an action, from the other peers.
fn moved(alloc: Global, ask: &Ask, others: Vec<Peer>) -> Result<Vec<Peer>, Memory>
    ensures { IfOk result (λ swarm. swarm.items ≡
        calls.moved ask.now.action (calls.asking ask.now) others.items) }
{
    let mut swarm = others;
    if !stops(ask) {
        let address = Bytes::copy(alloc, ask.peer.as_bytes())?;
        put_in(
            &mut swarm,
            Peer {
                address,
                left: ask.left,
            },
        )?;
    }
    Ok(swarm)
}

/// What `Swarm` answers, by the new swarm and the peers that are shown.
fn answer(
    alloc: Global,
    ask: &Ask,
    cell: &Cell,
    swarm: Vec<Peer>,
    shown: Bytes,
) -> Result<Answer, Memory>
    requires hash { length ask.now.hash ≡ 20 }
    requires few { AreFew swarm.items }
    requires shown { length shown ≤ 300 }
    ensures { IfOk result (λ answer. answer ≡ calls.moved_call ask.now cell.now swarm.items shown) }
{
    let reply = announce_reply(alloc, &swarm, shown)?;
    let mut answer = good_with(alloc, printed(alloc, &reply)?)?;
    answer
        .puts
        .add(swarm_put(alloc, ask.hash.as_bytes(), swarm)?)?;
    complete(alloc, &mut answer.puts, ask, cell)?;
    Ok(answer)
}

fn on_scrape(alloc: Global, args: &[Value], cells: &[Cell]) -> Result<Answer, Memory>
    ensures { IfOk result (λ answer. answer ≡
        calls.on_ask (λ ask. calls.scrape_call ask.hash) (calls.ask_given args.now) cells.now) }
{
    match (ask_given(alloc, args)?, cells) {
        (Some(ask), [cell]) => scrape(alloc, ask.hash.as_bytes(), cell),
        _ => good(alloc, List::new(alloc)),
    }
}

fn scrape(alloc: Global, hash: &[u8], cell: &Cell) -> Result<Answer, Memory>
    ensures { IfOk result (λ answer. answer ≡ calls.scrape_call hash.now cell.now) }
{
    if hash.len() != 20 {
        return fails(alloc, 4);
    }
    let swarm = swarm_in(alloc, cell, hash)?;
    let completions = completions_in(alloc, cell, hash)?;
    let reply = scrape_reply(alloc, hash, &swarm, completions)?;
    good_with(alloc, printed(alloc, &reply)?)
}
