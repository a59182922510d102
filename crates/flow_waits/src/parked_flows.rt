//! Flows by the keys that they would take.

ghost use Rattle.std.specs.Prelude.{◌≡◌, [], OnOk, OnErr, MatchOption};
ghost use Rattle.flow_waits.specs.steps.Waking.{parked_at, IsMoreAt, IsLessAt, IsEarliest};

use crate::numbers::Numbers;
use flow_model::Key;
use flux_values::Memory;
use std::alloc::Global;
use std::collections::BTreeMap;
use std::marker::Model;

/// Flows' numbers, by the keys at which they are blocked.
#[derive(Drop)]
pub struct ParkedFlows {
    flows: BTreeMap<Key, Numbers>,
    alloc: Global,
}

impl Model for ParkedFlows {
    ghost use Rattle.flow_waits.specs.steps.Waking.{ParkedFlows};

    ghost Value = { ParkedFlows };

    ghost view = { λ p. p.flows.entries };
}

impl ParkedFlows {
    pub fn new(alloc: Global) -> ParkedFlows
        ensures { result ≡ [] }
    {
        ParkedFlows {
            flows: BTreeMap::new(alloc),
            alloc,
        }
    }

    pub fn add(&mut self, key: Key, flow: u32) -> Result<(), Memory>
        ensures ok { OnOk result (IsMoreAt self.old self.new key flow) }
        ensures err { OnErr result (self.new ≡ self.old) }
    {
        match self.flows.get_mut(&key) {
            Some(flows) => flows.add(flow),
            None => {
                let mut flows = Numbers::new(self.alloc);
                flows.add(flow)?;
                self.flows.insert(key, flows)?;
                Ok(())
            }
        }
    }

    pub fn remove(&mut self, key: Key, flow: u32)
        ensures { IsLessAt self.old self.new key flow }
    {
        let Some(flows) = self.flows.get_mut(&key) else {
            return;
        };
        flows.remove(flow);
    }

    /// The first number at a key that is looked at, from one on upward and then from 0 on.
    pub fn first_from(&self, key: Key, from: u32) -> Option<u32>
        ensures { MatchOption result (parked_at self.now key ≡ []) (IsEarliest (parked_at self.now key) from) }
    {
        self.flows.get(&key)?.first_from(from)
    }
}
