//! The clients that a door waits for, by their ages.

use crate::clients::Client;
use std::alloc::Global;
use std::collections::BTreeMap;
use std::net::Net;
use std::time::Duration;

/// So many seconds after its accept, a client's text has to be there.
pub const READ_SECONDS: u64 = 10;

/// Clients under their numbers, which rise in the order of their accepts: so the first of each map is the oldest.
#[derive(Drop)]
pub struct Waiting<R: Net> {
    /// Those that have sent nothing, and those that have sent a part.
    silent: BTreeMap<u64, Client<R>>,
    begun: BTreeMap<u64, Client<R>>,
}

/// When the text of a map's oldest client has to be there.
fn deadline_in<R: Net>(clients: &BTreeMap<u64, Client<R>>) -> Option<Duration> {
    let (_, oldest) = clients.first_key_value()?;
    Some(
        oldest
            .accepted
            .saturating_add(Duration::from_secs(READ_SECONDS)),
    )
}

/// Closes the clients of a map whose time is over.
fn close_late_in<R: Net>(clients: &mut BTreeMap<u64, Client<R>>, now: Duration) {
    for _ in 0..clients.len() {
        match deadline_in(clients) {
            Some(deadline) if deadline <= now => {
                let _ = clients.pop_first();
            }
            _ => return,
        }
    }
}

impl<R: Net> Waiting<R> {
    pub fn new(alloc: Global) -> Waiting<R> {
        Waiting {
            silent: BTreeMap::new(alloc),
            begun: BTreeMap::new(alloc),
        }
    }

    pub fn len(&self) -> usize {
        self.silent.len().saturating_add(self.begun.len())
    }

    /// Keeps a client under its number. Where there is no memory for it, it is closed.
    pub fn keep(&mut self, number: u64, client: Client<R>) {
        let clients = if client.is_silent() {
            &mut self.silent
        } else {
            &mut self.begun
        };
        let _ = clients.insert(number, client);
    }

    /// Takes out the client of a number.
    pub fn take(&mut self, number: u64) -> Option<Client<R>> {
        match self.silent.remove(&number) {
            Some(client) => Some(client),
            None => self.begun.remove(&number),
        }
    }

    /// Closes the oldest client that has sent nothing, or else the oldest; false where there is none.
    pub fn close_oldest(&mut self) -> bool {
        self.silent.pop_first().is_some() || self.begun.pop_first().is_some()
    }

    /// When the first text has to be there; None where no client is waited for.
    pub fn deadline(&self) -> Option<Duration> {
        match (deadline_in(&self.silent), deadline_in(&self.begun)) {
            (Some(silent), Some(begun)) => Some(silent.min(begun)),
            (Some(deadline), None) | (None, Some(deadline)) => Some(deadline),
            (None, None) => None,
        }
    }

    /// Closes the clients whose time is over.
    pub fn close_late(&mut self, now: Duration) {
        close_late_in(&mut self.silent, now);
        close_late_in(&mut self.begun, now);
    }

    /// Closes all.
    pub fn close_all(&mut self) {
        self.silent.clear();
        self.begun.clear();
    }
}
