//! Keys as entries keep them.

ghost use Rattle.std.specs.Prelude.{◌≡◌};

use crate::journals::Key;
use flux_model::ClassNo;
use std::marker::Model;

/// A key in less room, seen as the key.
pub struct KeptKey {
    class: ClassNo,
    is_session: bool,
    number: u64,
}

impl Drop for KeptKey {
    fn drop(self) {
        let KeptKey {
            class,
            is_session,
            number,
        } = self;
    }
}

impl Model for KeptKey {
    ghost use Rattle.flow_model.specs.declared.journals.Key.{Key};
    ghost use Rattle.flow_model.specs.contracts.journals.Key as key;

    ghost Value = { Key };

    ghost coded = { key.the_row.coded };

    ghost use Rattle.flow_model.specs.KeptKeys.{kept_key};

    ghost view = { λ k. kept_key k.class k.is_session k.number };
}

impl KeptKey {
    pub fn new(key: Key) -> KeptKey
        ensures { result ≡ key }
    {
        KeptKey {
            class: key.class,
            is_session: key.id.is_some(),
            number: key.id.unwrap_or(0),
        }
    }

    pub fn key(&self) -> Key
        ensures { result ≡ self.now }
    {
        Key {
            class: self.class,
            id: self.is_session.then_some(self.number),
        }
    }
}
