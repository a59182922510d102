//! Bytes, and texts of at most 65,536 bytes.

ghost use Rattle.std.specs.Prelude.{◌≡◌, ◌≤◌, ◌<◌, ◌++◌, [], length, IfOk, OnOk, OnErr, IsErrOf, ◌↔◌, nat_eq};
ghost use Rattle.std.specs.Ordering.{nat_cmp, as_partial_cmp};
ghost use Rattle.std.specs.Cmp.{partial_equiv_from_equiv};
ghost use Rattle.std.specs.Cmp.Lexicographic.{pointwise, slice_cmp, nat_list_cmp_total};
ghost use Rattle.std.specs.Cmp.Rules.{comparing};
ghost use Rattle.std.proofs.Common.{rules};
ghost use Rattle.std.proofs.lemmas.Cmp.{nat_list_eq_equiv};

use crate::failures::{Memory, TextFault};
use std::alloc::Global;
use std::cmp::Ordering;
use std::marker::Model;

/// The greatest length of a text, in bytes.
pub const TEXT_LIMIT: usize = 65_536;

/// The most bytes that a call of a node emits.
pub const EMISSION_LIMIT: usize = 1_049_600;

/// A text: at most 65,536 bytes, of any encoding.
pub struct TextBytes {
    bytes: Vec<u8>,
}

impl Drop for TextBytes {
    fn drop(self) {
        let TextBytes { bytes } = self;
    }
}

impl Model for TextBytes {
    ghost use Rattle.std.specs.Prelude.{List, ℕ, ◌≤◌, length};

    ghost Value = { List ℕ };

    ghost view = { λ t. t.bytes.items };

    ghost use Rattle.flux_values.specs.declared.texts.TheConstants.{TEXT_LIMIT};

    ghost invariant = { λ t. length t.bytes.items ≤ TEXT_LIMIT };
}

impl TextBytes {
    pub fn copy(alloc: Global, bytes: &[u8]) -> Result<TextBytes, TextFault>
        ensures same { IfOk result (λ text. text ≡ bytes.now) }
        ensures too_long { IsErrOf result TextFault.TooLong ↔ (TEXT_LIMIT < length bytes.now) }
    {
        if bytes.len() > TEXT_LIMIT {
            return Err(TextFault::TooLong);
        }
        match Vec::from_slice(alloc, bytes) {
            Ok(bytes) => Ok(TextBytes { bytes }),
            Err(_) => Err(TextFault::Memory),
        }
    }

    pub fn as_bytes(&self) -> &[u8]
        ensures same { result.now ≡ self.now }
        ensures limit { length self.now ≤ TEXT_LIMIT }
    {
        self.bytes.as_slice()
    }

    /// Makes a text of what is at hand, and takes no memory.
    pub fn from_vec(bytes: Vec<u8>) -> TextBytes
        requires { length bytes.items ≤ TEXT_LIMIT }
        ensures { result ≡ bytes.items }
    {
        TextBytes { bytes }
    }

    /// The same text once more.
    pub fn again(&self, alloc: Global) -> Result<TextBytes, Memory>
        ensures { IfOk result (λ copied. copied ≡ self.now) }
    {
        Ok(TextBytes {
            bytes: Vec::from_slice(alloc, &self.bytes)?,
        })
    }
}

/// Texts are equal where their bytes are.
impl PartialEq for TextBytes {
    ghost eq = { pointwise nat_eq };

    ghost laws = { partial_equiv_from_equiv nat_list_eq_equiv };

    fn eq(&self, other: &TextBytes) -> bool {
        self.as_bytes() == other.as_bytes()
    }
}

impl Eq for TextBytes {
    ghost laws = { nat_list_eq_equiv };
}

/// Bytewise.
impl Ord for TextBytes {
    ghost cmp = { slice_cmp nat_cmp };

    ghost total = { nat_list_cmp_total };

    ghost matches_partial_cmp = { Prim.search (comparing, rules) };

    ghost matches_eq = { Prim.search (comparing, rules) };

    fn cmp(&self, other: &TextBytes) -> Ordering {
        self.as_bytes().cmp(other.as_bytes())
    }
}

impl PartialOrd for TextBytes {
    ghost partial_cmp = { as_partial_cmp (slice_cmp nat_cmp) };

    ghost laws = { Prim.search (comparing, rules) };

    fn partial_cmp(&self, other: &TextBytes) -> Option<Ordering> {
        Some(self.cmp(other))
    }
}

/// Bytes of any length.
pub struct Bytes {
    bytes: Vec<u8>,
}

impl Drop for Bytes {
    fn drop(self) {
        let Bytes { bytes } = self;
    }
}

impl Model for Bytes {
    ghost use Rattle.std.specs.Prelude.{List, ℕ};

    ghost Value = { List ℕ };

    ghost view = { λ b. b.bytes.items };
}

impl Bytes {
    /// No bytes, which take no memory yet.
    pub fn new(alloc: Global) -> Bytes
        ensures { result ≡ [] }
    {
        Bytes {
            bytes: Vec::new(alloc),
        }
    }

    /// Makes bytes of what is at hand, and takes no memory.
    pub fn from_vec(bytes: Vec<u8>) -> Bytes
        ensures { result ≡ bytes.items }
    {
        Bytes { bytes }
    }

    /// Adds bytes at the end.
    pub fn append(&mut self, bytes: &[u8]) -> Result<(), Memory>
        ensures added { OnOk result (self.new ≡ self.old ++ bytes.now) }
        ensures unchanged { OnErr result (self.new ≡ self.old) }
    {
        Ok(self.bytes.extend_from_slice(bytes)?)
    }

    pub fn copy(alloc: Global, bytes: &[u8]) -> Result<Bytes, Memory>
        ensures { IfOk result (λ copied. copied ≡ bytes.now) }
    {
        Ok(Bytes {
            bytes: Vec::from_slice(alloc, bytes)?,
        })
    }

    pub fn as_bytes(&self) -> &[u8]
        ensures { result.now ≡ self.now }
    {
        self.bytes.as_slice()
    }
}

/// They are equal where their bytes are.
impl PartialEq for Bytes {
    ghost eq = { pointwise nat_eq };

    ghost laws = { partial_equiv_from_equiv nat_list_eq_equiv };

    fn eq(&self, other: &Bytes) -> bool {
        self.as_bytes() == other.as_bytes()
    }
}

impl Eq for Bytes {
    ghost laws = { nat_list_eq_equiv };
}
