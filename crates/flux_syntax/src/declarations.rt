//! What a text declares.

ghost use Rattle.std.specs.Prelude.{◌≡◌, IfOk};
ghost use Rattle.flux_syntax.specs.Words.{spelling};

use flux_values::{Bytes, List, Memory, Mode, TextBytes};
use std::alloc::Global;

/// A name or a number as it is spelled, and the place of its first byte in the text, from 0.
pub struct Word {
    pub text: TextBytes,
    pub at: u32,
}

impl Drop for Word {
    fn drop(self) {
        let Word { text, at } = self;
    }
}

/// A parameter: its type is a word with so many stars.
pub struct Param {
    pub ty: Word,
    pub stars: u32,
    pub name: Word,
}

impl Drop for Param {
    fn drop(self) {
        let Param { ty, stars, name } = self;
    }
}

impl Param {
    /// The type as it is spelled: its word and its stars.
    pub fn spelling(&self, alloc: Global) -> Result<Bytes, Memory>
        ensures { IfOk result (λ ty. ty ≡ spelling self.now) }
    {
        let mut ty = Bytes::new(alloc);
        ty.append(self.ty.text.as_bytes())?;
        for _ in 0..self.stars {
            ty.append(b"*")?;
        }
        Ok(ty)
    }
}

/// A name that a node holds as reader or writer, in the whole program or in its session.
pub struct Constraint {
    pub name: Word,
    pub mode: Mode,
    pub session: bool,
}

impl Drop for Constraint {
    fn drop(self) {
        let Constraint {
            name,
            mode,
            session,
        } = self;
    }
}

/// A declaration.
pub enum Decl {
    /// `Name (int a) => (int b);`
    Signature {
        name: Word,
        ins: List<Param>,
        outs: List<Param>,
    },
    /// `Name = First -> Second;`, or with patterns `Name:[_, some] = First;`, where None is `_`.
    Flow {
        name: Word,
        patterns: Option<List<Option<Word>>>,
        members: List<Word>,
    },
    /// `source Name => Target;`
    Source {
        name: Word,
        target: Word,
    },
    /// `typedef some Function;`
    Typedef {
        name: Word,
        function: Word,
    },
    /// `handle error Node => Handler;`, or of these codes `handle error Node:(1, 2) => Handler;`.
    Handler {
        node: Word,
        codes: List<Word>,
        handler: Word,
    },
    /// `atomic Node:{name, other?(session)};`
    Atomic {
        node: Word,
        constraints: List<Constraint>,
    },
    /// `session Source => Function;`
    Session {
        source: Word,
        function: Word,
    },
}

impl Drop for Decl {
    fn drop(self) {
        match self {
            Decl::Signature {
                name: _,
                ins: _,
                outs: _,
            } => {}
            Decl::Flow {
                name: _,
                patterns: _,
                members: _,
            } => {}
            Decl::Source { name: _, target: _ } => {}
            Decl::Typedef {
                name: _,
                function: _,
            } => {}
            Decl::Handler {
                node: _,
                codes: _,
                handler: _,
            } => {}
            Decl::Atomic {
                node: _,
                constraints: _,
            } => {}
            Decl::Session {
                source: _,
                function: _,
            } => {}
        }
    }
}
