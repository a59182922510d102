//! What is in the lines of keys that are taken, waited for and dropped, by the class of the key.

ghost use Rattle.std.specs.Prelude.{◌≡◌, ◌++◌, [], IfOk, OnOk, map};
ghost use Rattle.flux_journal.specs.steps.KeyPhrases.{key_behind, key_text, key_text_in, class_text_in, key_phrases_with, class_phrases_of};

use flux_model::{Class, Mode};
use flux_values::{Bytes, List, Memory};
use std::alloc::Global;

/// How a key's line goes on after its flow's number: a word, the key, in which mode it is taken or waited for, and LF.
#[derive(Clone, Copy)]
pub enum KeyPhrase {
    Take(Mode),
    Wait(Mode),
    Drop,
}

impl KeyPhrase {
    /// What follows the key.
    pub fn behind(self) -> &'static [u8]
        ensures { result.now ≡ key_behind self }
    {
        match self {
            KeyPhrase::Take(Mode::Reader) | KeyPhrase::Wait(Mode::Reader) => b"?\n",
            KeyPhrase::Take(Mode::Writer) | KeyPhrase::Wait(Mode::Writer) => b"!\n",
            KeyPhrase::Drop => b"\n",
        }
    }
}

/// The phrases of a class's keys, either of those without a number or of those with one.
#[derive(Drop)]
struct KeyPhrases {
    taking_to_read: Bytes,
    taking_to_write: Bytes,
    waiting_to_read: Bytes,
    waiting_to_write: Bytes,
    dropping: Bytes,
}

impl KeyPhrases {
    fn text(&self, phrase: KeyPhrase) -> &[u8]
        ensures { result.now ≡ key_text_in self.now phrase }
    {
        match phrase {
            KeyPhrase::Take(Mode::Reader) => self.taking_to_read.as_bytes(),
            KeyPhrase::Take(Mode::Writer) => self.taking_to_write.as_bytes(),
            KeyPhrase::Wait(Mode::Reader) => self.waiting_to_read.as_bytes(),
            KeyPhrase::Wait(Mode::Writer) => self.waiting_to_write.as_bytes(),
            KeyPhrase::Drop => self.dropping.as_bytes(),
        }
    }
}

/// A class's phrases. Those of keys with a number end with `@`, the others with LF.
#[derive(Drop)]
pub struct ClassPhrases {
    plain: KeyPhrases,
    numbered: KeyPhrases,
}

impl ClassPhrases {
    pub fn text(&self, phrase: KeyPhrase, numbered: bool) -> &[u8]
        ensures { result.now ≡ class_text_in self.now numbered phrase }
    {
        if numbered {
            self.numbered.text(phrase)
        } else {
            self.plain.text(phrase)
        }
    }
}

/// Adds the phrases of classes, where there are none yet.
pub fn lay_out_classes(
    alloc: Global,
    phrases: &mut List<ClassPhrases>,
    classes: &[Class],
) -> Result<(), Memory>
    requires { phrases.old ≡ [] }
    ensures { OnOk result (phrases.new ≡ map class_phrases_of classes.now) }
{
    for class in classes {
        phrases.add(print_class(alloc, class)?)?;
    }
    Ok(())
}

fn print_class(alloc: Global, class: &Class) -> Result<ClassPhrases, Memory>
    ensures { IfOk result (λ phrases. phrases ≡ class_phrases_of class.now) }
{
    Ok(ClassPhrases {
        plain: print_keys(alloc, false, class.name.as_bytes())?,
        numbered: print_keys(alloc, true, class.name.as_bytes())?,
    })
}

/// The phrases of keys of a class with a name.
fn print_keys(alloc: Global, numbered: bool, name: &[u8]) -> Result<KeyPhrases, Memory>
    ensures { IfOk result (λ phrases. phrases ≡ key_phrases_with numbered name.now) }
{
    Ok(KeyPhrases {
        taking_to_read: print_key(alloc, KeyPhrase::Take(Mode::Reader), numbered, name)?,
        taking_to_write: print_key(alloc, KeyPhrase::Take(Mode::Writer), numbered, name)?,
        waiting_to_read: print_key(alloc, KeyPhrase::Wait(Mode::Reader), numbered, name)?,
        waiting_to_write: print_key(alloc, KeyPhrase::Wait(Mode::Writer), numbered, name)?,
        dropping: print_key(alloc, KeyPhrase::Drop, numbered, name)?,
    })
}

fn print_key(alloc: Global, phrase: KeyPhrase, numbered: bool, name: &[u8]) -> Result<Bytes, Memory>
    ensures { IfOk result (λ printed. printed ≡ key_text phrase numbered name.now) }
{
    let mut out = Bytes::new(alloc);
    append_key_phrase(&mut out, phrase, numbered, name)?;
    Ok(out)
}

/// Adds a word and a class's name, and `@` where a number comes, or else what follows the key.
pub fn append_key_phrase(
    out: &mut Bytes,
    phrase: KeyPhrase,
    numbered: bool,
    name: &[u8],
) -> Result<(), Memory>
    ensures { OnOk result (out.new ≡ out.old ++ key_text phrase numbered name.now) }
{
    out.append(match phrase {
        KeyPhrase::Take(_) => b" take ",
        KeyPhrase::Wait(_) => b" wait ",
        KeyPhrase::Drop => b" drop ",
    })?;
    out.append(name)?;
    out.append(if numbered { b"@" } else { phrase.behind() })
}
