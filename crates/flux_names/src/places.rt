//! The least place of words, word by word.

ghost use Rattle.std.specs.Prelude.{◌≡◌, ◌∷◌, [], drop, option_copied};
ghost use Rattle.flux_syntax.specs.Words.{listed};
ghost use Rattle.flux_syntax.specs.Least.{soonest};
ghost use Rattle.flux_names.specs.Rows.{word_if};
ghost use Rattle.flux_names.specs.steps.Picks.{picked, words_now};

use flux_syntax::{Names, Word, sooner};

/// The least place so far, from 0; None where there is none.
pub type Place = Option<u32>;

/// With a word, where it is wanted.
pub fn with_word(place: Place, wanted: bool, word: &Word) -> Place
    ensures { result ≡ soonest place (word_if wanted word.now) }
{
    if wanted {
        Some(sooner(place, word.at))
    } else {
        place
    }
}

/// With a word, where it is among names, or isn't.
pub fn with_pick(place: Place, names: &Names, among: bool, word: &Word) -> Place
    ensures { result ≡ soonest place (picked among names.now (word.now ∷ [])) }
{
    with_word(place, names.has(word.text.as_bytes()) == among, word)
}

/// With a word, if there is one, where it is among names, or isn't.
pub fn with_listed(place: Place, names: &Names, among: bool, word: Option<&Word>) -> Place
    ensures { result ≡ soonest place (picked among names.now (listed (option_copied word.entry))) }
{
    match word {
        Some(word) => with_pick(place, names, among, word),
        None => place,
    }
}

/// With those of the words that are among names, or aren't.
pub fn with_picks(place: Place, names: &Names, among: bool, words: &[Word]) -> Place
    ensures { result ≡ soonest place (picked among names.now words.now) }
{
    let mut place = place;
    for word in words {
        place = with_pick(place, names, among, word);
    }
    place
}

/// With all of the words.
fn with_words(place: Place, words: &[&Word]) -> Place
    ensures { result ≡ soonest place (words_now words.now) }
{
    let mut place = place;
    for word in words {
        place = Some(sooner(place, word.at));
    }
    place
}

/// With the words after so many.
pub fn with_words_behind(place: Place, words: &[&Word], count: usize) -> Place
    ensures { result ≡ soonest place (drop count (words_now words.now)) }
{
    with_words(place, &words[count.min(words.len())..])
}
