//! What the words after the program's own name ask for.

use trial_ends::Trouble;

#[derive(Clone, Copy)]
pub enum Words {
    Core { flows: u32 },
    Journal { flows: u32, prints: u32, reads: u32 },
    Text { flows: u32 },
    Watch { flows: u32 },
    Trials,
}

/// The number that a word spells.
fn number_of(word: &String) -> Result<u32, Trouble> {
    match word.as_str().parse::<u32>() {
        Ok(number) => Ok(number),
        Err(_) => Err(Trouble::Words),
    }
}

/// What a command asks for with the number of flows.
fn command_of(command: &str, flows: u32) -> Result<Words, Trouble> {
    match command {
        "core" => Ok(Words::Core { flows }),
        "text" => Ok(Words::Text { flows }),
        "watch" => Ok(Words::Watch { flows }),
        _ => Err(Trouble::Words),
    }
}

pub fn read_words(words: &[String]) -> Result<Words, Trouble> {
    match words {
        [_, trials] if trials.as_str() == "trials" => Ok(Words::Trials),
        [_, command, flows] => command_of(command.as_str(), number_of(flows)?),
        [_, journal, flows, prints, reads] if journal.as_str() == "journal" => Ok(Words::Journal {
            flows: number_of(flows)?,
            prints: number_of(prints)?,
            reads: number_of(reads)?,
        }),
        _ => Err(Trouble::Words),
    }
}
