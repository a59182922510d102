//! What the words after the program's own name ask for.

use crate::heavy::{Load, Shape};
use crate::runs::Driver;
use trial_ends::Trouble;

/// The runtimes that are tried, and their names.
pub const DRIVERS: &[(Driver, &str)] = &[
    (Driver::Event, "event"),
    (Driver::Helpers(1), "event=1"),
    (Driver::Helpers(2), "event=2"),
    (Driver::Helpers(16), "event=16"),
    (Driver::PerFlow, "perflow"),
    (Driver::Pool(1), "pool=1"),
    (Driver::Pool(2), "pool=2"),
    (Driver::Pool(4), "pool=4"),
    (Driver::Pool(16), "pool=16"),
];

/// Those that only the benches drive.
const BENCHED: &[(Driver, &str)] = &[(Driver::Helpers(4), "event=4")];

#[derive(Clone, Copy)]
pub enum Words {
    Trials,
    Heavy {
        driver: Driver,
        load: Load,
    },
    Seeds {
        driver: Driver,
        seeds: u32,
    },
    Held {
        driver: Driver,
        flows: u32,
        holder: u32,
    },
}

fn driver_of(word: &str) -> Result<Driver, Trouble> {
    for (driver, name) in DRIVERS.iter().chain(BENCHED.iter()) {
        if *name == word {
            return Ok(*driver);
        }
    }
    Err(Trouble::Words)
}

fn number_of(word: &str) -> Result<u32, Trouble> {
    match word.parse::<u32>() {
        Ok(number) => Ok(number),
        Err(_) => Err(Trouble::Words),
    }
}

fn shape_of(word: &str) -> Result<Shape, Trouble> {
    match word {
        "free" => Ok(Shape::Free),
        "one-key" => Ok(Shape::OneKey),
        "halves" => Ok(Shape::Halves),
        "nested" => Ok(Shape::Nested),
        _ => Err(Trouble::Words),
    }
}

fn heavy_of(driver: &str, shape: &str, flows: &str, rounds: &str) -> Result<Words, Trouble> {
    Ok(Words::Heavy {
        driver: driver_of(driver)?,
        load: Load {
            shape: shape_of(shape)?,
            flows: number_of(flows)?,
            rounds: u64::from(number_of(rounds)?),
        },
    })
}

fn seeds_of(driver: &str, seeds: &str) -> Result<Words, Trouble> {
    Ok(Words::Seeds {
        driver: driver_of(driver)?,
        seeds: number_of(seeds)?,
    })
}

fn held_of(driver: &str, flows: &str, holder: &str) -> Result<Words, Trouble> {
    Ok(Words::Held {
        driver: driver_of(driver)?,
        flows: number_of(flows)?,
        holder: number_of(holder)?,
    })
}

pub fn read_words(words: &[String]) -> Result<Words, Trouble> {
    match words {
        [_] => Ok(Words::Trials),
        [_, heavy, driver, shape, flows, rounds] if heavy.as_str() == "heavy" => heavy_of(
            driver.as_str(),
            shape.as_str(),
            flows.as_str(),
            rounds.as_str(),
        ),
        [_, many, driver, seeds] if many.as_str() == "seeds" => {
            seeds_of(driver.as_str(), seeds.as_str())
        }
        [_, held, driver, flows, holder] if held.as_str() == "held" => {
            held_of(driver.as_str(), flows.as_str(), holder.as_str())
        }
        _ => Err(Trouble::Words),
    }
}
