//! The headline, as the contracts of functions that do nothing.

ghost use Rattle.flux_headline.specs.Headline.{RunsAreTrue, RunsAreAnswered};
ghost use Rattle.flux_headline.specs.Audits.{YesIsTrue, NoIsTrue, AuditsAreAnswered};
ghost use Rattle.flux_headline.specs.Upheld.{RunTextsReadBack, RunTextsAreUpheld, RunsAreUpheld, LoadsAreUpheld};
ghost use Rattle.flux_headline.specs.Loads.{LoadsAreTrue, LoadsAreAnswered};
ghost use Rattle.flux_headline.specs.Simulations.{SimulationsAreTrue, SimulationsAreAnswered, SimulationsAreOne};
ghost use Rattle.flux_headline.specs.Swarms.{SwarmsAreTrue, SwarmsAreRefuted, SwarmsAreAnswered, TrackersNodesAreBuiltIn, AddressesHaveSixBytes};
ghost use Rattle.flux_headline.specs.Groups.{CounterIsBuiltIn, WebIsBuiltIn, CachingIsBuiltIn, TrackerIsBuiltIn};
ghost use Rattle.flux_headline.specs.Prints.{PrintsAreTrue, LooksAreAnswered};
ghost use Rattle.flux_headline.specs.ServedHeadline.{ServingIsTrue, ServingIsAnswered};
ghost use Rattle.flux_headline.specs.Explained.{StatusesHaveCauses, CausesAreAnswered, NoCommandIsUsage, UsageIsForNoCommand};

use nodes_all::{has_caching, has_counter, has_tracker, has_web};

/// Where the words spell `run` and `top` has answered 0, it has printed the journal of a true run of the items of the
/// one file through the program of the other.
pub fn runs_are_true()
    ensures { RunsAreTrue }
{}

/// Where a sound program and items of it are there, and no reading or writing fails, `run` answers 0, unless memory is
/// short.
pub fn runs_are_answered()
    ensures { RunsAreAnswered }
{}

/// Where the words spell `audit` and `top` has answered 0, the journal is that of a true run; where it has answered 8,
/// it has printed the first line that breaks a rule.
pub fn audits_are_true()
    ensures yes { YesIsTrue }
    ensures no { NoIsTrue }
{}

/// Where a sound program, items of it and a journal's file are there, and no reading or writing fails, `audit` answers 0
/// or 8, unless memory is short.
pub fn audits_are_answered()
    ensures { AuditsAreAnswered }
{}

/// What `run` prints reads back as the journal of the run and as no other, and `audit` says `ok` to it, with the number of
/// that journal's entries, where it is within the limit of journals' files.
pub fn runs_are_upheld()
    ensures reads { RunTextsReadBack }
    ensures upheld { RunTextsAreUpheld }
    ensures calls { RunsAreUpheld }
{}

/// The journal of which `load` prints a summary is one that `audit` upholds, and its items are as many as were asked for.
pub fn loads_are_upheld()
    ensures { LoadsAreUpheld }
{}

/// Where the words spell `load` and `top` has answered 0, it has printed the summary of a true run of its own texts.
pub fn loads_are_true()
    ensures { LoadsAreTrue }
{}

/// Where the program of a load is sound and its items have no fault, and no writing fails, `load` answers 0, unless
/// memory is short.
pub fn loads_are_answered()
    ensures { LoadsAreAnswered }
{}

/// Where the words spell `simulate` and `top` has answered 0, it has printed the three numbers of a run of the items on
/// so many simulated processors.
pub fn simulations_are_true()
    ensures { SimulationsAreTrue }
{}

/// Where a sound program and items of it are there, and no reading or writing fails, `simulate` answers 0, unless memory
/// is short.
pub fn simulations_are_answered()
    ensures { SimulationsAreAnswered }
{}

/// What `simulate` prints of two files, with the same documents and options, is one text: its three numbers are those of the
/// rule of simulated processors.
pub fn simulations_are_one()
    ensures { SimulationsAreOne }
{}

/// Where the words spell `swarm` and `top` has answered 0, the journal is that of a true run, and it has printed how many
/// peers the hash has after it, and each with its number left; where it has answered 8, it has printed the first line
/// that breaks a rule.
pub fn swarms_are_true()
    ensures yes { SwarmsAreTrue }
    ensures no { SwarmsAreRefuted }
{}

/// The library that the program is built with has all that each group of nodes has, and means the same by it.
pub fn groups_are_built_in()
    ensures counter { CounterIsBuiltIn }
    ensures web { WebIsBuiltIn }
    ensures caching { CachingIsBuiltIn }
    ensures tracker { TrackerIsBuiltIn }
{
    has_counter();
    has_web();
    has_caching();
    has_tracker();
}

/// The library that the program is built with has the nodes of `Tracker`, and means the same by them.
pub fn trackers_nodes_are_built_in()
    ensures { TrackersNodesAreBuiltIn }
{
    groups_are_built_in();
}

/// Each address that `swarm` lists has six bytes.
pub fn addresses_have_six_bytes()
    ensures { AddressesHaveSixBytes }
{
    trackers_nodes_are_built_in();
}

/// Where a sound program, items of it and a journal's file are there, and no reading or writing fails, `swarm` answers 0
/// or 8, unless memory is short.
pub fn swarms_are_answered()
    ensures { SwarmsAreAnswered }
{}

/// Where the words spell `check`, `plan`, `format` or `help` and `top` has answered 0, it has printed the report, the
/// plan or the formatted text of what the file has, or the commands.
pub fn prints_are_true()
    ensures { PrintsAreTrue }
{}

/// Where what these look at is there, and no reading or writing fails, they answer 0, unless memory is short.
pub fn looks_are_answered()
    ensures { LooksAreAnswered }
{}

/// Where the words spell `serve` and `top` has answered 0, it has served the program of the file until the door was closed,
/// or as many batches as were wanted.
pub fn serving_is_true()
    ensures { ServingIsTrue }
{}

/// Where a program that can be served is there, and no reading, writing or accepting fails, `serve` answers 0, unless
/// memory is short.
pub fn serving_is_answered()
    ensures { ServingIsAnswered }
{}

/// Each status that `top` answers has its cause, and what the files and the folder of a command decide is what `top`
/// answers, where all of it is reported, no reading or writing fails, nor the door, and memory isn't short. Status 2 is for
/// words that are no command, and for no others.
pub fn statuses_are_explained()
    ensures causes { StatusesHaveCauses }
    ensures answered { CausesAreAnswered }
    ensures none { NoCommandIsUsage }
    ensures usage { UsageIsForNoCommand }
{}
