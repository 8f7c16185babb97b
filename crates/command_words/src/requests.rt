//! What words ask for.

ghost use Rattle.std.specs.Prelude.{◌≡◌, IfOk, MatchOption, true, codes};
ghost use Rattle.basics.specs.Texts.{ReadsExactly};
ghost use Rattle.clap.specs.Words.{found_of, first_value};
ghost use Rattle.command_words.specs.Grammar.{texts};
ghost use Rattle.command_words.specs.Forms.{form_seen};
ghost use Rattle.command_words.specs.Requests.{Asked, FileNames, validate_form, schedule_form, NamesFiles, SetsLimits, SetsValidate, SetsSchedule, AsksBy, Asks, begins_with, files_seen, request_seen};

use crate::forms::{Form, read_form};
use crate::values::{count_given, number_given};
use clap::ArgMatches;
use exact_lin::{Fraction, NoMemory};
use std::alloc::Global;

/// The names of a command's files: a domain, a problem, and a plan or an ordering.
#[derive(Clone, Copy)]
pub struct Files<'a> {
    pub domain: &'a str,
    pub problem: &'a str,
    pub third: &'a str,
}

/// The least distance between happenings that don't go together, and the latest time; both are above 0.
#[derive(Clone, Copy)]
pub struct Limits {
    pub epsilon: Fraction,
    pub horizon: Fraction,
}

/// What the words ask for. `pivots` bounds the pivots of each linear program, `leaves` the programs of one tree of decisions.
#[derive(Clone, Copy)]
pub enum Request<'a> {
    Validate {
        files: Files<'a>,
        limits: Limits,
    },
    Schedule {
        files: Files<'a>,
        limits: Limits,
        pivots: u64,
        leaves: u64,
    },
}

static VALIDATE_PLACES: [&str; 3] = ["domain", "problem", "plan"];

static SCHEDULE_PLACES: [&str; 3] = ["domain", "problem", "ordering"];

static VALIDATE_OPTIONS: [&str; 2] = ["epsilon", "horizon"];

static SCHEDULE_OPTIONS: [&str; 4] = ["epsilon", "horizon", "pivots", "leaves"];

fn validate_form() -> Form<'static>
    ensures { form_seen result ≡ validate_form }
{
    Form {
        name: "validate",
        places: VALIDATE_PLACES.as_slice(),
        options: VALIDATE_OPTIONS.as_slice(),
    }
}

fn schedule_form() -> Form<'static>
    ensures { form_seen result ≡ schedule_form }
{
    Form {
        name: "schedule",
        places: SCHEDULE_PLACES.as_slice(),
        options: SCHEDULE_OPTIONS.as_slice(),
    }
}

fn files_named<'a>(matches: &ArgMatches<'a>, third: &str) -> Option<Files<'a>>
    ensures { MatchOption result
        ((f : FileNames) → ¬ (NamesFiles (first_value (found_of matches.now)) third.now f))
        (λ f. NamesFiles (first_value (found_of matches.now)) third.now (files_seen f)) }
{
    Some(Files {
        domain: matches.get_str("domain")?,
        problem: matches.get_str("problem")?,
        third: matches.get_str(third)?,
    })
}

fn limits_set(matches: &ArgMatches<'_>) -> Option<Limits>
    ensures { ReadsExactly result (SetsLimits (first_value (found_of matches.now))) }
{
    let epsilon = number_given(
        matches.get_str("epsilon"),
        Fraction::of_parts(1, 1000)?,
        Fraction::of_parts(1000, 1)?,
    )?;
    let horizon = number_given(
        matches.get_str("horizon"),
        Fraction::of_parts(1_000_000, 1)?,
        Fraction::of_parts(1_000_000_000, 1)?,
    )?;
    Some(Limits { epsilon, horizon })
}

fn validate_asked<'a>(matches: &ArgMatches<'a>) -> Option<Request<'a>>
    ensures { MatchOption result
        ((r : Asked) → ¬ (SetsValidate (first_value (found_of matches.now)) r))
        (λ r. SetsValidate (first_value (found_of matches.now)) (request_seen r)) }
{
    let files = files_named(matches, "plan")?;
    let limits = limits_set(matches)?;
    Some(Request::Validate { files, limits })
}

fn schedule_asked<'a>(matches: &ArgMatches<'a>) -> Option<Request<'a>>
    ensures { MatchOption result
        ((r : Asked) → ¬ (SetsSchedule (first_value (found_of matches.now)) r))
        (λ r. SetsSchedule (first_value (found_of matches.now)) (request_seen r)) }
{
    let files = files_named(matches, "ordering")?;
    let limits = limits_set(matches)?;
    let pivots = count_given(matches.get_str("pivots"), 20_000, 0, 1_000_000)?;
    let leaves = count_given(matches.get_str("leaves"), 4096, 1, 65_536)?;
    Some(Request::Schedule {
        files,
        limits,
        pivots,
        leaves,
    })
}

fn read_validate<'a>(alloc: Global, words: &'a [String]) -> Result<Option<Request<'a>>, NoMemory>
    requires { begins_with (codes "validate") (texts words.now) ≡ true }
    ensures { IfOk result (λ read. MatchOption read
        ((r : Asked) → ¬ (AsksBy validate_form SetsValidate (texts words.entry.now) r))
        (λ r. AsksBy validate_form SetsValidate (texts words.entry.now) (request_seen r))) }
{
    match read_form(alloc, validate_form(), words)? {
        Some(matches) => Ok(validate_asked(&matches)),
        None => Ok(None),
    }
}

fn read_schedule<'a>(alloc: Global, words: &'a [String]) -> Result<Option<Request<'a>>, NoMemory>
    requires { begins_with (codes "schedule") (texts words.now) ≡ true }
    ensures { IfOk result (λ read. MatchOption read
        ((r : Asked) → ¬ (AsksBy schedule_form SetsSchedule (texts words.entry.now) r))
        (λ r. AsksBy schedule_form SetsSchedule (texts words.entry.now) (request_seen r))) }
{
    match read_form(alloc, schedule_form(), words)? {
        Some(matches) => Ok(schedule_asked(&matches)),
        None => Ok(None),
    }
}

fn begins_with(words: &[String], name: &str) -> bool
    ensures { result ≡ begins_with name.now (texts words.now) }
{
    match words {
        [word, ..] => word.as_str() == name,
        [] => false,
    }
}

/// What the words behind the program's name ask for, or nothing where they ask for nothing: no such command, words that
/// `clap` refuses or answers by a help text, or a value out of form or range.
pub fn read_words<'a>(alloc: Global, words: &'a [String]) -> Result<Option<Request<'a>>, NoMemory>
    ensures { IfOk result (λ read. MatchOption read
        ((r : Asked) → ¬ (Asks (texts words.entry.now) r))
        (λ r. Asks (texts words.entry.now) (request_seen r))) }
{
    if begins_with(words, "validate") {
        read_validate(alloc, words)
    } else if begins_with(words, "schedule") {
        read_schedule(alloc, words)
    } else {
        Ok(None)
    }
}
