//! A command as `clap` is told of it, and what it gives at words.

ghost use Rattle.std.specs.Prelude.{◌≡◌, IfOk, true, false};
ghost use Rattle.clap.specs.Words.{app_of, rule_of, is_simple_and_free};
ghost use Rattle.command_words.specs.Grammar.{texts};
ghost use Rattle.command_words.specs.Forms.{place_rule, option_rule, app_of_form, form_seen, IsReadBy};

use clap::error::ErrorKind;
use clap::{Arg, ArgMatches, Command};
use exact_lin::NoMemory;
use std::alloc::{AllocError, Global};

/// What a command takes: the names of its words and those of its options, each with one value.
#[derive(Clone, Copy)]
pub(crate) struct Form<'a> {
    pub name: &'a str,
    pub places: &'a [&'a str],
    pub options: &'a [&'a str],
}

fn place<'a>(alloc: Global, id: &'a str) -> Arg<'a>
    ensures rule { rule_of result ≡ place_rule id.entry.now }
    ensures local { result.global ≡ false }
{
    Arg::new(alloc, id).required(true)
}

fn option<'a>(alloc: Global, id: &'a str) -> Arg<'a>
    ensures rule { rule_of result ≡ option_rule id.entry.now }
    ensures local { result.global ≡ false }
{
    Arg::new(alloc, id).long(id)
}

fn command_of<'a>(alloc: Global, form: Form<'a>) -> Result<Command<'a>, AllocError>
    ensures { IfOk result (λ command. app_of command ≡ app_of_form (form_seen form.entry)) }
{
    let mut command = Command::new(alloc, form.name);
    for id in form.places {
        command = command.arg(place(alloc, id))?;
    }
    for id in form.options {
        command = command.arg(option(alloc, id))?;
    }
    Ok(command)
}

/// What the words give to the names of the form, or nothing where `clap` refuses them. The first word is the command's
/// name, which `clap` takes for the program's and doesn't read.
pub(crate) fn read_form<'a>(
    alloc: Global,
    form: Form<'a>,
    words: &'a [String],
) -> Result<Option<ArgMatches<'a>>, NoMemory>
    requires { is_simple_and_free (app_of_form (form_seen form)) ≡ true }
    ensures { IfOk result (IsReadBy (form_seen form.entry) (texts words.entry.now)) }
{
    match command_of(alloc, form)?.try_get_matches_from(words) {
        Ok(matches) => Ok(Some(matches)),
        Err(error) => match error.kind() {
            ErrorKind::OutOfMemory => Err(NoMemory),
            _ => Ok(None),
        },
    }
}
