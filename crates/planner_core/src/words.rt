//! The words of the command line.

ghost use Rattle.std.specs.Prelude.{◌≡◌, option_map, IfOk};
ghost use Rattle.command_words.specs.Grammar.{texts};
ghost use Rattle.planner_core.specs.Works.{AreFor};
ghost use Rattle.planner_core.specs.Words.{asked};

use command_words::{Files, Limits, Request, read_words};
use exact_lin::NoMemory;
use std::alloc::Global;

/// A command that is built, with the names of its files and its limits.
#[derive(Clone, Copy)]
pub enum Command<'a> {
    Validate { files: Files<'a>, limits: Limits },
}

/// The command that the words ask for, without the program's name; none where they ask for none that is built.
pub fn read_command<'a>(alloc: Global, words: &'a [String]) -> Result<Option<Command<'a>>, NoMemory>
    ensures { IfOk result (λ read. AreFor (texts words.entry.now) (option_map asked read)) }
{
    match read_words(alloc, words) {
        Err(NoMemory) => Err(NoMemory),
        Ok(None) => Ok(None),
        Ok(Some(Request::Validate { files, limits })) => Ok(Some(Command::Validate {
            files,
            limits,
        })),
        Ok(Some(Request::Schedule { .. })) => Ok(None),
    }
}
