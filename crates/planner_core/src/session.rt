//! A run of the program: the words, the fetches, the reply, and its delivery.

ghost use Rattle.std.specs.Prelude.{◌≡◌, ◌≢◌, ◌⊎◌, ◌↔◌, ◌+◌, ◌<◌, ◌^◌, ◌-◌, None};
ghost use Rattle.command_words.specs.Grammar.{texts};
ghost use Rattle.command_words.specs.Requests.{files_seen};
ghost use Rattle.planner_core.specs.Works.{AreFor, IsFileAsked, work_of_request, validate_work};
ghost use Rattle.planner_core.specs.Words.{asked};
ghost use Rattle.planner_core.specs.Sessions.{Came, CameByWords, Ran};
ghost use Rattle.planner_core.specs.Stops.{outcome, reply_said};
ghost use Rattle.planner_core.specs.Headline.{Printed, TellsValid, TellsInvalid};

use crate::fetching::{Stop, fetch_file};
use crate::reply::{Reply, Role, too_long_reply, usage_reply};
use crate::status::Status;
use crate::validation::{rules_of, validation_reply};
use crate::words::{Command, read_command};
use command_words::{Files, Limits};
use exact_lin::NoMemory;
use outside::{Desk, Failed, Sink};
use std::alloc::Global;

/// Runs the program: from the words of the command line, without the program's name, to the reply
/// in the sink, which goes out whole in one put.
///
/// So far `validate DOMAIN PROBLEM PLAN`, with `--epsilon` and `--horizon`, is the one command.
pub fn run<D: Desk, K: Sink>(alloc: Global, words: &[String], desk: &mut D, sink: &mut K) -> Status
    requires desk_count { (D.told desk.old).faults < 2 ^ 64 - 1 }
    requires sink_count { (K.told sink.old).puts < 2 ^ 64 - 1 }

    // What the words ask for, and some answers of its fetches, lead to a reply. It was written whole, or the sink failed.
    ensures ran { result ≢ Status.NoMemory → Ran (texts words.now)
        (D.told desk.old) (D.told desk.new) (K.told sink.old) (K.told sink.new) result }

    // Want of memory leaves the outside as it was.
    ensures no_memory { result ≡ Status.NoMemory →
        (D.told desk.new ≡ D.told desk.old) × (K.told sink.new ≡ K.told sink.old) }

    // A verdict is printed only where the files hold such a task and such a plan: valid at every instant and of this
    // cost, or not valid, with its first reason.
    ensures valid { result ≡ Status.Done → Printed TellsValid (texts words.now)
        (D.told desk.old).files (K.told sink.old) (K.told sink.new) }
    ensures invalid { result ≡ Status.Negative → Printed TellsInvalid (texts words.now)
        (D.told desk.old).files (K.told sink.old) (K.told sink.new) }

    // The table of answers, a row a clause.
    ensures one_put { result ≢ Status.NoMemory →
        (K.told sink.new).puts ≡ (K.told sink.old).puts + 1 }
    ensures usage { result ≡ Status.Usage → AreFor (texts words.now) None }
    ensures not_accepted { AreFor (texts words.now) None →
        (result ≡ Status.Usage) ⊎ (result ≡ Status.WriteFault)
        ⊎ (result ≡ Status.NoMemory) }
    ensures read_fault { (result ≡ Status.ReadFault)
        ↔ ((D.told desk.old).faults < (D.told desk.new).faults)
        × ((K.told sink.new).faults ≡ (K.told sink.old).faults) }
    ensures fault_name { (D.told desk.old).faults < (D.told desk.new).faults
        → IsFileAsked (texts words.now) (D.told desk.new).fault_name }
    ensures write_fault { (result ≡ Status.WriteFault)
        ↔ ((K.told sink.old).faults < (K.told sink.new).faults) }
{
    let Ok(reply) = reply_to(alloc, words, desk) else {
        return Status::NoMemory;
    };
    match sink.put(reply.text()) {
        Ok(()) => reply.status(),
        Err(Failed) => Status::WriteFault,
    }
}

// The reply to the words. Where a fetch failed it says so, and want of memory leaves no fault.
fn reply_to<D: Desk>(alloc: Global, words: &[String], desk: &mut D) -> Result<Reply, NoMemory>
    requires { (D.told desk.old).faults < 2 ^ 64 - 1 }
    ensures { CameByWords (texts words.now)
        (D.told desk.old) (D.told desk.new) (reply_said result) }
{
    match perform(alloc, words, desk) {
        Ok(reply) => Ok(reply),
        Err(Stop::Fault(text)) => Ok(Reply::new(Status::ReadFault, text)),
        Err(Stop::Long(role, count)) => too_long_reply(alloc, role, count),
        Err(Stop::Memory) => Err(NoMemory),
    }
}

// Does what the words ask for.
fn perform<D: Desk>(alloc: Global, words: &[String], desk: &mut D) -> Result<Reply, Stop>
    requires { (D.told desk.old).faults < 2 ^ 64 - 1 }
    ensures { CameByWords (texts words.now)
        (D.told desk.old) (D.told desk.new) (outcome result) }
{
    match read_command(alloc, words) {
        Err(NoMemory) => Err(Stop::Memory),
        Ok(None) => Ok(usage_reply(alloc)?),
        Ok(Some(command)) => carry_out(alloc, desk, &command),
    }
}

// Does what a command asks for.
fn carry_out<D: Desk>(alloc: Global, desk: &mut D, command: &Command<'_>) -> Result<Reply, Stop>
    requires { (D.told desk.old).faults < 2 ^ 64 - 1 }
    ensures { Came (work_of_request (asked command.now))
        (D.told desk.old) (D.told desk.new) (outcome result) }
{
    match command {
        Command::Validate { files, limits } => validate(alloc, desk, *files, *limits),
    }
}

// `validate`: fetches the three files one after another, and answers their texts.
fn validate<D: Desk>(
    alloc: Global,
    desk: &mut D,
    files: Files<'_>,
    limits: Limits,
) -> Result<Reply, Stop>
    requires { (D.told desk.old).faults < 2 ^ 64 - 1 }
    ensures { Came (validate_work (files_seen files.entry) limits)
        (D.told desk.old) (D.told desk.new) (outcome result) }
{
    let domain_text = fetch_file(alloc, desk, Role::Domain, files.domain)?;
    let problem_text = fetch_file(alloc, desk, Role::Problem, files.problem)?;
    let plan_text = fetch_file(alloc, desk, Role::Plan, files.third)?;
    let rules = rules_of(limits);
    Ok(validation_reply(alloc, &rules, &domain_text, &problem_text, &plan_text)?)
}
