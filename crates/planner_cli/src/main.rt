//! The program: it runs the planner over the files and the standard output of the machine.
#![tactic(auto)]

ghost use Rattle.std.specs.Prelude.{◌≡◌};
ghost use Rattle.std.specs.Process.{exit_status};
ghost use Rattle.planner_core.specs.Replies.{code_of};

use outside::{HostDesk, HostSink, machine_words};
use planner_core::{Status, run};
use std::process::ExitCode;

// What the process ends with after a run.
fn exit_code(status: Status) -> ExitCode
    ensures { exit_status result ≡ code_of status }
{
    ExitCode::from(status.code())
}

fn main(rt: HostRuntime) -> ExitCode {
    let Ok(words) = machine_words(rt.alloc(), &rt) else {
        return exit_code(Status::NoMemory);
    };
    let mut desk = HostDesk::new(&rt);
    let mut sink = HostSink::new(&rt);
    exit_code(run(rt.alloc(), &words, &mut desk, &mut sink))
}
