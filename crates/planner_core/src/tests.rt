//! Runs over files in memory, with the replies and statuses that they are to have.

ghost use Rattle.std.specs.Prelude.{◌≡◌, IfOk};

mod examples;
mod reasons;
mod refusals;
mod rows;

use crate::run;
use outside::{LONGEST_FILE, MemoryDesk, MemorySink};
use std::alloc::{AllocError, Global};
use std::test::Fail;

const USAGE: &str = "usage: fluxplan validate or schedule or plan or check or demo\n";

const VALIDATE: &str = "validate tank.pddl tank_problem.pddl tank.plan";

const DOMAIN: &str = "(define (domain tank)
(:requirements :fluents :durative-actions :continuous-effects)
(:functions (level))
(:durative-action fill
:parameters ()
:duration (= ?duration 5)
:condition (over all (<= (level) 10))
:effect (increase (level) (* #t 2))))
";

const PROBLEM: &str =
    "(define (problem p) (:domain tank) (:init (= (level) 0)) (:goal (>= (level) 10)))\n";

const PLAN: &str = "0.000: (fill) [5.000]\n";

fn split_words(alloc: Global, line: &str) -> Result<Vec<String>, AllocError> {
    let mut words = Vec::new(alloc);
    for word in line.split_whitespace() {
        words.push(String::from_str(alloc, word)?)?;
    }
    Ok(words)
}

// A desk with these files; the one that is named is a byte too long, and the fetch of this
// number fails.
fn desk_of(
    alloc: Global,
    texts: [&str; 3],
    long: &str,
    failing: u64,
) -> Result<MemoryDesk, AllocError>
    ensures { IfOk result (λ desk. desk.faults ≡ 0) }
{
    let mut desk = MemoryDesk::new(alloc);
    desk.add("tank.pddl", texts[0].as_bytes())?;
    desk.add("tank_problem.pddl", texts[1].as_bytes())?;
    desk.add("tank.plan", texts[2].as_bytes())?;
    if !long.is_empty() {
        desk.add(long, &vec![in alloc; b' '; LONGEST_FILE + 1]?)?;
    }
    desk.fail_at(failing)?;
    Ok(desk)
}

// Whether a run over this desk gives this reply and this exit status.
fn replies(
    alloc: Global,
    words: &str,
    desk: MemoryDesk,
    code: u8,
    text: &str,
) -> Result<bool, AllocError>
    requires { desk.faults ≡ 0 }
{
    let words = split_words(alloc, words)?;
    let mut desk = desk;
    let mut sink = MemorySink::new(alloc, 100)?;
    let status = run(alloc, &words, &mut desk, &mut sink);
    Ok(status.code() == code && sink.bytes() == text.as_bytes())
}

#[test]
fn words_are_answered(rt: HostRuntime) -> Result<(), Fail> {
    let alloc = rt.alloc();
    for words in [
        "",
        "repair tank.pddl tank_problem.pddl tank.plan",
        "validate tank.pddl tank_problem.pddl",
        "validate tank.pddl tank_problem.pddl tank.plan tank.plan",
        "validate tank.pddl tank_problem.pddl tank.plan --epsilon 0",
        "validate tank.pddl tank_problem.pddl tank.plan --horizon",
        "validate --help",
        "schedule tank.pddl tank_problem.pddl tank.plan",
    ] {
        let desk = desk_of(alloc, [DOMAIN, PROBLEM, PLAN], "", 1)?;
        assert!(rt; replies(alloc, words, desk, 2, USAGE)?, "{words}");
    }
    Ok(())
}

#[test]
fn options_are_rules(rt: HostRuntime) -> Result<(), Fail> {
    let alloc = rt.alloc();
    for (words, code, text) in [
        (
            "validate --horizon 5 tank.pddl tank_problem.pddl tank.plan",
            0,
            "valid cost 5.000\n",
        ),
        (
            "validate --horizon 4.999 tank.pddl tank_problem.pddl tank.plan",
            1,
            "invalid time line 1\n",
        ),
        (
            "validate tank.pddl tank_problem.pddl tank.plan --epsilon=5",
            0,
            "valid cost 5.000\n",
        ),
        (
            "validate tank.pddl tank_problem.pddl tank.plan --epsilon=26/5",
            1,
            "invalid duration line 1\n",
        ),
    ] {
        let desk = desk_of(alloc, [DOMAIN, PROBLEM, PLAN], "", 0)?;
        assert!(rt; replies(alloc, words, desk, code, text)?, "{words}");
    }
    Ok(())
}

#[test]
fn fetches_are_answered(rt: HostRuntime) -> Result<(), Fail> {
    let alloc = rt.alloc();
    for (long, failing, code, text) in [
        ("", 0, 0, "valid cost 5.000\n"),
        ("", 1, 5, "read fault tank.pddl\n"),
        ("", 2, 5, "read fault tank_problem.pddl\n"),
        ("", 3, 5, "read fault tank.plan\n"),
        ("tank.pddl", 2, 3, "refused domain Long 1048577\n"),
        ("tank_problem.pddl", 3, 3, "refused problem Long 1048577\n"),
        ("tank.plan", 0, 3, "refused plan Long 1048577\n"),
    ] {
        let desk = desk_of(alloc, [DOMAIN, PROBLEM, PLAN], long, failing)?;
        assert!(rt; replies(alloc, VALIDATE, desk, code, text)?, "{text}");
    }
    Ok(())
}

// The exit status of a run over the tank that is written to this sink.
fn written(alloc: Global, sink: &mut MemorySink) -> Result<u8, AllocError>
    requires { sink.old.puts ≡ 0 }
{
    let words = split_words(alloc, VALIDATE)?;
    let mut desk = desk_of(alloc, [DOMAIN, PROBLEM, PLAN], "", 0)?;
    Ok(run(alloc, &words, &mut desk, sink).code())
}

#[test]
fn a_reply_goes_out_in_one_put(rt: HostRuntime) -> Result<(), Fail> {
    let alloc = rt.alloc();
    for (room, call, code, text) in [
        (100, 1, 6, "val"),
        (10, 0, 6, "valid cost"),
        (100, 2, 0, "valid cost 5.000\n"),
    ] {
        let mut sink = MemorySink::new(alloc, room)?;
        sink.fail_at(call, 3)?;
        assert_eq!(rt; written(alloc, &mut sink)?, code);
        assert!(rt; sink.bytes() == text.as_bytes(), "{text}");
    }
    Ok(())
}

// Whether these texts are answered so.
fn answers(alloc: Global, texts: [&str; 3], code: u8, text: &str) -> Result<bool, AllocError> {
    replies(alloc, VALIDATE, desk_of(alloc, texts, "", 0)?, code, text)
}
