//! Small tasks from their texts: how much each of them holds, and in which order its actions stand.

use grounder::ground;
use pddl_domain::read_domain;
use pddl_problem::read_problem;
use std::alloc::Global;
use task_types::Task;

mod made;
mod small;

const LONGEST: usize = 1_048_576;

// How many facts, fluents, actions, snap actions, timed steps and soft terms a task has.
#[derive(Clone, Copy, PartialEq, Eq, Drop)]
struct Size {
    facts: usize,
    fluents: usize,
    actions: usize,
    snaps: usize,
    timed: usize,
    soft: usize,
}

// The task of a domain and a problem; none where they aren't read or have no task.
fn task_of(alloc: Global, domain: &[u8], problem: &[u8]) -> Option<Task> {
    if domain.len() > LONGEST || problem.len() > LONGEST {
        return None;
    }
    match read_domain(alloc, domain) {
        Ok(domain) => match read_problem(alloc, problem, &domain) {
            Ok(problem) => ground(alloc, &domain, &problem).ok(),
            Err(_) => None,
        },
        Err(_) => None,
    }
}

fn size_of(alloc: Global, domain: &[u8], problem: &[u8]) -> Option<Size> {
    let task = task_of(alloc, domain, problem)?;
    Some(Size {
        facts: task.facts().len(),
        fluents: task.fluents().len(),
        actions: task.actions().len(),
        snaps: task.snaps().len(),
        timed: task.timed().len(),
        soft: task.soft().len(),
    })
}

// The size of a task without timed steps and soft terms.
fn plain(facts: usize, fluents: usize, actions: usize, snaps: usize) -> Size {
    Size {
        facts,
        fluents,
        actions,
        snaps,
        timed: 0,
        soft: 0,
    }
}
