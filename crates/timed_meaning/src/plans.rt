//! Timed plans, built line by line.

ghost use Rattle.std.specs.Prelude.{◌≡◌, ◌<◌, [], length, IsTrue};
ghost use Rattle.std.specs.Bool.{MatchBool};
ghost use Rattle.task_types.specs.declared.parts.TaskParts.{TaskParts};
ghost use Rattle.task_types.specs.Plan.{is_formed};
ghost use Rattle.timed_meaning.specs.TimedPlans.{line_limit, EndIsDefined, IsBuiltFor, Pushes};

use crate::faults::MeaningFault;
use exact_lin::{ActionId, Fraction, Scalar, Wide};
use std::alloc::Global;
use std::marker::Model;
use task_types::{PlanLine, Task};

/// A timed plan: up to 4,096 lines, in the order in which they were pushed.
#[derive(Drop)]
pub struct TimedPlan {
    lines: Vec<PlanLine>,
}

impl Model for TimedPlan {
    ghost use Rattle.task_types.specs.Plan.{Plan};

    ghost Value = { Plan };

    ghost view = { λ p. p.lines.items };
}

impl TimedPlan {
    /// A plan without lines, which is one of every task.
    pub fn new(alloc: Global) -> TimedPlan
        ensures empty { result ≡ [] }
        ensures built { (task : TaskParts) → IsBuiltFor task result }
    {
        TimedPlan {
            lines: Vec::new(alloc),
        }
    }

    /// Puts a line at the end: an action of the task, its start and, of a durative action, its duration; `line` is its
    /// number in the text that it came from. Answers `Wide(line)` exactly where the line's end, `at + duration`, is past
    /// 128 bits.
    pub fn push_line(
        &mut self,
        task: &Task,
        action: ActionId,
        at: Fraction,
        duration: Option<Fraction>,
        line: u32,
    ) -> Result<(), MeaningFault>
        requires few { length self.old < line_limit }
        requires formed { IsTrue (is_formed task.now.parts
            (record { action = action; at = at; duration = duration; line = line })) }
        ensures pushed { Pushes result self.old self.new
            (record { action = action; at = at; duration = duration; line = line }) }
        ensures built { IsBuiltFor task.now.parts self.old → IsBuiltFor task.now.parts self.new }
    {
        let pushed = PlanLine {
            action,
            at,
            duration,
            line,
        };
        if !has_end(&pushed) {
            return Err(MeaningFault::Wide(line));
        }
        match self.lines.push(pushed) {
            Ok(()) => Ok(()),
            Err(_) => Err(MeaningFault::Memory),
        }
    }

    /// The lines, in the order in which they were pushed.
    pub fn lines(&self) -> &[PlanLine]
        ensures { result.now ≡ self.now }
    {
        self.lines.as_slice()
    }
}

// Whether the end of a line is defined.
fn has_end(line: &PlanLine) -> bool
    ensures { MatchBool result (EndIsDefined line.now) (¬ EndIsDefined line.now) }
{
    match line.duration {
        Some(duration) => match line.at.add(duration) {
            Ok(_) => true,
            Err(Wide) => false,
        },
        None => true,
    }
}
