//! Steps are taken one by one.

ghost use Rattle.std.specs.Prelude.{◌≡◌, ◌<◌, ◌^◌, ◌++◌, ◌∷◌, [], suc, length, IfOk, OnOk, OnErr};
ghost use Rattle.std.specs.List.{AllByRecursion};
ghost use Rattle.rate_ledger.specs.Answers.{Gives};
ghost use Rattle.rate_ledger.specs.Ledgers.{Keeps};
ghost use Rattle.rate_ledger.specs.Reckoned.{AreDefined, step_made};

use crate::amounts::changes_at;
use crate::changes::Change;
use crate::list_ledgers::ListLedger;
use crate::nexts::{Next, next_step};
use crate::running::running_after;
use exact_lin::{FormFault, NoMemory, SnapId};
use sqlite_items::Items;
use std::alloc::Global;
use task_types::Task;

impl ListLedger {
    /// A ledger of a list of steps, none of which is taken.
    pub fn new(alloc: Global, task: &Task, steps: &[SnapId]) -> Result<ListLedger, NoMemory>
        requires few { length steps.now < 2 ^ 31 }
        requires in_range { AllByRecursion (λ s. s < length task.now.parts.snaps) steps.now }
        ensures keeps { IfOk result (λ l. Keeps task.now.parts l) }
        ensures begun { IfOk result (λ l. (l.steps ≡ steps.now) × (l.changes ≡ [])) }
    {
        let pending = running_after(alloc, task, steps)?;
        let steps = Items::from_slice(alloc, steps)?;
        Ok(ListLedger {
            steps,
            pending,
            running: Items::new(alloc),
            changes: Items::new(alloc),
        })
    }

    /// Takes the next step. It is taken where all that it reckons is defined, `Wide` comes only where not all is, and
    /// after an Err the ledger is as it was.
    pub fn push(&mut self, alloc: Global, task: &Task) -> Result<(), FormFault>
        requires keeps { Keeps task.now.parts self.old }
        requires next { length self.old.changes < length self.old.steps }
        ensures answer { Gives result (AreDefined (step_made task.now.parts self.old.steps (length self.old.changes))) (λ _. length self.new.changes ≡ suc (length self.old.changes)) }
        ensures keeps { Keeps task.now.parts self.new }
        ensures list { self.new.steps ≡ self.old.steps }
        ensures err { OnErr result (self.new ≡ self.old) }
    {
        let next = next_step(self, alloc, task)?;
        let made = changes_at(self, alloc, task, &next)?;
        self.keep(made, next)
    }

    // Keeps what the next step changed.
    fn keep(&mut self, made: Items<Change>, next: Next) -> Result<(), FormFault>
        ensures ok { Gives result (Unit {0}) (λ _. self.new ≡ record self.old { running = next.running; changes = self.old.changes ++ made ∷ [] }) }
        ensures err { OnErr result (self.new ≡ self.old) }
    {
        match self.changes.push(made) {
            Ok(()) => {
                self.running = next.running;
                Ok(())
            }
            Err(_) => Err(FormFault::Memory),
        }
    }
}
