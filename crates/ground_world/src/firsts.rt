//! Names, and what is declared of each where it first stands.

ghost use Rattle.std.specs.Prelude.{[], List, OnOk};
ghost use Rattle.pddl_names.specs.Declarations.{Text, with_first};
ghost use Rattle.ground_world.specs.Building.{Lists};

use exact_lin::NoMemory;
use pddl_names::Names;
use sqlite_items::Items;
use std::alloc::Global;

/// Names in the order in which they first came, and at the same places what is declared of them there.
#[derive(Drop)]
pub(crate) struct Firsts<V> {
    pub names: Names,
    pub values: Items<V>,
}

impl<V: Drop> Firsts<V> {
    /// No names.
    pub(crate) fn new(alloc: Global) -> Firsts<V>
        ensures { Lists {V = V} result.names result.values [] }
    {
        Firsts {
            names: Names::new(alloc),
            values: Items::new(alloc),
        }
    }

    /// Puts a name with its value at the end, unless the name is there.
    pub(crate) fn add(&mut self, alloc: Global, name: &[u8], value: V) -> Result<(), NoMemory>
        ensures { OnOk result ((es : List (Text × V)) → Lists self.old.names self.old.values es
            → Lists self.new.names self.new.values (with_first es (name.now, value))) }
    {
        if self.names.has(name) {
            return Ok(());
        }
        self.names.add(alloc, name)?;
        self.values.push(value)?;
        Ok(())
    }
}
