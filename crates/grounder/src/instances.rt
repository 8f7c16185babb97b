//! Bindings of the parameters of actions.

use pddl_terms::ActionDef;
use sqlite_items::Items;

/// A binding of an action's parameters: for each the place of its object among the objects.
#[derive(Drop)]
pub struct Instance<'a> {
    pub action: &'a ActionDef,
    pub args: Items<u32>,
}
