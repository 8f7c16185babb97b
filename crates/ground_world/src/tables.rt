//! What is looked up again and again of a domain and a problem.

ghost use Rattle.std.specs.Prelude.{◌<◌, ◌^◌, ◌-◌, length};

use crate::numbering::Numbering;
use crate::places::Places;
use exact_lin::Fraction;
use pddl_names::Names;
use sqlite_items::Items;

/// What a domain and a problem declare, what is static, and the first state, as tables.
///
/// `columns` has for each of `sorts` the objects that fit it, and `others` those that fit any other type.
/// `changed_predicates` and `changed_functions` have the places of those that aren't static. `values` has the first
/// values of the fluents `given`.
#[derive(Drop)]
pub struct Tables {
    pub objects: Names,
    pub predicates: Names,
    pub functions: Names,
    pub sorts: Names,
    pub columns: Items<Items<u32>>,
    pub others: Items<u32>,
    pub changed_predicates: Places,
    pub changed_functions: Places,
    pub held: Numbering,
    pub given: Numbering,
    pub values: Items<Fraction>,
    pub fluents: Numbering,
    pub ghost few_objects: { length objects < 2 ^ 32 - 1 },
    pub ghost few_predicates: { length predicates < 2 ^ 32 - 1 },
    pub ghost few_functions: { length functions < 2 ^ 32 - 1 },
    pub ghost few_fluents: { length fluents < 2 ^ 31 },
}
