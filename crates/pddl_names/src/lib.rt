//! What the names of a domain and of a problem stand for: what is declared, which type is below which, and the first
//! name that isn't declared or is declared twice, the first term of a wrong type.
#![tactic(auto)]

mod calls;
mod conditions;
mod constraints;
mod declarations;
mod domains;
mod effects;
mod equality;
mod expressions;
mod fitting;
mod formulas;
mod goals;
mod laws;
mod names;
mod offences;
mod preferences;
mod problems;
mod scope;
mod sides;
mod tables;
mod typed_lists;

pub use declarations::Tables;
pub use domains::{first_name_offence, first_type_offence};
pub use equality::is_equality;
pub use fitting::fits;
pub use laws::{examples_come_out, fitting_is_an_order, least_offence_is_first};
pub use names::Names;
pub use offences::{Offence, Phase, earlier};
pub use problems::{first_problem_name_offence, first_problem_type_offence};
pub use tables::Table;

#[cfg(test)]
mod tests;
