//! What is wrong in the forms of domains and problems that are read: strict comparisons, nonlinear expressions, what is
//! left out, unknown requirements, timed literals that contradict each other; and the limits.
#![tactic(auto)]

mod conditions;
mod effects;
mod expressions;
mod forms;
mod formulas;
mod functions;
mod goals;
mod keys;
mod laws;
mod limits;
mod offences;
mod requirements;
mod time_costs;
mod timed_literals;
mod typed_lists;

pub use forms::{domain_form_offence, metric_form_offence, problem_form_offence};
pub use formulas::Around;
pub use functions::Functions;
pub use laws::accepted_files_keep_to;
pub use limits::{
    MOST_OBJECTS, MOST_PARAMETERS, MOST_PIECES, domain_limit_offence, problem_limit_offence,
};

#[cfg(test)]
mod tests;
