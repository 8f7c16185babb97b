//! What a plan costs: its metric with preferences and time costs, reckoned exactly along one pass over its happenings.
#![tactic(auto)]

mod comparing;
mod costing;
mod following;
mod late;
mod pieces;
mod terms;
#[cfg(test)]
mod tests;
mod total_time;
mod watch;
mod watch_lists;
mod watchers;

pub use costing::cost;
pub use watchers::CostWatchers;
