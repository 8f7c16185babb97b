//! What the readers of domains and problems see to, and what grounding needs: a domain and a problem that their readers
//! accept are such as the grounder asks for.
#![tactic(auto)]

pub mod laws;
#[cfg(test)]
mod tests;
