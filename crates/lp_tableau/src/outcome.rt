//! How a chain of pivots ended.

/// How `solve` ended.
#[derive(Clone, Copy, Debug, Drop, PartialEq, Eq)]
pub enum Outcome {
    /// The point is a solution of least cost.
    Optimal,
    /// The program has no solution.
    Infeasible,
    /// So many pivots were made, the whole budget, and the end is not reached.
    Spent(u64),
    /// So many pivots were made, and the next one is not defined in the numbers' width.
    Wide(u64),
}
