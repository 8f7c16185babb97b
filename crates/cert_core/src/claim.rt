//! What a certificate claims of a program.

/// What a certificate claims of a program.
#[derive(Clone, Copy, Drop)]
pub enum Claim<S> {
    /// It has no solution.
    Empty,
    /// Each solution costs at least so much.
    AtLeast(S),
}
