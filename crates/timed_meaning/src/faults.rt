//! Why a meaning wasn't told.

/// Why a call that speaks of a timed plan has no answer.
#[derive(Clone, Copy, Debug, PartialEq, Eq)]
pub enum MeaningFault {
    /// A sum or a product is past 128 bits, at a line of the plan or at a happening, as the call says.
    Wide(u32),

    /// There was no memory left.
    Memory,
}
