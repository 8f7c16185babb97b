//! Where the goal, its preferences and the metric are at fault.

/// The least place of an undefined reckoning, and the least place of a fluent without a value or of a divisor of value 0.
#[derive(Clone, Copy, Drop)]
pub struct FaultPlaces {
    pub wide: Option<u32>,
    pub none: Option<u32>,
}
