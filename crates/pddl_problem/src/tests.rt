//! Problems that are accepted, and what the others are refused for.

mod kinds;
mod shapes;
mod worked;
