//! The layout calculator: the layouts of types that have parts.
#![tactic(auto)]

// The calculator, and its calls for arrays, lists, unions and vectors.
mod array;
mod calculator;
mod in_order;
mod list;
mod simd;
mod unions;

// Structs and enums, and coroutines.
mod coroutine;
mod enums;

pub use calculator::LayoutCalculator;
pub use coroutine::state_tag;
