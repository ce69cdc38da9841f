//! Vectors of a fixed number of lanes.

/// The greatest number of lanes of a vector, as rustc has it.
pub const MAX_SIMD_LANES: u16 = 1 << 15;
