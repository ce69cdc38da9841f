//! How many lanes a vector has.

ghost use Rattle.std.specs.Prelude.{◌≡◌, ℕ, Result, IsTrue, ◌↔◌};
ghost use Rattle.std.specs.Int.{IsPowerOfTwo};
ghost use Rattle.abi_scalar.specs.LaneCount.{lane_count};

use crate::error::LayoutCalculatorError;
use abi_base::MAX_SIMD_LANES;
use std::marker::Model;

/// How many lanes a vector has: 1 to 32768.
#[derive(Clone, Copy, PartialEq, Eq, PartialOrd, Ord, Hash, Debug)]
pub struct BackendLaneCount {
    lanes: u16,
}

impl Model for BackendLaneCount {
    ghost use Rattle.std.specs.Prelude.{ℕ, ◌≤◌};
    ghost use Rattle.abi_scalar.specs.LaneCount.{max_lanes};

    ghost Value = { ℕ };

    ghost view = { λ a. a.lanes };

    ghost inverse = { λ n. record { lanes = n } };

    ghost invariant = { λ a. (1 ≤ a.lanes) × (a.lanes ≤ max_lanes) };
}

impl BackendLaneCount {
    /// The count of a vector's lanes, 1 to 32768. `OversizedSimdType` above that, `ZeroLengthSimdType` for 0.
    pub fn new<N>(count: u64) -> Result<BackendLaneCount, LayoutCalculatorError<N>>
        ensures { result ≡ lane_count count }
    {
        if count > u64::from(MAX_SIMD_LANES) {
            return Err(LayoutCalculatorError::OversizedSimdType {
                max_lanes: usize::from(MAX_SIMD_LANES),
            });
        }
        if count == 0 {
            return Err(LayoutCalculatorError::ZeroLengthSimdType);
        }
        Ok(BackendLaneCount {
            lanes: count as u16,
        })
    }

    /// Whether the number is a power of two.
    pub fn is_power_of_two(self) -> bool
        ensures { IsTrue result ↔ IsPowerOfTwo self }
    {
        self.lanes.is_power_of_two()
    }

    /// The number of lanes, 1 to 32768.
    pub fn as_u64(self) -> u64
        ensures { result ≡ self }
    {
        u64::from(self.lanes)
    }

    /// The number of lanes, 1 to 32768, in 32 bits.
    pub fn as_u32(self) -> u32
        ensures { result ≡ self }
    {
        u32::from(self.lanes)
    }
}
