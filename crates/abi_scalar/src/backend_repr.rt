//! How a code generator sees a type.

use crate::lane_count::BackendLaneCount;
use crate::scalar::Scalar;
use abi_base::{NumScalableVectors, Size};

/// How a code generator sees the values of a type.
#[derive(Clone, Copy, PartialEq, Eq, Hash, Debug)]
pub enum BackendRepr {
    /// One scalar, which fills the type.
    Scalar(Scalar),
    /// Two scalars, the second at an offset.
    ScalarPair {
        /// The first, at offset 0.
        a: Scalar,
        /// The second.
        b: Scalar,
        /// The second one's offset, in bytes.
        b_offset: Size,
    },
    /// Vectors whose length the machine decides.
    SimdScalableVector {
        /// What each lane is.
        element: Scalar,
        /// How many lanes each vector has at least; the machine has a multiple of them.
        count: BackendLaneCount,
        /// How many vectors there are, one behind another.
        number_of_vectors: NumScalableVectors,
    },
    /// A vector of `count` lanes, each the scalar `element`.
    SimdVector {
        /// What each lane is.
        element: Scalar,
        /// How many lanes there are.
        count: BackendLaneCount,
    },
    /// Bytes in memory, which are passed by their address or copied.
    Memory {
        /// Whether the size is known beforehand.
        sized: bool,
    },
}
