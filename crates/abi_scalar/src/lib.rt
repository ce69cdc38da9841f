//! Scalars, the numbers they may hold, and layouts as data.
#![tactic(auto)]

// What a `repr` asks, lanes, refusals.
mod error;
mod lane_count;
mod repr;

// Ranges of numbers, scalars, niches.
mod least_range;
mod niche;
mod reserve;
mod scalar;
mod scalar_text;
mod wrapping_range;

// Layouts as data.
mod backend_repr;
mod fields_shape;
mod handle;
mod increasing_offset;
mod lawful;
mod layout_calls;
mod layout_data;
pub mod variant_parts;
mod variants;
mod view;

// Layouts of types without parts, of two scalars, of one variant.
mod for_variant;
mod pair;
mod simple;

pub use backend_repr::BackendRepr;
pub use error::LayoutCalculatorError;
pub use fields_shape::{FieldCount, FieldsShape};
pub use handle::LayoutHandle;
pub use increasing_offset::IncreasingOffset;
pub use lane_count::BackendLaneCount;
pub use layout_data::LayoutData;
pub use niche::Niche;
pub use repr::{ReprFlags, ReprOptions};
pub use scalar::Scalar;
pub use variants::{
    RangeFrom, RangeInclusive, RangeToInclusive, TagEncoding, VariantLayout, Variants,
};
pub use wrapping_range::{RangeFull, WrappingRange};
