//! Sizes, alignments, primitive types, and what a data layout says of them.
#![tactic(auto)]

// Numbers of bytes, and alignments.
mod align;
mod size;

// Primitive types, and what stands behind pointers.
mod address_space;
mod ascending;
mod float;
mod integer;
mod niche_optimizations;
mod numeric;
mod pointee;
mod primitive;
mod reg_kind;
mod scalable;
mod simd;
mod struct_kind;

// Data layouts.
mod data_layout;
mod endian;
mod keyed_list;
mod lawful;
mod pointer_spec;

// Data layout strings, and errors.
mod abi_from_str_err;
mod parse;
mod parse_error;
mod parse_number;
mod parse_spec;
mod parse_text;
mod setting;

pub use abi_from_str_err::AbiFromStrErr;
pub use address_space::AddressSpace;
pub use align::{AbiAlign, Align, AlignFromBytesError};
pub use data_layout::{AddressSpaces, HasDataLayout, TargetDataLayout, VectorAligns};
pub use endian::{Endian, UnknownEndian, UnknownEndianText};
pub use float::Float;
pub use integer::{Integer, IntegerType, NoSuchInteger};
pub use keyed_list::KeyedList;
pub use niche_optimizations::NicheOptimizations;
pub use numeric::Numeric;
pub use parse_error::TargetDataLayoutError;
pub use parse_number::NumberError;
pub use pointee::{PointeeInfo, PointerKind};
pub use pointer_spec::PointerSpec;
pub use primitive::Primitive;
pub use reg_kind::RegKind;
pub use scalable::{NumScalableVectors, ScalableElt};
pub use simd::MAX_SIMD_LANES;
pub use size::Size;
pub use struct_kind::StructKind;
