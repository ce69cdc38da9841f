//! Index types with their laws, and the lists whose places they name.
#![tactic(auto)]

// Index types, and going over indices.
mod idx;
mod indices;

// Lists named by an index type, views of them, copies.
mod index_list;
mod index_slice;
mod index_vec;
mod inline_vec;
mod pair;
mod try_clone;

// Relations between indices, and sets of them.
mod ascending_list;
mod bit_matrix;
mod bit_row_iter;
mod bit_set;
mod bit_set_iter;
mod first_member;

// Sets of bytes, kept as runs.
mod add_run;
mod range_set;
mod range_set_builder;
mod uncut;

// Hashes.
mod hash64;

pub use bit_matrix::BitMatrix;
pub use bit_row_iter::BitRowIter;
pub use bit_set::DenseBitSet;
pub use bit_set_iter::BitSetIter;
pub use hash64::Hash64;
pub use idx::{FIRST_VARIANT, FieldIdx, Idx, VariantIdx};
pub use index_list::IndexList;
pub use index_slice::IndexSlice;
pub use index_vec::IndexVec;
pub use indices::Indices;
pub use range_set::RangeSet;
pub use range_set_builder::RangeSetBuilder;
pub use try_clone::TryClone;
