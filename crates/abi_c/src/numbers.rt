//! Types, values and layouts as flat lists of numbers of 64 bits, for callers that hand over no text. `docs/NUMBERS.md`
//! has the numbers.

// Numbers, scalars and what a repr asks for.
mod error;
mod repr;
mod scalar;
mod words;

// Types and layouts.
mod kind;
mod layout;
mod tree;
mod write_tree;

// Values.
mod value;
mod write_value;

pub(crate) use error::ReadError;
pub(crate) use layout::write_layout;
pub(crate) use tree::read_tree;
pub(crate) use value::read_flat_value;
pub(crate) use write_tree::write_flat_trees;
pub(crate) use write_value::{write_bytes, write_flat_value};
