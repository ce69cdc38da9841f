//! What may be done with a type's bytes: which cells, bytes or nothing where none is initialised, hold a type, whether all that
//! hold one hold another, and the laws of it.
//!
//! The cells that hold a type are those that a formula reads: each node of the type has one, made of those of its parts. Two
//! formulas are compared by the crate `automata`.
#![tactic(auto)]

mod answers;
mod cell_numbers;
mod cell_walk;
mod laws;
mod making;
mod nodes;
mod not_held;
mod numbers;
mod parts;
mod tags;
mod types;
mod variants;
mod wrong_parts;

pub use answers::{
    FromBytes, FromZeros, Goes, IntoBytes, Transmuted, is_from_bytes, is_from_zeros, is_into_bytes,
    transmute,
};
pub use laws::{bytes_and_types, cells_and_values, types_into_types};
pub use not_held::{NotHeld, PartStep, Why, WrongPart, why_not_held};
