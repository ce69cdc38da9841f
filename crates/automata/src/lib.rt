//! Sets of words of cells, written as formulas, and whether one has each word of another.
//!
//! A cell is a byte, or nothing where a byte isn't initialised: 257 letters. What a formula says of the cells behind a first
//! one is a formula again, its derivative by that cell: so formulas are the states of an automaton, which is made only as far
//! as a search comes.
#![tactic(auto)]

mod big_numbers;
mod cell;
mod derivative;
mod end;
mod first;
mod formulas;
mod inclusion;
mod node;
mod numbers;
mod periods;
mod reach;
mod visits;

pub use cell::LETTERS;
pub use formulas::Formulas;
pub use inclusion::{Inclusion, STEPS};
pub use numbers::Bound;
pub use periods::compare;
