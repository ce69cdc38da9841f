//! What no line of text can ask of the libraries: types of a caller's own with walks over them, readers and writers that
//! fail, lists that ask for no memory, and what only a text, a hash or a seed shows.
#![tactic(auto)]

mod own_types;

// Types of a caller's own, layouts and trees.
#[cfg(test)]
mod complex;
#[cfg(test)]
mod data_layouts;
#[cfg(test)]
mod seeds;
#[cfg(test)]
mod short_lists;

// Texts, and calling conventions.
#[cfg(test)]
mod conventions;
#[cfg(test)]
mod layout_texts;
#[cfg(test)]
mod texts;

// Programs, with devices that fail.
#[cfg(test)]
mod running;

pub use own_types::{OwnMarks, OwnTy, OwnType, keeps_laws, typed_at};
