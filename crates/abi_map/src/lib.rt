//! Maps of types: which parts of a type have each of its bytes, as lines of text. `docs/FORMATS.md` has the format.
#![tactic(auto)]

// What parts of a type are called, which of them have a byte, and where runs of their bytes begin.
mod called;
mod covering;
mod starts;

// The map as text, and programs that tell it.
mod map_text;
mod print;
mod run;

pub use called::{ByIndex, Called};
pub use map_text::{MapText, map_of};
pub use run::run_map;
