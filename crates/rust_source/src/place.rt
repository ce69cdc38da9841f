//! Names, and places in a source.

/// A name that sources have, by its number among the names: the same text has the same number.
#[derive(Clone, Copy, PartialEq, Eq, Hash)]
pub struct Symbol(pub u32);

/// A place in the sources that are read together, one behind another: the number of bytes before it.
#[derive(Clone, Copy, PartialEq, Eq)]
pub struct Place(pub u32);
