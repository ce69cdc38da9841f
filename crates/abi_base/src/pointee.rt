//! What is known of the value behind a pointer.

use crate::align::Align;
use crate::size::Size;

/// Which safe pointer it is, by which optimisers know what it may share.
#[derive(Clone, Copy, PartialEq, Eq, Debug)]
pub enum PointerKind {
    /// A shared reference.
    SharedRef {
        /// Whether no `UnsafeCell` is behind it.
        frozen: bool,
    },
    /// A mutable reference.
    MutableRef {
        /// Whether nothing behind it is pinned.
        unpin: bool,
    },
    /// A box.
    Box {
        /// Whether nothing in it is pinned.
        unpin: bool,
        /// Whether its allocator is the global one.
        global: bool,
    },
}

/// What is known of the value behind a pointer.
#[derive(Clone, Copy, PartialEq, Eq, Debug)]
pub struct PointeeInfo {
    /// Which safe pointer it is; none for a raw pointer.
    pub safe: Option<PointerKind>,
    /// How many bytes can be read where the pointer is not null; nothing is known where it is 0.
    pub size: Size,
    /// The alignment that the pointer has, in bytes.
    pub align: Align,
}
