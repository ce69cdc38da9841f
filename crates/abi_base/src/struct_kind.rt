//! What is known of a list of fields beside the fields.

use crate::align::Align;
use crate::size::Size;

/// What is known of a list of fields beside the fields.
#[derive(Clone, Copy, PartialEq, Eq, Debug)]
pub enum StructKind {
    /// Each field is sized, a tuple's, a closure's or an enum's among them.
    AlwaysSized,
    /// The last field may be unsized, or become so by coercion, and so stays last.
    MaybeUnsized,
    /// The fields follow a prefix of this size and alignment, as a variant's follow the tag.
    Prefixed(Size, Align),
}
