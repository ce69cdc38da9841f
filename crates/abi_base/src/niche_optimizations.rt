//! Whether niches may be used.

/// Whether a type's niches may be used for something else, which `UnsafeCell` and `UnsafePinned` forbid.
#[derive(Clone, Copy, PartialEq, Eq, Debug)]
pub enum NicheOptimizations {
    /// They may, as those of every other type.
    Enabled,
    /// They may not: a type of one variant has no niche, and the scalars of its view may hold every number.
    Disabled,
}
