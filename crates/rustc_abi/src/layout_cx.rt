//! What laying out types hands on from node to node.

use abi_base::TargetDataLayout;
use std::alloc::Global;

/// Where memory comes from, and the data layout under which types are laid out.
#[derive(Clone, Copy)]
pub(crate) struct LayoutCx<'a> {
    pub(crate) alloc: Global,
    pub(crate) dl: &'a TargetDataLayout,
}
