//! Address spaces.

/// The number of an address space, as data layout strings name it.
#[derive(Clone, Copy, PartialEq, Eq, PartialOrd, Ord, Hash, Debug)]
pub struct AddressSpace(pub u32);

// Their numbers are those of data layout strings.
const _: () = prove!(AddressSpace::ZERO.0 == 0);

const _: () = prove!(AddressSpace::GPU_CONSTANT.0 == 4);

const _: () = prove!(AddressSpace::GPU_WORKGROUP.0 == 3);

impl AddressSpace {
    /// The space of data, where no other is named.
    pub const ZERO: AddressSpace = AddressSpace(0);

    /// The space of constant memory on nvptx and amdgpu.
    pub const GPU_CONSTANT: AddressSpace = AddressSpace(4);

    /// The space of a workgroup's memory on nvptx and amdgpu.
    pub const GPU_WORKGROUP: AddressSpace = AddressSpace(3);
}
