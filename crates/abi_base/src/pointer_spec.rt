//! How pointers are represented.

ghost use Rattle.std.specs.Prelude.{◌↔◌, IsTrue};
ghost use Rattle.abi_base.specs.DataLayout.{IsLawfulSpec};

use crate::align::Align;
use crate::size::Size;

/// How the pointers of an address space are represented. Sizes are in bytes.
#[derive(Clone, Copy, PartialEq, Eq, Debug)]
pub struct PointerSpec {
    pub(crate) pointer_size: Size,
    pub(crate) pointer_align: Align,
    pub(crate) pointer_offset: Size,
    pub(crate) is_fat: bool,
}

impl PointerSpec {
    /// Whether a pointer has 1 to 16 bytes, a multiple of its alignment.
    pub(crate) fn is_lawful(self) -> bool
        ensures { IsTrue result ↔ IsLawfulSpec self }
    {
        let size = self.pointer_size.bytes();
        1 <= size && size <= 16 && self.pointer_align.divides_size(self.pointer_size)
    }
}
