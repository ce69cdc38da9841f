//! Bytes that a value leaves unused.

ghost use Rattle.std.specs.Prelude.{◌≡◌, IfOk, Some, false, slice_set};
ghost use Rattle.abi_tree.specs.Covering.{is_covered};
ghost use Rattle.abi_tree.specs.Holding.{Holds};
ghost use Rattle.abi_tree.specs.Laid.{endian_of, placed_of};
ghost use Rattle.abi_tree.specs.OfTree.{IsOfTree};
ghost use Rattle.abi_tree.specs.Reading.{Finds};
ghost use Rattle.abi_tree.specs.Value.{Value as Meant};
ghost use Rattle.guarantees.specs.Field.{IsValueFound};

use rustc_abi::{Laid, Value, read_value};
use std::alloc::{AllocError, Global};

/// Puts a byte at the place, where there is one.
fn set_byte(bytes: &mut [u8], place: usize, byte: u8)
    ensures { bytes.new ≡ slice_set bytes.old place byte }
{
    if place < bytes.len() {
        bytes[place] = byte;
    }
}

/// Changes a byte of a type that was laid out, and reads the value that the bytes hold then: the same as before, where
/// that doesn't cover the byte. So bytes that the present variant leaves unused may change, and padding may. A place
/// behind the bytes changes none.
///
/// `AllocError` where a growth of memory was refused; the byte is changed then, too.
pub fn vary(
    alloc: Global,
    laid: &Laid,
    bytes: &mut [u8],
    place: usize,
    byte: u8,
) -> Result<Option<Value>, AllocError>
    requires laid { IsOfTree laid.now }
    ensures changed { bytes.new ≡ slice_set bytes.old place byte }
    ensures holds { (v : Meant) → Holds (endian_of laid.now) (placed_of laid.now) bytes.old v →
        is_covered (placed_of laid.now) v place ≡ false →
        Holds (endian_of laid.now) (placed_of laid.now) bytes.new v }
    ensures finds { IfOk result (Finds (Holds (endian_of laid.now)
        (placed_of laid.now) bytes.new)) }
    ensures reads { IfOk result (λ found. (v : Meant) →
        Holds (endian_of laid.now) (placed_of laid.now) bytes.old v →
        is_covered (placed_of laid.now) v place ≡ false → IsValueFound found (Some v)) }
{
    set_byte(bytes, place, byte);
    read_value(alloc, laid, bytes)
}
