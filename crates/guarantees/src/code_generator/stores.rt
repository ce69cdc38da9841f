//! Numbers stored to memory.

ghost use Rattle.std.specs.Prelude.{◌≡◌, ◌<◌, IfOk, length};
ghost use Rattle.abi_tree.specs.Bytes.{little, number_of};
ghost use Rattle.abi_scalar.specs.Range.{numbers_of};

use rustc_abi::Endian;
use std::alloc::{AllocError, Global};

/// The `size` bytes that make the number, the least byte first.
fn little_bytes(alloc: Global, number: u128, size: usize) -> Result<Vec<u8>, AllocError>
    requires { number < numbers_of size }
    ensures length { IfOk result (λ bytes. length bytes.items ≡ size) }
    ensures number { IfOk result (λ bytes. little bytes.items ≡ number) }
{
    let mut bytes = Vec::with_capacity(alloc, size)?;
    let mut rest = number;
    while bytes.len() < size {
        bytes.push((rest % 256) as u8)?;
        rest /= 256;
    }
    Ok(bytes)
}

/// The `size` bytes that make the number, which has to fit them: what is loaded of them is the number again.
///
/// `AllocError` where a growth of memory was refused.
pub fn store(alloc: Global, order: Endian, number: u128, size: usize) -> Result<Vec<u8>, AllocError>
    requires { number < numbers_of size }
    ensures length { IfOk result (λ bytes. length bytes.items ≡ size) }
    ensures number { IfOk result (λ bytes. number_of order bytes.items ≡ number) }
{
    let mut bytes = little_bytes(alloc, number, size)?;
    match order {
        Endian::Little => Ok(bytes),
        Endian::Big => {
            bytes.reverse();
            Ok(bytes)
        }
    }
}
