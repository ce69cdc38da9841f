//! Parts of bytes.

ghost use Rattle.std.specs.Prelude.{◌≡◌, ◌+◌, ◌≤◌, MatchOption, length};
ghost use Rattle.abi_tree.specs.Bytes.{bytes_at};

/// The `size` bytes from the offset on; `None` where there are fewer.
pub(crate) fn bytes_from(bytes: &[u8], offset: u64, size: u64) -> Option<&[u8]>
    ensures { MatchOption result
        (offset + size ≤ length bytes.now → ⊥)
        (λ part. (offset + size ≤ length bytes.now) × (part.now ≡ bytes_at bytes.now offset size)) }
{
    let start = bytes.len().min(offset as usize);
    let part = bytes[start..].get(..size as usize)?;
    if offset as usize == start {
        Some(part)
    } else {
        None
    }
}
