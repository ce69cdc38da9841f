//! Modules whose items are read, and others.

ghost use Rattle.std.specs.Prelude.{◌≡◌};
ghost use Rattle.abi_rust.specs.Unread.{is_read};

use rust_source::Items;

/// Whether the items of a module were read: those of a `mod name;` stand in another file, which may not be.
pub(crate) fn is_read(items: &Items, module: u32) -> bool
    ensures { result ≡ is_read items.now «module» }
{
    match items.are_read.get(module as usize) {
        Some(is_read) => *is_read,
        None => false,
    }
}
