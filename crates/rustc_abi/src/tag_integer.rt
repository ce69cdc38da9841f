//! The integer of an enum's tag.

ghost use Rattle.std.specs.Prelude.{◌≡◌};
ghost use Rattle.abi_base.specs.DataLayout.{IsLawfulDataLayout};
ghost use Rattle.rustc_abi.specs.Enums.{holds_both, least_integer, least_tag, tag_integer};

use abi_base::{Integer, TargetDataLayout};
use abi_scalar::ReprOptions;

/// Whether the integer holds both numbers: as a signed one where the least is negative.
fn holds_both(integer: Integer, least: i128, greatest: u128) -> bool
    ensures { result ≡ holds_both least greatest integer }
{
    if least < 0 {
        integer.signed_min() <= least && greatest <= integer.signed_max() as u128
    } else {
        greatest <= integer.size().unsigned_int_max()
    }
}

/// The least integer of at least `bytes` bytes that holds both numbers.
fn least_integer(bytes: u64, least: i128, greatest: u128) -> Integer
    ensures { result ≡ least_integer bytes least greatest }
{
    if bytes <= 1 && holds_both(Integer::I8, least, greatest) {
        Integer::I8
    } else if bytes <= 2 && holds_both(Integer::I16, least, greatest) {
        Integer::I16
    } else if bytes <= 4 && holds_both(Integer::I32, least, greatest) {
        Integer::I32
    } else if bytes <= 8 && holds_both(Integer::I64, least, greatest) {
        Integer::I64
    } else {
        Integer::I128
    }
}

/// How many bytes a tag has at least: under C as many as the least C enum or an index, whichever is smaller.
fn least_tag(dl: &TargetDataLayout, repr: &ReprOptions) -> u64
    requires { IsLawfulDataLayout dl.now }
    ensures { result ≡ least_tag dl.now repr.now }
{
    if repr.c() {
        let index = dl.ptr_sized_integer().size();
        dl.c_enum_min_size.size().min(index).bytes()
    } else {
        1
    }
}

/// The integer of a tag that has to hold both numbers, and whether it is signed: the one that is named, else the least
/// that is enough, signed where the least number is negative.
pub(crate) fn tag_integer(
    dl: &TargetDataLayout,
    repr: &ReprOptions,
    least: i128,
    greatest: u128,
) -> (Integer, bool)
    requires { IsLawfulDataLayout dl.now }
    ensures { result ≡ tag_integer dl.now repr.now least greatest }
{
    match repr.int {
        Some(named) => (Integer::from_attr(dl, named), named.is_signed()),
        None => (
            least_integer(least_tag(dl, repr), least, greatest),
            least < 0,
        ),
    }
}
