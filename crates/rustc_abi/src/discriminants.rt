//! The discriminants of an enum's variants.

ghost use Rattle.std.specs.Prelude.{◌≡◌, ◌≤◌, IfOk, IsPermutation, length};
ghost use Rattle.std.specs.List.Sorted.{IsSortedByKey};
ghost use Rattle.std.specs.Ordering.{nat_cmp};
ghost use Rattle.abi_base.specs.DataLayout.{IsLawfulDataLayout};
ghost use Rattle.abi_tree.specs.Tree.{trees_of_variants};
ghost use Rattle.rustc_abi.specs.Laying.{most_fields};
ghost use Rattle.rustc_abi.specs.Enums.{discriminants_of, has_equal, is_discriminant, numbered_from};

use abi_base::{Integer, TargetDataLayout};
use abi_index::VariantIdx;
use abi_scalar::ReprOptions;
use abi_tree::TypeTree;
use std::alloc::{AllocError, Global};

/// Each variant's discriminant.
pub(crate) fn discriminants(
    alloc: Global,
    all: &[(u128, Vec<TypeTree>)],
) -> Result<Vec<u128>, AllocError>
    ensures { IfOk result (λ numbers.
        numbers.items ≡ discriminants_of (trees_of_variants all.now)) }
{
    let mut numbers = Vec::with_capacity(alloc, all.len())?;
    for variant in all {
        numbers.push(variant.0)?;
    }
    Ok(numbers)
}

/// Each discriminant with the index of its variant.
pub(crate) fn number_variants(
    alloc: Global,
    numbers: &[u128],
) -> Result<Vec<(VariantIdx, u128)>, AllocError>
    requires { length numbers.now ≤ most_fields }
    ensures { IfOk result (λ items. items.items ≡ numbered_from 0 numbers.now) }
{
    let mut items = Vec::with_capacity(alloc, numbers.len())?;
    for at in 0..numbers.len() {
        items.push((VariantIdx::from_usize(at), numbers[at]))?;
    }
    Ok(items)
}

/// These numbers, ascending.
fn sort_numbers(alloc: Global, numbers: &[u128]) -> Result<Vec<u128>, AllocError>
    ensures same { IfOk result (λ sorted. IsPermutation numbers.now sorted.items) }
    ensures ascends { IfOk result (λ sorted. IsSortedByKey (λ n. n) nat_cmp sorted.items) }
{
    let mut sorted = Vec::from_slice(alloc, numbers)?;
    sorted.sort_unstable();
    Ok(sorted)
}

/// Whether two of the numbers are equal: neighbours are, once they ascend.
pub(crate) fn has_equal(alloc: Global, numbers: &[u128]) -> Result<bool, AllocError>
    ensures { IfOk result (λ b. b ≡ has_equal numbers.now) }
{
    let sorted = sort_numbers(alloc, numbers)?;
    for at in 1..sorted.len() {
        if sorted[at - 1] == sorted[at] {
            return Ok(true);
        }
    }
    Ok(false)
}

/// Whether the number of 128 bits, in two's complement, is one of the type of the enum's discriminants.
pub(crate) fn is_discriminant(dl: &TargetDataLayout, repr: &ReprOptions, number: u128) -> bool
    requires { IsLawfulDataLayout dl.now }
    ensures { result ≡ is_discriminant dl.now repr.now number }
{
    let discr_type = repr.discr_type();
    let integer = Integer::from_attr(dl, discr_type);
    if discr_type.is_signed() {
        let greatest = integer.signed_max() as u128;
        number <= greatest || number >= u128::MAX - greatest
    } else {
        number <= integer.size().unsigned_int_max()
    }
}
