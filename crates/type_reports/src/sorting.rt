//! Which types a report has, and in which order.

ghost use Rattle.std.specs.Prelude.{◌≡◌, ◌≤◌, IfOk, IsPermutation, OnOk, get_or, if◌then◌else◌, is_some, length, min, slice_get, unwrap_or};
ghost use Rattle.std.specs.List.{range_with_len};
ghost use Rattle.std.specs.List.Sorted.{IsSortedBy, IsStableBy};
ghost use Rattle.type_reports.specs.Sorting.{is_greater, is_before};

use std::alloc::{AllocError, Global};
use std::cmp::Reverse;

/// By what the types of a report follow one another.
#[derive(Clone, Copy, PartialEq, Eq)]
pub enum TypeOrder {
    /// By their sizes, the greatest first.
    Size,
    /// By their padding bytes, those with the most first.
    Waste,
    /// By the bytes of their names.
    Name,
}

/// Which types a report has, and in which order.
#[derive(Clone, Copy)]
pub struct Selection {
    /// By what they follow one another; as in the source where nothing is said, and where it leaves it open.
    pub key: Option<TypeOrder>,
    /// How many there are at most; all where nothing is said.
    pub most: Option<usize>,
    /// How many bytes each has at least.
    pub least_size: u64,
}

impl Selection {
    /// Whether padding bytes are counted, since types follow one another by them.
    pub(crate) fn counts_waste(self) -> bool {
        self.key == Some(TypeOrder::Waste)
    }

    /// How many types are listed, of so many of which each is large enough.
    pub(crate) fn count_of(self, all: usize) -> usize
        ensures { result ≡ (if is_some self.most then min (unwrap_or self.most 0) all else all) }
    {
        match self.most {
            Some(most) => most.min(all),
            None => all,
        }
    }
}

/// The places of a list of this length, in their order.
pub(crate) fn places_of(alloc: Global, count: usize) -> Result<Vec<usize>, AllocError>
    ensures { IfOk result (λ places. places.items ≡ range_with_len 0 count) }
{
    let mut places = Vec::with_capacity(alloc, count)?;
    for place in 0..count {
        places.push(place)?;
    }
    Ok(places)
}

/// The number at a place; 0 past the last one.
fn number_at(numbers: &[u64], place: usize) -> u64
    ensures { result ≡ get_or numbers.now place 0 }
{
    numbers.get(place).copied().unwrap_or(0)
}

/// The places of numbers, those of greater numbers first; those of equal ones stay in their order.
pub(crate) fn falling_order(alloc: Global, numbers: &[u64]) -> Result<Vec<usize>, AllocError>
    ensures each { IfOk result (λ order. IsPermutation (range_with_len 0 (length numbers.now)) order.items) }
    ensures falling { IfOk result (λ order. IsSortedBy (is_greater numbers.now) order.items) }
    ensures ties { IfOk result (λ order. IsStableBy (is_greater numbers.now)
        (range_with_len 0 (length numbers.now)) order.items) }
{
    let mut order = places_of(alloc, numbers.len())?;
    order.sort_by_key(|place| Reverse(number_at(numbers, *place)))?;
    Ok(order)
}

/// The text at a place, where there is one.
fn text_at<'a>(texts: &[&'a str], place: usize) -> Option<&'a str>
    ensures { result ≡ slice_get texts.now place }
{
    texts.get(place).copied()
}

/// The places of texts, in the order of their bytes; those of equal ones stay in their order.
pub(crate) fn name_order(alloc: Global, names: &[&str]) -> Result<Vec<usize>, AllocError>
    ensures each { IfOk result (λ order. IsPermutation (range_with_len 0 (length names.now)) order.items) }
    ensures rising { IfOk result (λ order. IsSortedBy (is_before names.now) order.items) }
    ensures ties { IfOk result (λ order. IsStableBy (is_before names.now)
        (range_with_len 0 (length names.now)) order.items) }
{
    let mut order = places_of(alloc, names.len())?;
    order.sort_by_key(|place| text_at(names, *place))?;
    Ok(order)
}
