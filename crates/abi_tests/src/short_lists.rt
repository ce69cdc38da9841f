//! Lists of at most two items, layouts of two scalars, of vectors and without parts, and the empty set of bytes, which ask
//! for no memory.
//!
//! `scripts/try_memory` runs each of these tests, as the gate built them, and counts its requests: those that its table has
//! are made and no more, also where the next one would be refused.

ghost use Rattle.abi_base.specs.DataLayout.{IsLawfulDataLayout};

use abi_base::{Integer, Primitive, Size, TargetDataLayout};
use abi_index::{FieldIdx, IndexVec, RangeSet, VariantIdx};
use abi_scalar::{FieldsShape, LayoutData, Scalar, WrappingRange};
use rustc_abi::LayoutCalculator;
use std::alloc::{AllocError, Global};
use std::test::Fail;

type Layout = LayoutData<FieldIdx, VariantIdx>;

/// A byte that is 0 or 1.
const TRUTH: Scalar = Scalar::Initialized {
    value: Primitive::Int(Integer::I8, false),
    valid_range: WrappingRange { start: 0, end: 1 },
};

/// A union's word of 32 bits.
const WORD: Scalar = Scalar::Union {
    value: Primitive::Int(Integer::I32, false),
};

/// A layout that asks for no memory.
#[derive(Clone, Copy)]
enum ShortLayout {
    /// A truth and a word.
    Pair,
    /// A vector of three words.
    Vector,
    Unit,
    /// A variant without values, by the number of its fields.
    Uninhabited(usize),
}

/// The layout, if there is one.
fn layout_of(alloc: Global, dl: &TargetDataLayout, short: ShortLayout) -> Option<Layout>
    requires { IsLawfulDataLayout dl.now }
{
    match short {
        ShortLayout::Pair => Some(LayoutData::scalar_pair(alloc, &dl, TRUTH, WORD)),
        ShortLayout::Vector => {
            let word: Layout = LayoutData::scalar(&dl, WORD);
            LayoutCalculator::new(dl)
                .layout_of_simd_type(alloc, &word, 3, false)
                .ok()
        }
        ShortLayout::Unit => Some(LayoutData::unit(alloc, &dl, true)),
        ShortLayout::Uninhabited(fields) => {
            let index = VariantIdx::from_u32(2);
            Some(LayoutData::uninhabited_variant(alloc, &dl, index, fields))
        }
    }
}

/// Whether these are so many bytes each.
fn are_bytes(offsets: &[Size], wanted: &[u64]) -> bool {
    if offsets.len() != wanted.len() {
        return false;
    }
    for i in 0..offsets.len() {
        if offsets[i].bytes() != wanted[i] {
            return false;
        }
    }
    true
}

/// Whether the layout has `bytes` bytes, and fields at these offsets, or as many side by side.
fn has_fields_at(layout: &Layout, bytes: u64, wanted: &[u64]) -> bool {
    match &layout.fields {
        FieldsShape::Arbitrary { offsets, .. } => {
            layout.size.bytes() == bytes && are_bytes(offsets.as_slice().as_raw(), wanted)
        }
        FieldsShape::Union(count) => layout.size.bytes() == bytes && count.get() == wanted.len(),
        _ => false,
    }
}

/// Whether there is the layout, and has this.
fn is_laid_out(
    alloc: Global,
    dl: &TargetDataLayout,
    short: ShortLayout,
    bytes: u64,
    offsets: &[u64],
) -> bool
    requires { IsLawfulDataLayout dl.now }
{
    match &layout_of(alloc, dl, short) {
        Some(layout) => has_fields_at(layout, bytes, offsets),
        None => false,
    }
}

/// Layouts, the bytes of each, and where its fields lie.
static LAYOUTS: [(ShortLayout, u64, &[u64]); 5] = [
    (ShortLayout::Pair, 8, &[0, 4]),
    (ShortLayout::Vector, 16, &[0]),
    (ShortLayout::Unit, 0, &[]),
    (ShortLayout::Uninhabited(0), 0, &[]),
    (ShortLayout::Uninhabited(2), 0, &[0, 0]),
];

#[test]
fn short_layouts_and_empty_sets_ask_for_no_memory(rt: HostRuntime) -> Result<(), Fail> {
    let dl = TargetDataLayout::default_in(rt.alloc())?;
    for &(short, bytes, offsets) in &LAYOUTS {
        assert!(rt;
            is_laid_out(rt.alloc(), &dl, short, bytes, offsets),
            "{bytes}"
        );
    }
    assert!(rt; RangeSet::new(rt.alloc()).as_slice().is_empty());
    Ok(())
}

/// Whether a list and its copy have the same items.
fn is_copied(alloc: Global, list: &IndexVec<FieldIdx, u32>) -> bool {
    match list.try_clone(alloc) {
        Ok(copy) => copy.as_slice().as_raw() == list.as_slice().as_raw(),
        Err(AllocError) => false,
    }
}

/// Whether a list is copied that has no item, one and two.
fn are_copied(alloc: Global) -> bool {
    let mut list: IndexVec<FieldIdx, u32> = IndexVec::new(alloc);
    is_copied(alloc, &list)
        && list.push(5).is_ok()
        && is_copied(alloc, &list)
        && list.push(6).is_ok()
        && is_copied(alloc, &list)
}

/// Whether a list with so much room is there, and takes so many items, of at most eight.
fn takes(alloc: Global, room: usize, items: u32) -> bool {
    let Ok(mut list) = IndexVec::<FieldIdx, u32>::with_capacity(alloc, room) else {
        return false;
    };
    for item in 0..items {
        if list.len() >= 8 || list.push(item).is_err() {
            return false;
        }
    }
    true
}

#[test]
fn lists_of_two_ask_for_no_memory(rt: HostRuntime) {
    assert!(rt; are_copied(rt.alloc()));
    for room in 0..3 {
        assert!(rt; takes(rt.alloc(), room, 2), "{room}");
    }
}

// One more than a list that grows has room for at first.
#[test]
fn room_is_asked_for_once(rt: HostRuntime) {
    assert!(rt; takes(rt.alloc(), 5, 5));
}

/// Whether two items are put without memory, and a third is put behind them or refused, with the two still there.
fn third_is_put_or_refused(alloc: Global) -> bool {
    let mut list: IndexVec<FieldIdx, u32> = IndexVec::new(alloc);
    if list.push(5).is_err() || list.push(6).is_err() {
        return false;
    }
    let wanted = match list.push(7) {
        Ok(_) => [5, 6, 7].as_slice(),
        Err(AllocError) => [5, 6].as_slice(),
    };
    list.as_slice().as_raw() == wanted
}

#[test]
fn a_third_item_is_put_or_refused(rt: HostRuntime) {
    assert!(rt; third_is_put_or_refused(rt.alloc()));
}
