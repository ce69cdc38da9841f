//! What the layout of a list asks of its fields.

ghost use Rattle.std.specs.Prelude.{◌≡◌, ◌<◌, All, IfSome, length, map, slice_index_or};
ghost use Rattle.abi_scalar.specs.Lawful.{IsLawfulLayout, IsLawfulNiche};
ghost use Rattle.abi_univariant.specs.ListView.{part_at};
ghost use Rattle.abi_univariant.specs.Order.{movable_front};
ghost use Rattle.abi_univariant.specs.Part.{free_numbers, space_after, part_of, is_unsized, parts_of};
ghost use Rattle.abi_univariant.specs.Placement.{IsNonEmptyIfUnsized};

use crate::order::movable_front;
use abi_base::{Align, HasDataLayout, Size, StructKind, TargetDataLayout};
use abi_index::Idx;
use abi_scalar::{BackendRepr, LayoutData, LayoutHandle, Niche};
use std::marker::{Model, PhantomData};

/// A field of a list, as far as the list's layout asks.
#[derive(Clone, Copy)]
pub struct Part {
    pub size: Size,
    pub align: Align,
    /// The alignment before a `repr(align)` raised it.
    pub unadjusted_align: Align,
    pub view: BackendRepr,
    pub largest_niche: Option<Niche>,
    /// How many numbers the niche has free, 0 where there is none.
    pub free: u128,
    /// How many bytes follow the niche, 0 where there is none.
    pub after: Size,
}

/// Whether the size is known only with a value.
pub(crate) fn is_unsized(view: BackendRepr) -> bool
    ensures { result ≡ is_unsized view }
{
    match view {
        BackendRepr::Memory { sized } => !sized,
        _ => false,
    }
}

/// How many numbers the niche has free, 0 where there is none.
#[tactic(auto, using(crate::proofs::Views::NicheLemmas::lawful_readable))]
#[inline]
pub fn free_numbers<C: HasDataLayout>(cx: &C, size: Size, niche: Option<Niche>) -> u128
    requires { IfSome niche (IsLawfulNiche (C.target cx.now) size) }
    ensures { result ≡ free_numbers (C.target cx.now) niche }
{
    match niche {
        Some(niche) => niche.available(cx),
        None => 0,
    }
}

/// How many bytes follow the niche in a type of this size, 0 where there is none.
#[inline]
fn space_after<C: HasDataLayout>(cx: &C, size: Size, niche: Option<Niche>) -> Size
    requires { IfSome niche (IsLawfulNiche (C.target cx.now) size) }
    ensures { result ≡ space_after (C.target cx.now) size niche }
{
    match niche {
        Some(niche) => {
            let end = niche.offset + niche.value.size(cx);
            size - end
        }
        None => Size::ZERO,
    }
}

/// What a list asks of a field with this layout.
#[inline(always)]
fn part_of<C: HasDataLayout, FieldIdx: Idx, VariantIdx: Idx>(
    cx: &C,
    layout: &LayoutData<FieldIdx, VariantIdx>,
) -> Part
    requires { IsLawfulLayout (C.target cx.now) layout.now }
    ensures { result ≡ part_of (C.target cx.now) layout.now }
{
    Part {
        size: layout.size,
        align: layout.align.abi,
        unadjusted_align: layout.unadjusted_abi_align,
        view: layout.backend_repr,
        largest_niche: layout.largest_niche,
        free: free_numbers(cx, layout.size, layout.largest_niche),
        after: space_after(cx, layout.size, layout.largest_niche),
    }
}

/// The field at an index, lent.
#[inline(always)]
fn field_at<F>(fields: &[F], index: usize) -> &F
    requires { index < length fields.now }
    ensures { result.now ≡ slice_index_or fields.now index result.now }
{
    &fields[index]
}

/// The fields of a list, as parts: each is given by its field's layout, when it is asked for.
#[derive(Drop)]
pub struct Parts<'a, FieldIdx: Idx, VariantIdx: Idx, F: LayoutHandle<FieldIdx, VariantIdx>> {
    dl: &'a TargetDataLayout,
    fields: &'a [F],
    of: PhantomData<(FieldIdx, VariantIdx)>,
}

impl<'a, FieldIdx: Idx, VariantIdx: Idx, F: LayoutHandle<FieldIdx, VariantIdx>> Model
    for Parts<'a, FieldIdx, VariantIdx, F> {
    ghost use Rattle.std.specs.Prelude.{All, List, map};
    ghost use Rattle.abi_scalar.specs.Lawful.{IsLawfulLayout};
    ghost use Rattle.abi_univariant.specs.declared.part.Part.{Part as OnePart};
    ghost use Rattle.abi_univariant.specs.Part.{parts_of};

    ghost Value = { List OnePart };

    ghost view = { λ p. parts_of p.dl.now (map F.layout_of p.fields.now) };

    ghost invariant = { λ p. All (λ f. IsLawfulLayout p.dl.now (F.layout_of f)) p.fields.now };
}

impl<'a, FieldIdx: Idx, VariantIdx: Idx, F: LayoutHandle<FieldIdx, VariantIdx>> Parts<
    'a,
    FieldIdx,
    VariantIdx,
    F,
> {
    /// These fields, as parts.
    pub(crate) fn new(dl: &'a TargetDataLayout, fields: &'a [F]) -> Self
        requires { All (λ f. IsLawfulLayout dl.now (F.layout_of f)) fields.now }
        ensures { result ≡ parts_of dl.now (map F.layout_of fields.now) }
    {
        Parts {
            dl,
            fields,
            of: PhantomData,
        }
    }

    /// How many there are.
    pub(crate) fn len(&self) -> usize
        ensures { result ≡ length self.now }
    {
        self.fields.len()
    }

    /// The part at an index.
    #[inline(always)]
    pub(crate) fn at(&self, index: usize) -> Part
        requires { index < length self.now }
        ensures { result ≡ part_at self.now index }
    {
        part_of(self.dl, self.fields[index].layout())
    }

    /// The layout of the field at an index: what it says is there, where `at` works out the rest.
    #[inline(always)]
    pub(crate) fn layout_at(&self, index: usize) -> &LayoutData<FieldIdx, VariantIdx>
        requires { index < length self.now }
        ensures size { result.now.size ≡ (part_at self.now index).size }
        ensures align { result.now.align.abi ≡ (part_at self.now index).align }
        ensures view { result.now.backend_repr ≡ (part_at self.now index).view }
        ensures niche { result.now.largest_niche ≡ (part_at self.now index).largest_niche }
    {
        field_at(self.fields, index).layout()
    }

    /// The parts that may move: all but a last one that may be unsized.
    pub(crate) fn movable_front(&self, kind: StructKind) -> Self
        requires { IsNonEmptyIfUnsized kind (length self.now) }
        ensures { result ≡ movable_front kind self.now }
    {
        Parts {
            dl: self.dl,
            fields: movable_front(kind, self.fields),
            of: PhantomData,
        }
    }
}
