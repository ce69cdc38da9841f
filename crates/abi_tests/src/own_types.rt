//! Types of a caller's own: structs and scalars that stand in one list, each made of others by their places, over which
//! walks go by handles. Whether one keeps the laws is tested.

ghost use Rattle.std.specs.Prelude.{◌≡◌, ℕ, ◌+◌, ◌<◌, ◌≤◌, IfSome, IsTrue, length};
ghost use Rattle.abi_scalar.specs.Shape.{field_count, field_offset};
ghost use Rattle.abi_scalar.specs.Variant.{variants_of};
ghost use Rattle.abi_types.specs.Ty.Typed.{Typed, at_variant, field_in, layout_in, marks_of};
ghost use Rattle.abi_types.specs.Ty.Lawful.{CanBeNamed, DepthFalls, IsWellFormedType, NamesVariant};
ghost use Rattle.abi_tests.specs.OwnTypes.{HasParts, IsWellFormedHandle, handle_depth, handle_type, own_marks, place_at, typed_in};

use abi_base::{PointeeInfo, Size};
use abi_index::{FieldIdx, VariantIdx};
use abi_scalar::{FieldsShape, LayoutData, Variants};
use abi_types::{Layout, TyAbiInterface, TyAndLayout};
use std::fmt;
use std::fmt::{Debug, Display};

/// What a type says of itself: whether it is transparent, and the language's own complex number.
#[derive(Clone, Copy)]
pub struct OwnMarks {
    pub transparent: bool,
    pub complex: bool,
}

/// A type: its layout, what it says of itself, and where the types of its at most two fields stand.
#[derive(Drop)]
pub struct OwnType {
    pub layout: LayoutData<FieldIdx, VariantIdx>,
    pub marks: OwnMarks,
    pub fields: [usize; 2],
}

/// The type at a place, with the depth that types in it are followed to.
#[derive(Clone, Copy)]
pub struct OwnTy<'a> {
    types: &'a [OwnType],
    at: usize,
    depth: u64,
}

impl Debug for OwnTy<'_> {
    fn fmt<W: fmt::Write>(&self, f: &mut fmt::Formatter<W>) -> fmt::Result {
        write!(f, "type {}", self.at)
    }
}

impl Display for OwnTy<'_> {
    fn fmt<W: fmt::Write>(&self, f: &mut fmt::Formatter<W>) -> fmt::Result {
        write!(f, "type {}", self.at)
    }
}

/// The place at an index, and the first one where there is none.
fn place_at(places: &[usize], i: usize) -> usize
    ensures { result ≡ place_at places.now i }
{
    match places.get(i) {
        Some(place) => *place,
        None => 0,
    }
}

/// The size of the type at a place, and 0 where there is none.
fn size_in(types: &[OwnType], depth: u64, at: usize) -> u64
    ensures { result ≡ (layout_in (typed_in types.now depth at)).size }
{
    if depth == 0 {
        return 0;
    }
    match types.get(at) {
        Some(own) => own.layout.size.bytes(),
        None => 0,
    }
}

/// The type at a place, beside its layout.
pub fn typed_at(types: &[OwnType], depth: u64, at: usize) -> TyAndLayout<'_, OwnTy<'_>>
    requires { IsWellFormedType (typed_in types.now depth at) }
    ensures well_formed { IsWellFormedHandle result }
    ensures same { handle_type result ≡ typed_in types.now depth at }
    ensures depth { handle_depth result ≡ depth }
{
    TyAndLayout {
        ty: OwnTy { types, at, depth },
        layout: Layout(&types[at].layout),
    }
}

/// What the type says of itself.
fn marks_in(this: TyAndLayout<'_, OwnTy<'_>>) -> OwnMarks
    requires { IsWellFormedHandle this }
    ensures { marks_of (handle_type this.entry) ≡ own_marks result }
{
    this.ty.types[this.ty.at].marks
}

/// Whether the fields are no elements, and few enough to be named by their index.
fn has_few_fields(own: &OwnType) -> bool
    ensures { IsTrue result → (field : ℕ → Typed) → CanBeNamed own.now.layout.fields field }
{
    match &own.layout.fields {
        FieldsShape::Array {
            stride: _,
            count: _,
        } => false,
        fields => fields.count() <= 1024,
    }
}

/// Whether no tag distinguishes variants, and a complex number has a field.
fn has_one_variant(own: &OwnType) -> bool
    ensures variants { IsTrue result → length (variants_of own.now.layout.variants) ≡ 0 }
    ensures parts { IsTrue result → HasParts own.now }
{
    match &own.layout.variants {
        Variants::Multiple {
            tag: _,
            tag_encoding: _,
            tag_field: _,
            variants: _,
        } => false,
        _ => !own.marks.complex || own.layout.fields.count() > 0,
    }
}

/// Where a field begins, if it is no element.
fn offset_of(own: &OwnType, i: usize) -> Option<u64>
    ensures { IfSome result (λ offset. offset ≡ field_offset own.now.layout.fields i) }
{
    match &own.layout.fields {
        FieldsShape::Array {
            stride: _,
            count: _,
        } => None,
        FieldsShape::Arbitrary {
            offsets,
            in_memory_order: _,
        } => {
            match offsets.as_slice().as_raw().get(i) {
                Some(offset) => Some(offset.bytes()),
                None => Some(0),
            }
        }
        _ => Some(0),
    }
}

/// Whether a field lies inside, and keeps the laws.
#[cycle(laws)]
fn field_keeps_laws(types: &[OwnType], depth: u64, own: &OwnType, i: usize) -> bool
    ensures kept { IsTrue result → IsWellFormedType (typed_in types.now depth (place_at own.now.fields i)) }
    ensures inside { IsTrue result → field_offset own.now.layout.fields i
        + (layout_in (typed_in types.now depth (place_at own.now.fields i))).size
        ≤ own.now.layout.size }
{
    let place = place_at(&own.fields, i);
    match offset_of(own, i) {
        Some(offset) => {
            let size = own.layout.size.bytes();
            offset <= size
                && size_in(types, depth, place) <= size - offset
                && keeps_laws(types, depth, place)
        }
        None => false,
    }
}

/// Whether the type at the place keeps the laws.
#[cycle(laws)]
pub fn keeps_laws(types: &[OwnType], depth: u64, at: usize) -> bool
    ensures { IsTrue result → IsWellFormedType (typed_in types.now depth at) }
{
    if depth == 0 || at >= types.len() {
        return false;
    }
    let own = &types[at];
    if !has_few_fields(own) || !has_one_variant(own) {
        return false;
    }
    for i in 0..own.layout.fields.count() {
        if !field_keeps_laws(types, depth - 1, own, i) {
            return false;
        }
    }
    true
}

impl<'a, C> TyAbiInterface<'a, C> for OwnTy<'a> {
    ghost use Rattle.std.specs.Prelude.{◌≡◌, ◌<◌};
    ghost use Rattle.abi_scalar.specs.Shape.{field_count};
    ghost use Rattle.abi_types.specs.Ty.Typed.{at_variant, field_in, layout_in, marks_of};
    ghost use Rattle.abi_types.specs.Ty.Lawful.{DepthFalls, NamesVariant};
    ghost use Rattle.abi_tests.specs.OwnTypes.{IsWellFormedHandle, handle_depth, handle_type};

    ghost is_valid = { IsWellFormedHandle };

    ghost depth_of = { handle_depth };

    ghost typed_of = { handle_type };

    ghost layout_law = { λ this h. h.layout };

    ghost lawful_law = { λ this h. h.well_formed };

    /// The type itself, since it has one variant.
    fn ty_and_layout_for_variant(
        this: TyAndLayout<'a, OwnTy<'a>>,
        _cx: &C,
        variant_index: VariantIdx,
    ) -> TyAndLayout<'a, OwnTy<'a>>
        requires valid { IsWellFormedHandle this }
        requires named { NamesVariant (layout_in (handle_type this)).variants variant_index }
        ensures valid { IsWellFormedHandle result }
        ensures variant { handle_type result ≡ at_variant (handle_type this.entry) variant_index }
        ensures falls { DepthFalls (layout_in (handle_type this.entry)).variants
            (handle_depth result) (handle_depth this.entry) }
    {
        this
    }

    fn ty_and_layout_field(
        this: TyAndLayout<'a, OwnTy<'a>>,
        _cx: &C,
        i: usize,
    ) -> TyAndLayout<'a, OwnTy<'a>>
        requires valid { IsWellFormedHandle this }
        requires within { i < field_count (layout_in (handle_type this)).fields }
        ensures valid { IsWellFormedHandle result }
        ensures field { handle_type result ≡ field_in (handle_type this.entry) i }
        ensures falls { handle_depth result < handle_depth this.entry }
    {
        let types = this.ty.types;
        let place = place_at(&types[this.ty.at].fields, i);
        typed_at(types, this.ty.depth - 1, place)
    }

    fn ty_and_layout_pointee_info_at(
        this: TyAndLayout<'a, OwnTy<'a>>,
        _cx: &C,
        _offset: Size,
    ) -> Option<PointeeInfo>
        requires { IsWellFormedHandle this }
        ensures { result ≡ (marks_of (handle_type this.entry)).pointee _offset }
    {
        None
    }

    fn is_adt(this: TyAndLayout<'a, OwnTy<'a>>) -> bool
        requires { IsWellFormedHandle this }
        ensures { result ≡ (marks_of (handle_type this.entry)).is_adt }
    {
        false
    }

    fn is_enum(this: TyAndLayout<'a, OwnTy<'a>>) -> bool
        requires { IsWellFormedHandle this }
        ensures { result ≡ (marks_of (handle_type this.entry)).is_enum }
    {
        false
    }

    fn is_never(this: TyAndLayout<'a, OwnTy<'a>>) -> bool
        requires { IsWellFormedHandle this }
        ensures { result ≡ (marks_of (handle_type this.entry)).is_never }
    {
        false
    }

    fn is_tuple(this: TyAndLayout<'a, OwnTy<'a>>) -> bool
        requires { IsWellFormedHandle this }
        ensures { result ≡ (marks_of (handle_type this.entry)).is_tuple }
    {
        false
    }

    fn is_unit(this: TyAndLayout<'a, OwnTy<'a>>) -> bool
        requires { IsWellFormedHandle this }
        ensures { result ≡ (marks_of (handle_type this.entry)).is_unit }
    {
        false
    }

    fn is_transparent(this: TyAndLayout<'a, OwnTy<'a>>) -> bool
        requires { IsWellFormedHandle this }
        ensures { result ≡ (marks_of (handle_type this.entry)).is_transparent }
    {
        marks_in(this).transparent
    }

    fn is_complex_number_lang_item(this: TyAndLayout<'a, OwnTy<'a>>, _cx: &C) -> bool
        requires { IsWellFormedHandle this }
        ensures { result ≡ (marks_of (handle_type this.entry)).is_complex }
    {
        marks_in(this).complex
    }

    fn is_scalable_vector(this: TyAndLayout<'a, OwnTy<'a>>) -> bool
        requires { IsWellFormedHandle this }
        ensures { result ≡ (marks_of (handle_type this.entry)).is_scalable_vector }
    {
        false
    }

    fn is_pass_indirectly_in_non_rustic_abis_flag_set(this: TyAndLayout<'a, OwnTy<'a>>) -> bool
        requires { IsWellFormedHandle this }
        ensures { result ≡ (marks_of (handle_type this.entry)).is_passed_indirectly }
    {
        false
    }

    fn depth(this: TyAndLayout<'a, OwnTy<'a>>) -> u64
        requires { IsWellFormedHandle this }
        ensures { result ≡ handle_depth this.entry }
    {
        this.ty.depth
    }
}
