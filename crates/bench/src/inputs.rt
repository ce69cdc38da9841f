//! What calls are given: numbers that look like chance, scalars, lists of fields, and whether these are lawful.

ghost use Rattle.std.specs.Prelude.{◌≡◌, ◌≤◌, ◌<◌, ◌∷◌, [], All, IfOk, IsTrue, length, vec_len};
ghost use Rattle.abi_base.specs.declared.data_layout.TargetDataLayout.{TargetDataLayout};
ghost use Rattle.abi_base.specs.DataLayout.{IsLawfulDataLayout};
ghost use Rattle.abi_base.specs.Integer.{integer_size};
ghost use Rattle.abi_scalar.specs.Range.{numbers_of};
ghost use Rattle.abi_scalar.specs.Scalar.{IsWellFormed};
ghost use Rattle.abi_scalar.specs.Lawful.{IsLawfulLayout};

use abi_base::{Integer, Primitive, TargetDataLayout};
use abi_index::{FieldIdx, IndexVec, VariantIdx};
use abi_scalar::{LayoutCalculatorError, LayoutData, Scalar, WrappingRange};
use std::alloc::{AllocError, Global};

/// Numbers that look like chance. Its state becomes its product with 6364136223846793005, plus 1442695040888963407,
/// modulo 2 to the 64, before each; a number is what its upper 31 bits leave.
#[derive(Clone, Copy)]
pub(crate) struct Numbers(pub(crate) u64);

impl Numbers {
    /// The next number, which is below this one.
    pub(crate) fn below(&mut self, end: u64) -> u64
        requires { 0 < end }
        ensures { result < end }
    {
        let more = self.0.wrapping_mul(6_364_136_223_846_793_005);
        self.0 = more.wrapping_add(1_442_695_040_888_963_407);
        (self.0 >> 33) % end
    }
}

/// The layout of a field.
pub(crate) type Leaf = LayoutData<FieldIdx, VariantIdx>;

/// Fields of a list.
pub(crate) type Fields<'a> = IndexVec<FieldIdx, &'a Leaf>;

/// Such lists, where there is memory for them.
pub(crate) type Lists<'a> = Result<Vec<Fields<'a>>, AllocError>;

/// The size of what was laid out, 0 where it is refused.
pub(crate) fn size_of(answer: Result<Leaf, LayoutCalculatorError<&Leaf>>) -> u64 {
    match answer {
        Ok(layout) => layout.size.bytes(),
        Err(_) => 0,
    }
}

/// The unsigned integers up to this one.
fn up_to(integer: Integer, greatest: u128) -> Scalar
    requires { greatest < numbers_of (integer_size integer) }
    ensures { (dl : TargetDataLayout) → IsWellFormed dl result }
{
    Scalar::Initialized {
        value: Primitive::Int(integer, false),
        valid_range: WrappingRange {
            start: 0,
            end: greatest,
        },
    }
}

/// `u8`, `bool`, `u16` and `char`, by their places; `u64` from 4 on.
pub(crate) fn scalar(place: u64) -> Scalar
    ensures { (dl : TargetDataLayout) → IsWellFormed dl result }
{
    match place {
        0 => up_to(Integer::I8, 0xFF),
        1 => up_to(Integer::I8, 1),
        2 => up_to(Integer::I16, 0xFFFF),
        3 => up_to(Integer::I32, 0x10_FFFF),
        _ => up_to(Integer::I64, 0xFFFF_FFFF_FFFF_FFFF),
    }
}

/// The layouts of `u8`, `bool`, `u16`, `char` and `u64`.
pub(crate) fn leaves(alloc: Global, dl: &TargetDataLayout) -> Result<Vec<Leaf>, AllocError>
    ensures { IfOk result (λ leaves. vec_len leaves ≡ 5) }
{
    let mut leaves = Vec::with_capacity(alloc, 5)?;
    for place in 0..5 {
        leaves.push(LayoutData::scalar(dl, scalar(place)))?;
    }
    Ok(leaves)
}

/// A list of `count` of the leaves at random.
pub(crate) fn list_of<'a>(
    alloc: Global,
    leaves: &'a [Leaf],
    numbers: &mut Numbers,
    count: u64,
) -> Result<Fields<'a>, AllocError>
    requires leaves { length leaves.now ≡ 5 }
    requires few { count ≤ 1_000_000 }
    ensures { IfOk result (λ fields. length fields ≡ count) }
{
    let mut fields = IndexVec::new(alloc);
    for _step in 0..count {
        let place = numbers.below(5) as usize;
        let _field: FieldIdx = fields.push(&leaves[place])?;
    }
    Ok(fields)
}

/// A list of the one field.
pub(crate) fn list_of_one<'a>(alloc: Global, leaf: &'a Leaf) -> Result<Fields<'a>, AllocError>
    ensures { IfOk result (λ fields. fields ≡ leaf.entry ∷ []) }
{
    let mut fields = IndexVec::new(alloc);
    let _field: FieldIdx = fields.push(leaf)?;
    Ok(fields)
}

/// Whether each of these is lawful.
pub(crate) fn are_lawful(dl: &TargetDataLayout, layouts: &[&Leaf]) -> bool
    requires { IsLawfulDataLayout dl.now }
    ensures { IsTrue result → All (λ f. IsLawfulLayout dl.now f.now) layouts.now }
{
    for layout in layouts {
        if !layout.is_lawful(dl) {
            return false;
        }
    }
    true
}

/// Whether each field of these lists is lawful.
pub(crate) fn are_lawful_lists(dl: &TargetDataLayout, lists: &[Fields]) -> bool
    requires { IsLawfulDataLayout dl.now }
    ensures { IsTrue result → All (All (λ f. IsLawfulLayout dl.now f.now)) lists.now }
{
    for fields in lists {
        if !are_lawful(dl, fields.as_slice().as_raw()) {
            return false;
        }
    }
    true
}
