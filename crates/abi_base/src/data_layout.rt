//! What a target says of its types: alignments, pointers, byte order.

ghost use Rattle.std.specs.Prelude.{◌≡◌, ℕ, ◌^◌, ◌≤◌, ◌↔◌, IsTrue, IfOk, None, Some};
ghost use Rattle.abi_base.specs.declared.data_layout.TargetDataLayout.{TargetDataLayout};
ghost use Rattle.abi_base.specs.Integer.{integer_size};
ghost use Rattle.abi_base.specs.Align.{IsLeastPower};
ghost use Rattle.abi_base.specs.DataLayout.{IsPointerWidth, Knows, IsLawfulDataLayout, bound_of_pointer, default_data_layout, index_integer, known_spec, listed_align, pointer_spec_of, size_bound, vector_align_of};

use crate::address_space::AddressSpace;
use crate::align::Align;
use crate::endian::Endian;
use crate::integer::Integer;
use crate::keyed_list::KeyedList;
use crate::pointer_spec::PointerSpec;
use crate::size::Size;
use std::alloc::{AllocError, Global};

/// The alignments of vectors by their sizes.
pub type VectorAligns = KeyedList<Size, Align>;

/// The pointers of the address spaces other than the default one.
pub type AddressSpaces = KeyedList<AddressSpace, PointerSpec>;

/// What a target says of its types, as the data layout section of LLVM's LangRef has it.
#[derive(Drop, PartialEq, Eq, Debug)]
pub struct TargetDataLayout {
    /// The order in which a number's bytes lie in memory.
    pub endian: Endian,
    /// The alignment of a `bool`, which LLVM calls `i1`.
    pub i1_align: Align,
    /// The alignment of an integer of 8 bits.
    pub i8_align: Align,
    /// The alignment of an integer of 16 bits.
    pub i16_align: Align,
    /// The alignment of an integer of 32 bits.
    pub i32_align: Align,
    /// The alignment of an integer of 64 bits.
    pub i64_align: Align,
    /// The alignment of an integer of 128 bits.
    pub i128_align: Align,
    /// The alignment of a float of 16 bits.
    pub f16_align: Align,
    /// The alignment of a float of 32 bits.
    pub f32_align: Align,
    /// The alignment of a float of 64 bits.
    pub f64_align: Align,
    /// The alignment of a float of 128 bits.
    pub f128_align: Align,
    /// The least alignment of a list of fields.
    pub aggregate_align: Align,
    /// The alignments of vectors by their sizes.
    pub vector_align: VectorAligns,
    /// The space of data, where no other is named.
    pub default_address_space: AddressSpace,
    /// The size, alignment and index size of the default space's pointers.
    pub default_address_space_pointer_spec: PointerSpec,
    /// How the pointers of the other spaces are represented.
    pub(crate) address_space_info: AddressSpaces,
    /// The address space that functions lie in.
    pub instruction_address_space: AddressSpace,
    /// The least size of the tag of a `repr(C)` enum.
    pub c_enum_min_size: Integer,
}

impl TargetDataLayout {
    /// The data layout of a target that says nothing of its own, by the defaults of LLVM's
    /// LangRef where rustc has them too: big endian, 64-bit pointers in space 0.
    /// `AllocError` where there is no memory for the list of vectors.
    #[tactic(auto, using(crate::proofs::Laws::when_default))]
    pub fn default_in(alloc: Global) -> Result<TargetDataLayout, AllocError>
        ensures value { IfOk result (λ dl. dl ≡ default_data_layout) }
        ensures lawful { IfOk result IsLawfulDataLayout }
    {
        TargetDataLayout::with_defaults(alloc)
    }

    /// The default data layout.
    fn with_defaults(alloc: Global) -> Result<TargetDataLayout, AllocError>
        ensures { IfOk result (λ dl. dl ≡ default_data_layout) }
    {
        let two = Align::exponent(1);
        let sixteen = Align::exponent(4);
        let mut vectors = Vec::with_capacity(alloc, 2)?;
        vectors.push((Size::from_bytes(8), Align::EIGHT))?;
        vectors.push((Size::from_bytes(16), sixteen))?;
        Ok(TargetDataLayout {
            endian: Endian::Big,
            i1_align: Align::ONE,
            i8_align: Align::ONE,
            i16_align: two,
            i32_align: Align::FOUR,
            i64_align: Align::FOUR,
            i128_align: Align::FOUR,
            f16_align: two,
            f32_align: Align::FOUR,
            f64_align: Align::EIGHT,
            f128_align: sixteen,
            aggregate_align: Align::ONE,
            vector_align: KeyedList::from(vectors),
            default_address_space: AddressSpace::ZERO,
            default_address_space_pointer_spec: PointerSpec {
                pointer_size: Size::from_bytes(8),
                pointer_align: Align::EIGHT,
                pointer_offset: Size::from_bytes(8),
                is_fat: false,
            },
            address_space_info: KeyedList::new(alloc),
            instruction_address_space: AddressSpace::ZERO,
            c_enum_min_size: Integer::I32,
        })
    }

    /// How the pointers of the space are represented, if it is known.
    pub(crate) fn spec_in(&self, space: AddressSpace) -> Option<PointerSpec>
        ensures { result ≡ known_spec self.now space }
    {
        if space.0 == self.default_address_space.0 {
            Some(self.default_address_space_pointer_spec)
        } else {
            self.address_space_info.get(space)
        }
    }

    /// How the pointers of a known space are represented.
    fn known_spec_in(&self, space: AddressSpace) -> PointerSpec
        requires { Knows self.now space }
        ensures { result ≡ pointer_spec_of self.now space }
    {
        match self.spec_in(space) {
            Some(spec) => spec,
            None => unreachable!(),
        }
    }

    /// Whether the data layout says how the space's pointers are represented.
    pub fn knows(&self, space: AddressSpace) -> bool
        ensures { IsTrue result ↔ Knows self.now space }
    {
        self.spec_in(space).is_some()
    }

    /// The number of bytes that no type's size reaches.
    pub fn obj_size_bound(&self) -> u64
        requires { IsPointerWidth self.now.default_address_space_pointer_spec.pointer_size }
        ensures { result ≡ size_bound self.now }
    {
        bound_of(self.pointer_size())
    }

    /// The number of bytes that no type's size reaches, by the pointers of the space.
    pub fn obj_size_bound_in(&self, space: AddressSpace) -> u64
        requires known { Knows self.now space }
        requires width { IsPointerWidth (pointer_spec_of self.now space).pointer_size }
        ensures { result ≡ bound_of_pointer (pointer_spec_of self.now space).pointer_size }
    {
        bound_of(self.pointer_size_in(space))
    }

    /// The integer as wide as an index.
    pub fn ptr_sized_integer(&self) -> Integer
        requires { IsPointerWidth self.now.default_address_space_pointer_spec.pointer_offset }
        ensures value { result
            ≡ index_integer self.now.default_address_space_pointer_spec.pointer_offset }
        ensures size { integer_size result
            ≡ self.now.default_address_space_pointer_spec.pointer_offset }
    {
        integer_of(self.pointer_offset())
    }

    /// The integer as wide as an index into the space.
    pub fn ptr_sized_integer_in(&self, space: AddressSpace) -> Integer
        requires known { Knows self.now space }
        requires width { IsPointerWidth (pointer_spec_of self.now space).pointer_offset }
        ensures value { result ≡ index_integer (pointer_spec_of self.now space).pointer_offset }
        ensures size { integer_size result ≡ (pointer_spec_of self.now space).pointer_offset }
    {
        integer_of(self.pointer_offset_in(space))
    }

    /// How many bytes a pointer into the default address space has.
    pub fn pointer_size(&self) -> Size
        ensures { result ≡ self.now.default_address_space_pointer_spec.pointer_size }
    {
        self.default_address_space_pointer_spec.pointer_size
    }

    /// How many bytes a pointer into the space has.
    pub fn pointer_size_in(&self, space: AddressSpace) -> Size
        requires { Knows self.now space }
        ensures { result ≡ (pointer_spec_of self.now space).pointer_size }
    {
        self.known_spec_in(space).pointer_size
    }

    /// How many bytes an index has: the number that a pointer can be offset by.
    pub fn pointer_offset(&self) -> Size
        ensures { result ≡ self.now.default_address_space_pointer_spec.pointer_offset }
    {
        self.default_address_space_pointer_spec.pointer_offset
    }

    /// How many bytes an index into the space has.
    pub fn pointer_offset_in(&self, space: AddressSpace) -> Size
        requires { Knows self.now space }
        ensures { result ≡ (pointer_spec_of self.now space).pointer_offset }
    {
        self.known_spec_in(space).pointer_offset
    }

    /// The alignment of a pointer into the default address space.
    pub fn pointer_align(&self) -> Align
        ensures { result ≡ self.now.default_address_space_pointer_spec.pointer_align }
    {
        self.default_address_space_pointer_spec.pointer_align
    }

    /// The alignment of a pointer into the space.
    pub fn pointer_align_in(&self, space: AddressSpace) -> Align
        requires { Knows self.now space }
        ensures { result ≡ (pointer_spec_of self.now space).pointer_align }
    {
        self.known_spec_in(space).pointer_align
    }

    /// The alignment of a vector of the size: the listed one, else the next power of two.
    /// Where the size is unlisted, that power has to be at most 2^29 bytes.
    pub fn rust_vector_align(&self, size: Size) -> Align
        requires { listed_align self.now.vector_align size ≡ None → size ≤ 2 ^ 29 }
        ensures value { result ≡ vector_align_of self.now size }
        ensures listed { (align : ℕ) →
            listed_align self.now.vector_align size ≡ Some align → result ≡ align }
        ensures unlisted { listed_align self.now.vector_align size ≡ None →
            IsLeastPower size result }
    {
        match self.vector_align.get(size) {
            Some(align) => align,
            None => Align::next_power(size),
        }
    }
}

/// The number of bytes that no type's size reaches, by the size of a pointer.
fn bound_of(pointer: Size) -> u64
    requires { IsPointerWidth pointer }
    ensures { result ≡ bound_of_pointer pointer }
{
    match pointer.bytes() {
        2 => 1 << 15,
        4 => 1 << 31,
        8 => 1 << 61,
        _ => unreachable!(),
    }
}

/// The integer of the size.
fn integer_of(size: Size) -> Integer
    requires { IsPointerWidth size }
    ensures value { result ≡ index_integer size }
    ensures size { integer_size result ≡ size }
{
    match size.bytes() {
        2 => Integer::I16,
        4 => Integer::I32,
        8 => Integer::I64,
        _ => unreachable!(),
    }
}

/// A value that lends a data layout, the same each time.
pub trait HasDataLayout {
    ghost target: { Self → TargetDataLayout };

    /// The data layout.
    fn data_layout(&self) -> &TargetDataLayout
        ensures { result.now ≡ target self.now };
}

impl HasDataLayout for TargetDataLayout {
    ghost target = { λ dl. dl };

    fn data_layout(&self) -> &TargetDataLayout {
        self
    }
}

impl HasDataLayout for &TargetDataLayout {
    ghost target = { λ dl. dl.now };

    fn data_layout(&self) -> &TargetDataLayout {
        *self
    }
}
