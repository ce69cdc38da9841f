//! Trees that no line writes: seeds of a type's own, and alignments beyond the limit.

use abi_base::{Align, Integer, Primitive, Size, TargetDataLayout};
use abi_index::Hash64;
use abi_scalar::{ReprFlags, ReprOptions, Scalar, WrappingRange};
use rustc_abi::{LayError, TypeTree, lay_out};
use std::alloc::{AllocError, Global};
use std::test::Fail;

/// An integer of as many bits, with all its numbers.
fn integer(width: Integer, signed: bool, end: u128) -> TypeTree {
    TypeTree::Scalar(Scalar::Initialized {
        value: Primitive::Int(width, signed),
        valid_range: WrappingRange { start: 0, end },
    })
}

/// A struct as in C, with a seed of its own.
fn structure(seed: u64, fields: Vec<TypeTree>) -> TypeTree {
    let repr = ReprOptions {
        flags: ReprFlags::IS_C,
        field_shuffle_seed: Hash64::new(seed),
        ..ReprOptions::default()
    };
    TypeTree::Struct {
        repr,
        always_sized: true,
        fields,
    }
}

/// A struct as in C of a byte and a half word, under a seed, beside a signed byte, under another one.
fn nested(alloc: Global) -> Result<TypeTree, AllocError> {
    let byte = integer(Integer::I8, false, 0xFF);
    let half = integer(Integer::I16, false, 0xFFFF);
    let inner = structure(5, vec![in alloc; byte, half]?);
    let signed = integer(Integer::I8, true, 0xFF);
    Ok(structure(3, vec![in alloc; inner, signed]?))
}

/// A struct or a union without fields, as in C, with `bytes` bytes as the least alignment, or as the greatest of fields.
fn empty_aligned(alloc: Global, bytes: u64, is_packed: bool, is_union: bool) -> TypeTree {
    let align = Some(Align::max_aligned_factor(Size::from_bytes(bytes)));
    let repr = ReprOptions {
        flags: ReprFlags::IS_C,
        align: if is_packed { None } else { align },
        pack: if is_packed { align } else { None },
        ..ReprOptions::default()
    };
    let fields = Vec::new(alloc);
    if is_union {
        TypeTree::Union { repr, fields }
    } else {
        TypeTree::Struct {
            repr,
            always_sized: true,
            fields,
        }
    }
}

/// A tree that no line writes.
#[derive(Clone, Copy)]
enum Unwritten {
    /// A struct without fields, with a seed of its own.
    Seeded(u64),
    /// As many of these as a list can have.
    Most,
    /// A byte under the greatest seed, so that the sum goes round.
    Round,
    /// Seeds in a type that has one.
    Nested,
    /// A struct without fields: its alignment in bytes, and whether it is packed.
    Struct(u64, bool),
    /// The same of a union.
    Union(u64, bool),
}

/// The tree.
fn tree_of(alloc: Global, unwritten: Unwritten) -> Result<TypeTree, AllocError> {
    match unwritten {
        Unwritten::Seeded(seed) => Ok(structure(seed, Vec::new(alloc))),
        Unwritten::Most => {
            let empty = structure(0, Vec::new(alloc));
            Ok(TypeTree::Array(u64::MAX, Box::new(alloc, empty)?))
        }
        Unwritten::Round => {
            let byte = integer(Integer::I8, false, 0xFF);
            Ok(structure(u64::MAX, vec![in alloc; byte]?))
        }
        Unwritten::Nested => nested(alloc),
        Unwritten::Struct(bytes, is_packed) => Ok(empty_aligned(alloc, bytes, is_packed, false)),
        Unwritten::Union(bytes, is_packed) => Ok(empty_aligned(alloc, bytes, is_packed, true)),
    }
}

/// The seed of the type under the default data layout, or why it has no layout.
fn seed_of(alloc: Global, tree: &TypeTree) -> Result<u64, LayError> {
    let dl = TargetDataLayout::default_in(alloc)?;
    let laid = lay_out(alloc, &dl, tree)?;
    Ok(laid.layout().randomization_seed.as_u64())
}

/// Whether this is the seed of the tree's type, or why it has no layout.
fn is_answer(
    alloc: Global,
    unwritten: Unwritten,
    answer: Result<u64, LayError>,
) -> Result<bool, AllocError> {
    let tree = tree_of(alloc, unwritten)?;
    Ok(seed_of(alloc, &tree) == answer)
}

/// Trees, and what is answered of each.
static ANSWERS: [(Unwritten, Result<u64, LayError>); 13] = [
    (Unwritten::Seeded(0), Ok(0)),
    (Unwritten::Seeded(7), Ok(7)),
    (Unwritten::Most, Ok(u64::MAX)),
    (Unwritten::Round, Ok(0x00FF_0002_0000_0000)),
    (Unwritten::Nested, Ok(0x01FD_0005_0000_000C)),
    (Unwritten::Struct(1 << 29, false), Ok(0)),
    (Unwritten::Struct(1 << 29, true), Ok(0)),
    (Unwritten::Struct(1 << 30, false), Err(LayError::BadAlign)),
    (Unwritten::Struct(1 << 30, true), Err(LayError::BadAlign)),
    (Unwritten::Union(1 << 29, false), Err(LayError::EmptyUnion)),
    (Unwritten::Union(1 << 29, true), Err(LayError::EmptyUnion)),
    (Unwritten::Union(1 << 30, false), Err(LayError::BadAlign)),
    (Unwritten::Union(1 << 30, true), Err(LayError::BadAlign)),
];

#[test]
fn seeds_are_summed_and_alignments_limited(rt: HostRuntime) -> Result<(), Fail> {
    for (number, &(unwritten, answer)) in ANSWERS.iter().enumerate() {
        assert!(rt; is_answer(rt.alloc(), unwritten, answer)?, "{number}");
    }
    Ok(())
}
