//! Types out of numbers.

ghost use Rattle.std.specs.Prelude.{◌≡◌, ◌≤◌, ℕ, [], ◌++◌, IfErr, IfOk, Some, drop, map};
ghost use Rattle.abi_tree.specs.Tree.{Tree, tree_of};
ghost use Rattle.abi_c.specs.declared.numbers.kind.TypeKind.TheVariants.{Scalar as NumberKind, Pair as PairKind};
ghost use Rattle.abi_c.specs.Numbers.Pieces.{Fails, front_list};
ghost use Rattle.abi_c.specs.Numbers.FlatTree.{flat_tree, IsReadable};
ghost use Rattle.abi_c.specs.Numbers.FrontTree.{front_array, front_coroutine, front_enum, front_of_kind, front_ordered, front_struct, front_tree, front_union, front_variant, front_vector, variant_kept};

use crate::numbers::error::ReadError;
use crate::numbers::kind::{TypeKind, read_kind};
use crate::numbers::repr::read_repr;
use crate::numbers::scalar::read_scalar;
use crate::numbers::words::{read_bool, read_lists, read_pairs, read_wide, read_word, read_words};
use abi_tree::TypeTree;
use std::alloc::Global;

/// A type is nested in at most so many others, less one.
const MOST_NESTED: u64 = 201;

/// For how many types of a list room is asked for before they are read.
const FIRST_ROOM: u64 = 8;

/// A number.
#[inline(never)]
fn read_number(numbers: &[u64], at: &mut usize) -> Result<TypeTree, ReadError>
    ensures ok { (left : ℕ) → IfOk result (λ a. front_of_kind (front_tree left) NumberKind (drop at.old numbers.now) ≡
        Some (tree_of a, drop at.new numbers.now)) }
    ensures err { (left : ℕ) → IfErr result (Fails (front_of_kind (front_tree left) NumberKind (drop at.old numbers.now))) }
{
    let scalar = read_scalar(numbers, at)?;
    Ok(TypeTree::Scalar(scalar))
}

/// Two numbers.
#[inline(never)]
fn read_two(numbers: &[u64], at: &mut usize) -> Result<TypeTree, ReadError>
    ensures ok { (left : ℕ) → IfOk result (λ a. front_of_kind (front_tree left) PairKind (drop at.old numbers.now) ≡
        Some (tree_of a, drop at.new numbers.now)) }
    ensures err { (left : ℕ) → IfErr result (Fails (front_of_kind (front_tree left) PairKind (drop at.old numbers.now))) }
{
    let first = read_scalar(numbers, at)?;
    let second = read_scalar(numbers, at)?;
    Ok(TypeTree::Pair(first, second))
}

/// Elements.
#[inline(never)]
#[cycle(read)]
fn read_array(
    alloc: Global,
    left: u64,
    numbers: &[u64],
    at: &mut usize,
) -> Result<TypeTree, ReadError>
    ensures ok { IfOk result (λ a. front_array (front_tree left) (drop at.old numbers.now) ≡
        Some (tree_of a, drop at.new numbers.now)) }
    ensures err { IfErr result (Fails (front_array (front_tree left) (drop at.old numbers.now))) }
{
    let count = read_word(numbers, at)?;
    let element = read_node(alloc, left, numbers, at)?;
    Ok(TypeTree::Array(count, Box::new(alloc, element)?))
}

/// Lanes.
#[inline(never)]
#[cycle(read)]
fn read_vector(
    alloc: Global,
    left: u64,
    numbers: &[u64],
    at: &mut usize,
) -> Result<TypeTree, ReadError>
    ensures ok { IfOk result (λ a. front_vector (front_tree left) (drop at.old numbers.now) ≡
        Some (tree_of a, drop at.new numbers.now)) }
    ensures err { IfErr result (Fails (front_vector (front_tree left) (drop at.old numbers.now))) }
{
    let lanes = read_word(numbers, at)?;
    let packed = read_bool(numbers, at)?;
    let element = read_node(alloc, left, numbers, at)?;
    let element = Box::new(alloc, element)?;
    Ok(TypeTree::Vector {
        lanes,
        packed,
        element,
    })
}

/// Types, one after another, behind their count.
#[cycle(read)]
fn read_each(
    alloc: Global,
    left: u64,
    numbers: &[u64],
    at: &mut usize,
) -> Result<Vec<TypeTree>, ReadError>
    ensures ok { IfOk result (λ a. front_list (front_tree left) (drop at.old numbers.now) ≡
        Some (map tree_of a.items, drop at.new numbers.now)) }
    ensures err { IfErr result (Fails (front_list (front_tree left) (drop at.old numbers.now))) }
{
    let count = read_word(numbers, at)?;
    let mut types = Vec::with_capacity(alloc, count.min(FIRST_ROOM) as usize)?;
    for _ in 0..count {
        // (room first, so that no type is handed back where there is none)
        types.reserve(1)?;
        let tree = read_node(alloc, left, numbers, at)?;
        types.push_reserved(tree);
    }
    Ok(types)
}

/// Fields.
#[inline(never)]
#[cycle(read)]
fn read_struct(
    alloc: Global,
    left: u64,
    numbers: &[u64],
    at: &mut usize,
) -> Result<TypeTree, ReadError>
    ensures ok { IfOk result (λ a. front_struct (front_tree left) (drop at.old numbers.now) ≡
        Some (tree_of a, drop at.new numbers.now)) }
    ensures err { IfErr result (Fails (front_struct (front_tree left) (drop at.old numbers.now))) }
{
    let repr = read_repr(numbers, at)?;
    let always_sized = read_bool(numbers, at)?;
    let fields = read_each(alloc, left, numbers, at)?;
    Ok(TypeTree::Struct {
        repr,
        always_sized,
        fields,
    })
}

/// Fields in an order that is handed in.
#[inline(never)]
#[cycle(read)]
fn read_ordered(
    alloc: Global,
    left: u64,
    numbers: &[u64],
    at: &mut usize,
) -> Result<TypeTree, ReadError>
    ensures ok { IfOk result (λ a. front_ordered (front_tree left) (drop at.old numbers.now) ≡
        Some (tree_of a, drop at.new numbers.now)) }
    ensures err { IfErr result (Fails (front_ordered (front_tree left) (drop at.old numbers.now))) }
{
    let repr = read_repr(numbers, at)?;
    let always_sized = read_bool(numbers, at)?;
    let order = read_words(alloc, numbers, at)?;
    let fields = read_each(alloc, left, numbers, at)?;
    Ok(TypeTree::Ordered {
        repr,
        always_sized,
        order,
        fields,
    })
}

/// Fields that share their bytes.
#[inline(never)]
#[cycle(read)]
fn read_union(
    alloc: Global,
    left: u64,
    numbers: &[u64],
    at: &mut usize,
) -> Result<TypeTree, ReadError>
    ensures ok { IfOk result (λ a. front_union (front_tree left) (drop at.old numbers.now) ≡
        Some (tree_of a, drop at.new numbers.now)) }
    ensures err { IfErr result (Fails (front_union (front_tree left) (drop at.old numbers.now))) }
{
    let repr = read_repr(numbers, at)?;
    let fields = read_each(alloc, left, numbers, at)?;
    Ok(TypeTree::Union { repr, fields })
}

/// A variant's discriminant and fields.
#[cycle(read)]
fn read_variant(
    alloc: Global,
    left: u64,
    numbers: &[u64],
    at: &mut usize,
) -> Result<(u128, Vec<TypeTree>), ReadError>
    ensures ok { IfOk result (λ a. front_variant (front_tree left) (drop at.old numbers.now) ≡
        Some (variant_kept a, drop at.new numbers.now)) }
    ensures err { IfErr result (Fails (front_variant (front_tree left) (drop at.old numbers.now))) }
{
    let discriminant = read_wide(numbers, at)?;
    let fields = read_each(alloc, left, numbers, at)?;
    Ok((discriminant, fields))
}

/// Variants, one after another, behind their count.
#[cycle(read)]
fn read_variants(
    alloc: Global,
    left: u64,
    numbers: &[u64],
    at: &mut usize,
) -> Result<Vec<(u128, Vec<TypeTree>)>, ReadError>
    ensures ok { IfOk result (λ a.
        front_list (front_variant (front_tree left)) (drop at.old numbers.now) ≡
        Some (map variant_kept a.items, drop at.new numbers.now)) }
    ensures err { IfErr result (Fails (front_list (front_variant (front_tree left)) (drop at.old numbers.now))) }
{
    let count = read_word(numbers, at)?;
    let mut variants = Vec::new(alloc);
    for _ in 0..count {
        let variant = read_variant(alloc, left, numbers, at)?;
        variants.push(variant)?;
    }
    Ok(variants)
}

/// Variants.
#[inline(never)]
#[cycle(read)]
fn read_enum(
    alloc: Global,
    left: u64,
    numbers: &[u64],
    at: &mut usize,
) -> Result<TypeTree, ReadError>
    ensures ok { IfOk result (λ a. front_enum (front_tree left) (drop at.old numbers.now) ≡
        Some (tree_of a, drop at.new numbers.now)) }
    ensures err { IfErr result (Fails (front_enum (front_tree left) (drop at.old numbers.now))) }
{
    let repr = read_repr(numbers, at)?;
    let variants = read_variants(alloc, left, numbers, at)?;
    Ok(TypeTree::Enum { repr, variants })
}

/// A suspended computation.
#[inline(never)]
#[cycle(read)]
fn read_coroutine(
    alloc: Global,
    left: u64,
    numbers: &[u64],
    at: &mut usize,
) -> Result<TypeTree, ReadError>
    ensures ok { IfOk result (λ a. front_coroutine (front_tree left) (drop at.old numbers.now) ≡
        Some (tree_of a, drop at.new numbers.now)) }
    ensures err { IfErr result (Fails (front_coroutine (front_tree left) (drop at.old numbers.now))) }
{
    let prefix = read_each(alloc, left, numbers, at)?;
    let locals = read_each(alloc, left, numbers, at)?;
    let states = read_lists(alloc, numbers, at)?;
    let conflicts = read_pairs(alloc, numbers, at)?;
    Ok(TypeTree::Coroutine {
        prefix,
        locals,
        states,
        conflicts,
    })
}

/// A type of a kind.
#[cycle(read)]
fn read_of_kind(
    alloc: Global,
    left: u64,
    kind: TypeKind,
    numbers: &[u64],
    at: &mut usize,
) -> Result<TypeTree, ReadError>
    ensures ok { IfOk result (λ a. front_of_kind (front_tree left) kind (drop at.old numbers.now) ≡
        Some (tree_of a, drop at.new numbers.now)) }
    ensures err { IfErr result (Fails (front_of_kind (front_tree left) kind (drop at.old numbers.now))) }
{
    match kind {
        TypeKind::Scalar => read_number(numbers, at),
        TypeKind::Pair => read_two(numbers, at),
        TypeKind::Never => Ok(TypeTree::Never),
        TypeKind::Unit => Ok(TypeTree::Unit),
        TypeKind::Array => read_array(alloc, left, numbers, at),
        TypeKind::Vector => read_vector(alloc, left, numbers, at),
        TypeKind::Struct => read_struct(alloc, left, numbers, at),
        TypeKind::Ordered => read_ordered(alloc, left, numbers, at),
        TypeKind::Union => read_union(alloc, left, numbers, at),
        TypeKind::Enum => read_enum(alloc, left, numbers, at),
        TypeKind::Coroutine => read_coroutine(alloc, left, numbers, at),
    }
}

/// A type in which less than so many are nested in one another.
#[cycle(read)]
fn read_node(
    alloc: Global,
    left: u64,
    numbers: &[u64],
    at: &mut usize,
) -> Result<TypeTree, ReadError>
    ensures ok { IfOk result (λ a. front_tree left (drop at.old numbers.now) ≡
        Some (tree_of a, drop at.new numbers.now)) }
    ensures err { IfErr result (Fails (front_tree left (drop at.old numbers.now))) }
{
    if left == 0 {
        return Err(ReadError::Unreadable);
    }
    let kind = read_kind(numbers, at)?;
    read_of_kind(alloc, left - 1, kind, numbers, at)
}

/// The type that has these numbers, as `docs/NUMBERS.md` has them; no other has them.
///
/// `Unreadable` where no type has them that is nested in at most 200 others, in each of which address spaces have 32
/// bits, flags 8, counts of elements 16, and alignments are at most 2^29 bytes. `OutOfMemory` where a growth of memory
/// was refused.
pub(crate) fn read_tree(alloc: Global, numbers: &[u64]) -> Result<TypeTree, ReadError>
    ensures ok { IfOk result (λ tree. numbers.now ≡ flat_tree (tree_of tree)) }
    ensures one { IfOk result (λ tree. (t : Tree) → IsReadable 201 t → numbers.now ≡ flat_tree t → t ≡ tree_of tree) }
    ensures unreadable { IfErr result (λ e. e ≡ ReadError.Unreadable →
        (t : Tree) → IsReadable 201 t → numbers.now ≡ flat_tree t → ⊥) }
{
    let mut at = 0;
    let tree = read_node(alloc, MOST_NESTED, numbers, &mut at)?;
    if at >= numbers.len() {
        Ok(tree)
    } else {
        Err(ReadError::Unreadable)
    }
}
