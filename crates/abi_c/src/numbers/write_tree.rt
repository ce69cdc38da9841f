//! Types as numbers.

ghost use Rattle.std.specs.Prelude.{◌≡◌, ◌++◌, ◌∷◌, IfOk, OnOk, map};
ghost use Rattle.abi_tree.specs.Tree.{tree_of, trees, trees_of_variants};
ghost use Rattle.abi_c.specs.Numbers.Pieces.{flat_wide};
ghost use Rattle.abi_c.specs.Numbers.FlatRepr.{flat_align, flat_int, flat_repr, flat_scalable};
ghost use Rattle.abi_c.specs.Numbers.FlatScalar.{flat_scalar};
ghost use Rattle.abi_c.specs.Numbers.FlatTree.{count_of_trees, count_of_variants, flat_tree, flat_trees, flat_variants, flat_words};

use crate::numbers::error::ReadError;
use crate::numbers::layout::{write_primitive, write_wide};
use crate::numbers::scalar::integer_number;
use abi_base::{Align, IntegerType, ScalableElt};
use abi_scalar::{ReprOptions, Scalar};
use abi_tree::TypeTree;
use bitflags::Flags;
use std::alloc::{AllocError, Global};

/// The number of an integer type, and of none.
fn int_number(int: Option<IntegerType>) -> u64
    ensures { result ≡ flat_int int }
{
    match int {
        None => 0,
        Some(IntegerType::Pointer(signed)) => 1 + u64::from(signed),
        Some(IntegerType::Fixed(integer, signed)) => {
            let number = integer_number(integer);
            3 + (number + number + u64::from(signed))
        }
    }
}

/// How many bytes an alignment is, and 0 for none. `Unreadable` of one that no type can ask for.
fn align_number(align: Option<Align>) -> Result<u64, ReadError>
    ensures { IfOk result (λ number. number ≡ flat_align align) }
{
    match align {
        None => Ok(0),
        Some(align) => if align <= Align::MAX {
            Ok(align.bytes())
        } else {
            Err(ReadError::Unreadable)
        },
    }
}

/// The number of a scalable vector, and of none.
fn scalable_number(scalable: Option<ScalableElt>) -> u64
    ensures { result ≡ flat_scalable scalable }
{
    match scalable {
        None => 0,
        Some(ScalableElt::Container) => 1,
        Some(ScalableElt::ElementCount(count)) => 2 + u64::from(count),
    }
}

/// Adds what a `repr` attribute asks for.
fn write_repr(out: &mut Vec<u64>, repr: &ReprOptions) -> Result<(), ReadError>
    ensures { OnOk result (out.new.items ≡ out.old.items ++ flat_repr repr.now) }
{
    let align = align_number(repr.align)?;
    let pack = align_number(repr.pack)?;
    let int = int_number(repr.int);
    let flags = u64::from(repr.flags.bits());
    let scalable = scalable_number(repr.scalable);
    let seed = repr.field_shuffle_seed.as_u64();
    out.extend_from_slice(&[int, align, pack, flags, scalable, seed])?;
    Ok(())
}

/// Adds a scalar of a type.
fn write_scalar(out: &mut Vec<u64>, scalar: Scalar) -> Result<(), AllocError>
    ensures { OnOk result (out.new.items ≡ out.old.items ++ flat_scalar scalar) }
{
    match scalar {
        Scalar::Initialized { value, valid_range } => {
            out.push(0)?;
            write_primitive(out, value)?;
            write_wide(out, valid_range.start)?;
            write_wide(out, valid_range.end)
        }
        Scalar::Union { value } => {
            out.push(1)?;
            write_primitive(out, value)
        }
    }
}

/// Adds numbers behind their count.
fn write_words(out: &mut Vec<u64>, words: &[u64]) -> Result<(), AllocError>
    ensures { OnOk result (out.new.items ≡ out.old.items ++ flat_words words.now) }
{
    out.push(words.len() as u64)?;
    out.extend_from_slice(words)
}

/// Adds a type that isn't one of fields. `Unreadable` of a coroutine.
#[cycle(write)]
fn write_other(out: &mut Vec<u64>, tree: &TypeTree) -> Result<(), ReadError>
    ensures { OnOk result (out.new.items ≡ out.old.items ++ flat_tree (tree_of tree.now)) }
{
    match tree {
        TypeTree::Scalar(scalar) => {
            out.push(0)?;
            write_scalar(out, *scalar)?;
        }
        TypeTree::Pair(first, second) => {
            out.push(1)?;
            write_scalar(out, *first)?;
            write_scalar(out, *second)?;
        }
        TypeTree::Never => out.push(2)?,
        TypeTree::Unit => out.push(3)?,
        TypeTree::Array(count, element) => {
            out.extend_from_slice(&[4, *count])?;
            write_tree(out, element)?;
        }
        TypeTree::Vector {
            lanes,
            packed,
            element,
        } => {
            out.extend_from_slice(&[5, *lanes, u64::from(*packed)])?;
            write_tree(out, element)?;
        }
        _ => return Err(ReadError::Unreadable),
    }
    Ok(())
}

/// Adds a type. `Unreadable` of a coroutine, and where it asks for an alignment that no type can ask for.
#[cycle(write)]
fn write_tree(out: &mut Vec<u64>, tree: &TypeTree) -> Result<(), ReadError>
    ensures { OnOk result (out.new.items ≡ out.old.items ++ flat_tree (tree_of tree.now)) }
{
    match tree {
        TypeTree::Struct {
            repr,
            always_sized,
            fields,
        } => {
            out.push(6)?;
            write_repr(out, repr)?;
            out.push(u64::from(*always_sized))?;
            write_trees(out, fields)
        }
        TypeTree::Ordered {
            repr,
            always_sized,
            order,
            fields,
        } => {
            out.push(7)?;
            write_repr(out, repr)?;
            out.push(u64::from(*always_sized))?;
            write_words(out, order)?;
            write_trees(out, fields)
        }
        TypeTree::Union { repr, fields } => {
            out.push(8)?;
            write_repr(out, repr)?;
            write_trees(out, fields)
        }
        TypeTree::Enum { repr, variants } => {
            out.push(9)?;
            write_repr(out, repr)?;
            write_variants(out, variants)
        }
        _ => write_other(out, tree),
    }
}

/// Adds types behind their count.
#[cycle(write)]
fn write_trees(out: &mut Vec<u64>, all: &[TypeTree]) -> Result<(), ReadError>
    ensures { OnOk result (out.new.items ≡ out.old.items ++
        (count_of_trees (trees (map tree_of all.now)) ∷ flat_trees (trees (map tree_of all.now)))) }
{
    out.push(all.len() as u64)?;
    for one in all {
        write_tree(out, one)?;
    }
    Ok(())
}

/// Adds variants behind their count: of each its discriminant, and its fields.
#[cycle(write)]
fn write_variants(out: &mut Vec<u64>, all: &[(u128, Vec<TypeTree>)]) -> Result<(), ReadError>
    ensures { OnOk result (out.new.items ≡ out.old.items ++
        (count_of_variants (trees_of_variants all.now) ∷ flat_variants (trees_of_variants all.now))) }
{
    out.push(all.len() as u64)?;
    for variant in all {
        write_wide(out, variant.0)?;
        write_trees(out, &variant.1)?;
    }
    Ok(())
}

/// The numbers of types behind their count, as `docs/NUMBERS.md` has them. `Unreadable` where one has no numbers, and
/// `OutOfMemory` where a growth of memory was refused.
pub(crate) fn write_flat_trees(alloc: Global, all: &[TypeTree]) -> Result<Vec<u64>, ReadError>
    ensures { IfOk result (λ numbers. numbers.items ≡
        count_of_trees (trees (map tree_of all.now)) ∷ flat_trees (trees (map tree_of all.now))) }
{
    let mut out = Vec::new(alloc);
    write_trees(&mut out, all)?;
    Ok(out)
}
