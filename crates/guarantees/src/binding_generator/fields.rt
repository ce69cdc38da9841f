//! Structs of fields that C has.

ghost use Rattle.std.specs.Prelude.{◌≡◌, Err, IfErr, IfOk, List, None, Ok, Some, ℕ, length, map};
ghost use Rattle.abi_tree.specs.Placed.{Placed};
ghost use Rattle.abi_tree.specs.Tree.{Tree, tree_of, trees};
ghost use Rattle.rustc_abi.specs.Fault.{IsRefusedFor};
ghost use Rattle.rustc_abi.specs.Laying.{AreLaying};
ghost use Rattle.guarantees.specs.FieldOfC.{c_enum_fault, field_fault, first_fault, list_fault, order_fault};
ghost use Rattle.guarantees.specs.InC.{IsInC, LieAsInC};

use crate::binding_generator::{CStruct, c_offsets};
use rustc_abi::{LayError, ReprOptions, TargetDataLayout, TypeTree};
use std::alloc::Global;

/// Why C has no field of a type.
#[derive(Clone, Copy)]
pub enum CFault {
    /// It has no bytes, as no type of C.
    NoSize,
    /// It has no value.
    NoValue,
    /// Its parts lie as Rust likes, and not as C has them.
    NoOrder,
    /// C has no such type: two numbers, a vector or a coroutine.
    NoType,
}

/// Why there is no struct of C.
#[derive(Clone, Copy)]
pub enum CRefusal {
    /// The first field that C hasn't, and why.
    Field(usize, CFault),
    /// The struct has no layout, or memory is wanting.
    Layout(LayError),
}

/// Whether Rust lays parts out under this `repr` as it likes.
fn order_fault(repr: &ReprOptions) -> Option<CFault>
    ensures { result ≡ order_fault repr.now }
{
    if repr.c() {
        None
    } else {
        Some(CFault::NoOrder)
    }
}

/// Why C hasn't `count` fields under this `repr`.
fn list_fault(repr: &ReprOptions, count: usize) -> Option<CFault>
    ensures { result ≡ list_fault repr.now count }
{
    if count == 0 {
        Some(CFault::NoSize)
    } else {
        order_fault(repr)
    }
}

/// Why C has no enum of `count` variants under this `repr`.
fn enum_fault(repr: &ReprOptions, count: usize) -> Option<CFault>
    ensures { result ≡ c_enum_fault repr.now count }
{
    if count == 0 {
        Some(CFault::NoValue)
    } else {
        order_fault(repr)
    }
}

/// Why C has no field of this type, if it has none.
fn field_fault(tree: &TypeTree) -> Option<CFault>
    ensures { result ≡ field_fault (tree_of tree.now) }
{
    match tree {
        TypeTree::Scalar(_) => None,
        TypeTree::Never => Some(CFault::NoValue),
        TypeTree::Unit => Some(CFault::NoSize),
        TypeTree::Array(count, element) => {
            if *count == 0 {
                Some(CFault::NoSize)
            } else {
                field_fault(element)
            }
        }
        TypeTree::Struct {
            repr,
            always_sized: _,
            fields,
        } => list_fault(repr, fields.len()),
        TypeTree::Ordered { .. } => Some(CFault::NoOrder),
        TypeTree::Union { repr, fields } => list_fault(repr, fields.len()),
        TypeTree::Enum { repr, variants } => enum_fault(repr, variants.len()),
        TypeTree::Pair(_, _) => Some(CFault::NoType),
        TypeTree::Vector { .. } => Some(CFault::NoType),
        TypeTree::Coroutine { .. } => Some(CFault::NoType),
    }
}

/// The first of these fields that C hasn't, and why.
fn first_fault(fields: &[TypeTree]) -> Option<(usize, CFault)>
    ensures { result ≡ first_fault 0 (trees (map tree_of fields.now)) }
{
    for i in 0..fields.len() {
        if let Some(fault) = field_fault(&fields[i]) {
            return Some((i, fault));
        }
    }
    None
}

/// Where C has the fields of a struct, under a data layout, each of which is one that C has.
///
/// `Field` for the first one that C hasn't; else the errors of `lay_out`.
pub fn c_struct(
    alloc: Global,
    dl: &TargetDataLayout,
    fields: Vec<TypeTree>,
) -> Result<CStruct, CRefusal>
    // A field is refused exactly where it is the first that C hasn't.
    ensures field { (i : ℕ) (fault : CFault) → first_fault 0 (trees (map tree_of fields.items))
        ≡ Some (i, fault) → result ≡ Err (CRefusal.Field i fault) }
    ensures only { IfErr result (λ e. (i : ℕ) (fault : CFault) → e ≡ CRefusal.Field i fault →
        first_fault 0 (trees (map tree_of fields.items)) ≡ Some (i, fault)) }
    ensures fields { IfOk result (λ _. first_fault 0 (trees (map tree_of fields.items)) ≡ None) }

    // Of the fields as they are laid out by themselves.
    ensures placed { IfOk result (λ c. (placed : List Placed) ×
        AreLaying dl.now (trees (map tree_of fields.items)) (Ok placed) ×
        LieAsInC None dl.now.aggregate_align placed c.offsets c.size c.align) }
    ensures refused { IfErr result (λ r. (e : LayError) → r ≡ CRefusal.Layout e → (tree : Tree) ×
        IsInC None None tree (trees (map tree_of fields.items)) × IsRefusedFor dl.now tree e) }
{
    match first_fault(&fields) {
        Some((i, fault)) => Err(CRefusal::Field(i, fault)),
        None => match c_offsets(alloc, dl, fields) {
            Ok(offsets) => Ok(offsets),
            Err(e) => Err(CRefusal::Layout(e)),
        },
    }
}
