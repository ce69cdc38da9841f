//! A binding generator: where a C compiler has the fields of a struct.

mod enums;
mod fields;
mod unions;

ghost use Rattle.std.specs.Prelude.{◌≡◌, IfErr, IfOk, List, None, Ok, Option, map, true, ℕ};
ghost use Rattle.abi_scalar.specs.Repr.{has_fixed_order, is_c};
ghost use Rattle.abi_tree.specs.Placed.{Placed};
ghost use Rattle.abi_tree.specs.Tree.{Tree, Trees, tree_of, trees};
ghost use Rattle.rustc_abi.specs.Fault.{IsRefusedFor};
ghost use Rattle.rustc_abi.specs.Laying.{AreLaying};
ghost use Rattle.guarantees.specs.InC.{HasExtent, IsInC, IsLaidOutAs, LieAsInC, least_align};

pub use enums::c_enum;
pub use fields::{CFault, CRefusal, c_struct};
use rustc_abi::{
    Align, FieldIdx, FieldsShape, IndexVec, LayError, ReprFlags, ReprOptions, Size,
    TargetDataLayout, TypeTree, lay_out,
};
use std::alloc::Global;
pub use unions::c_union;

/// A struct as C has it.
#[derive(Drop)]
pub struct CStruct {
    /// How many bytes lie before each field, in source order.
    pub offsets: IndexVec<FieldIdx, Size>,
    /// How many bytes the struct has.
    pub size: Size,
    /// How the struct is aligned.
    pub align: Align,
}

/// How large C has a type, and how aligned.
#[derive(Clone, Copy)]
pub struct CExtent {
    /// How many bytes the type has.
    pub size: Size,
    /// How the type is aligned.
    pub align: Align,
}

/// What `repr(C)` asks for, beside `packed(n)` and `align(n)` where they are named.
pub(crate) fn c_repr(pack: Option<Align>, align: Option<Align>) -> ReprOptions
    ensures c { is_c result ≡ true }
    ensures fixed { has_fixed_order result ≡ true }
    ensures unnamed { result.int ≡ None }
    ensures pack { result.pack ≡ pack }
    ensures raised { result.align ≡ align }
{
    ReprOptions {
        align,
        pack,
        flags: ReprFlags::IS_C,
        ..ReprOptions::default()
    }
}

/// How large a laid-out type is.
pub(crate) fn extent_of(
    alloc: Global,
    dl: &TargetDataLayout,
    tree: &TypeTree,
) -> Result<CExtent, LayError>
    ensures laid { IfOk result (λ c. HasExtent dl.now (tree_of tree.now) c.size c.align) }
    ensures refused { IfErr result (IsRefusedFor dl.now (tree_of tree.now)) }
{
    let laid = lay_out(alloc, dl, tree)?;
    let layout = laid.layout();
    Ok(CExtent {
        size: layout.size,
        align: layout.align.abi,
    })
}

/// Where the fields of a laid-out struct lie, in C's order.
fn struct_of(alloc: Global, dl: &TargetDataLayout, tree: &TypeTree) -> Result<CStruct, LayError>
    requires { (pack raised : Option ℕ) × (fields : Trees) ×
        IsInC pack raised (tree_of tree.now) fields }
    ensures placed { IfOk result (λ c. (pack raised : Option ℕ) (fields : Trees) →
        IsInC pack raised (tree_of tree.now) fields →
        (placed : List Placed) × AreLaying dl.now fields (Ok placed) ×
        LieAsInC pack (least_align dl.now pack raised) placed c.offsets c.size c.align) }
    ensures laid { IfOk result (λ c.
        IsLaidOutAs dl.now (tree_of tree.now) c.offsets c.size c.align) }
    ensures refused { IfErr result (IsRefusedFor dl.now (tree_of tree.now)) }
{
    let laid = lay_out(alloc, dl, tree)?;
    let layout = laid.layout();
    match &layout.fields {
        FieldsShape::Arbitrary {
            offsets,
            in_memory_order: _,
        } => Ok(CStruct {
            offsets: offsets.try_clone(alloc)?,
            size: layout.size,
            align: layout.align.abi,
        }),
        _ => unreachable!(),
    }
}

/// Where C has the fields of a struct, under a data layout: `repr(C)`, beside `packed(n)` and `align(n)` where they are
/// named. A packed field is aligned to n at most, the struct to the other n at least.
///
/// The errors are those of `lay_out`.
pub fn c_struct_with(
    alloc: Global,
    dl: &TargetDataLayout,
    fields: Vec<TypeTree>,
    pack: Option<Align>,
    align: Option<Align>,
) -> Result<CStruct, LayError>
    // Of the fields as they are laid out by themselves.
    ensures placed { IfOk result (λ c. (placed : List Placed) ×
        AreLaying dl.now (trees (map tree_of fields.items)) (Ok placed) ×
        LieAsInC pack (least_align dl.now pack align) placed c.offsets c.size c.align) }

    // They are those of the struct as it is laid out; it is refused only where it has no layout, or memory is wanting.
    ensures laid { IfOk result (λ c. (tree : Tree) ×
        IsInC pack align tree (trees (map tree_of fields.items)) ×
        IsLaidOutAs dl.now tree c.offsets c.size c.align) }
    ensures refused { IfErr result (λ e. (tree : Tree) ×
        IsInC pack align tree (trees (map tree_of fields.items)) × IsRefusedFor dl.now tree e) }
{
    let tree = TypeTree::Struct {
        repr: c_repr(pack, align),
        always_sized: true,
        fields,
    };
    struct_of(alloc, dl, &tree)
}

/// Where C has the fields of a struct, under a data layout.
///
/// The errors are those of `lay_out`.
pub fn c_offsets(
    alloc: Global,
    dl: &TargetDataLayout,
    fields: Vec<TypeTree>,
) -> Result<CStruct, LayError>
    // Of the fields as they are laid out by themselves.
    ensures placed { IfOk result (λ c. (placed : List Placed) ×
        AreLaying dl.now (trees (map tree_of fields.items)) (Ok placed) ×
        LieAsInC None dl.now.aggregate_align placed c.offsets c.size c.align) }

    // They are those of the struct as it is laid out; it is refused only where it has no layout, or memory is wanting.
    ensures laid { IfOk result (λ c. (tree : Tree) × IsInC None None tree (trees (map tree_of fields.items)) ×
        IsLaidOutAs dl.now tree c.offsets c.size c.align) }
    ensures refused { IfErr result (λ e. (tree : Tree) ×
        IsInC None None tree (trees (map tree_of fields.items)) × IsRefusedFor dl.now tree e) }
{
    c_struct_with(alloc, dl, fields, None, None)
}
