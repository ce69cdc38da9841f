//! The layout of a tree, by the rules of the Reference.

ghost use Rattle.std.specs.Prelude.{◌≡◌, ◌⊎◌, IfErr, IfOk, Ok};
ghost use Rattle.std.specs.Result.{IsErrAnd};
ghost use Rattle.abi_tree.specs.Laid.{placed_of};
ghost use Rattle.abi_tree.specs.Tree.{tree_of};
ghost use Rattle.abi_base.specs.DataLayout.{IsLawfulDataLayout};
ghost use Rattle.rustc_abi.specs.Everywhere.{EachIn};
ghost use Rattle.rustc_abi.specs.Fault.{IsRefusedFor};
ghost use Rattle.rustc_abi.specs.Laying.{IsLaying};
ghost use Rattle.rustc_abi.specs.Least.{IsTooLarge};
ghost use Rattle.guarantees.specs.Reference.Chapter.{LiesAs, HasProperties, HasSimpleTypes, KeepsToC, KeepsToModifiers, KeepsToOption, KeepsToRust};
ghost use Rattle.guarantees.specs.Reference.FieldEnums.{IsCTag};
ghost use Rattle.guarantees.specs.Reference.Modifiers.{IsPackedWide};
ghost use Rattle.guarantees.specs.Reference.Tags.{HasEnumsOfIndex};
ghost use Rattle.guarantees.specs.Reference.Transparent.{IsTransparent};

use rustc_abi::{Laid, LayError, TargetDataLayout, TypeTree, lay_out};
use std::alloc::Global;

/// Lays out a tree under a data layout, as `lay_out` does, with the same errors. Each rule of the Reference's chapter on
/// type layout, and each promise of `Option`'s documentation, is a field of a clause, or a clause of its own, and holds of
/// the type and of each type in it.
pub fn lay_out_as_documented(
    alloc: Global,
    dl: &TargetDataLayout,
    tree: &TypeTree,
) -> Result<Laid, LayError>
    // Which layout it is, and when it is refused, as `lay_out` says.
    ensures laid { IfOk result (λ laid. IsLaying dl.now (tree_of tree.now) (Ok (placed_of laid))) }
    ensures refused { IfErr result (IsRefusedFor dl.now (tree_of tree.now)) }
    ensures overflow { IfErr result
        (λ e. e ≡ LayError.SizeOverflow → IsTooLarge dl.now (tree_of tree.now)) }
    ensures too_large { IsLawfulDataLayout dl.now → IsTooLarge dl.now (tree_of tree.now) →
        IsErrAnd result (λ e. (e ≡ LayError.SizeOverflow) ⊎ (e ≡ LayError.OutOfMemory)) }

    // The chapter's sections.
    ensures properties { IfOk result (HasProperties dl.now (tree_of tree.now)) }
    ensures simple { IfOk result (HasSimpleTypes dl.now (tree_of tree.now)) }
    ensures rust { IfOk result (KeepsToRust dl.now (tree_of tree.now)) }
    ensures modifiers { IfOk result (KeepsToModifiers dl.now (tree_of tree.now)) }
    ensures repr_c_enum { HasEnumsOfIndex dl.now →
        IfOk result (EachIn dl.now (tree_of tree.now) (IsCTag dl.now)) }

    // And under aggregates that are aligned to a byte.
    ensures c { dl.now.aggregate_align ≡ 0 → IfOk result (KeepsToC dl.now (tree_of tree.now)) }
    ensures repr_alignment_packed { dl.now.aggregate_align ≡ 0 →
        IfOk result (EachIn dl.now (tree_of tree.now) (IsPackedWide (LiesAs dl.now))) }
    ensures repr_transparent_layout_abi { dl.now.aggregate_align ≡ 0 →
        IfOk result (EachIn dl.now (tree_of tree.now) IsTransparent) }
    ensures option { dl.now.aggregate_align ≡ 0 →
        IfOk result (KeepsToOption dl.now (tree_of tree.now)) }
{
    lay_out(alloc, dl, tree)
}
