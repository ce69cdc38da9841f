//! The layout of a tree.

ghost use Rattle.std.specs.Prelude.{◌≡◌, ◌↔◌, ◌⊎◌, IfOk, IfErr, Err, Ok, Result, true, ℕ};
ghost use Rattle.std.specs.Result.{IsErrAnd};
ghost use Rattle.abi_base.specs.DataLayout.{IsLawfulDataLayout};
ghost use Rattle.abi_tree.specs.Tree.{tree_of};
ghost use Rattle.abi_tree.specs.Values.{LocalsHaveValues};
ghost use Rattle.abi_tree.specs.Deciding.{CoveredBytesDecide, EachPlaceDecides, all_inhabited_of};
ghost use Rattle.abi_tree.specs.Faithful.{IsFaithful};
ghost use Rattle.abi_scalar.specs.Lawful.{IsLawfulLayout};
ghost use Rattle.rustc_abi.specs.declared.error.LayError.{LayError};
ghost use Rattle.abi_tree.specs.Placed.{Placed, layout_of};
ghost use Rattle.abi_types.specs.Ty.Places.{is_place};
ghost use Rattle.abi_tree.specs.Laid.{placed_of, endian_of, node_count_of, typed_of};
ghost use Rattle.rustc_abi.specs.Laying.{IsLaying};
ghost use Rattle.abi_tree.specs.Places.{is_data_place};
ghost use Rattle.abi_types.specs.Ty.Walks.{is_sized};
ghost use Rattle.rustc_abi.specs.Clash.{AreClashingLocalsApart, HaveLocalsOneOffset};
ghost use Rattle.rustc_abi.specs.Count.{HasNodes};
ghost use Rattle.rustc_abi.specs.Aligns.{HasAlignOfParts};
ghost use Rattle.rustc_abi.specs.Everywhere.{EachIn};
ghost use Rattle.rustc_abi.specs.Inhabited.{EachHasValue, EachInhabited};
ghost use Rattle.rustc_abi.specs.Least.{HasOverlapSize, IsLeast, IsTooLarge};
ghost use Rattle.rustc_abi.specs.Lists.{HasLeastLists};
ghost use Rattle.rustc_abi.specs.Marks.{HasMarksOfParts};
ghost use Rattle.rustc_abi.specs.Niches.{HasNicheOfParts};
ghost use Rattle.rustc_abi.specs.Orders.{LiesAsAsked};
ghost use Rattle.abi_tree.specs.Unions.{Begins, IsCommon, InUnions};
ghost use Rattle.abi_tree.specs.Untagged.{UntaggedNamed};
ghost use Rattle.abi_tree.specs.OfTree.{KeepsTree};
ghost use Rattle.rustc_abi.specs.Fault.{IsRefusedFor};

use crate::error::LayError;
use crate::lay_tree::lay_tree;
use crate::layout_cx::LayoutCx;
use abi_base::TargetDataLayout;
use abi_tree::{Laid, Nodes, TypeTree};
use std::alloc::Global;

/// Refuses a data layout under which no type has a layout, as `UnlawfulDataLayout`: one that isn't lawful.
fn refuse_unlawful(dl: &TargetDataLayout) -> Result<(), LayError>
    ensures lawful { IfOk result (λ _. IsLawfulDataLayout dl.now) }
    ensures unlawful { IfErr result (λ e. e ≡ LayError.UnlawfulDataLayout) }
    ensures only_unlawful { IfErr result (λ _. IsLawfulDataLayout dl.now → ⊥) }
{
    if dl.is_lawful() {
        Ok(())
    } else {
        Err(LayError::UnlawfulDataLayout)
    }
}

/// Lays out a tree under a data layout: children before parents, left to right.
///
/// `UnlawfulDataLayout` where the data layout isn't lawful. Else the first fault of a part: `UnknownSpace` for a scalar
/// that is a pointer into a space that the data layout doesn't know or whose pointers aren't lawful, `BadRange` for one
/// whose range has an end that is no number of its width, `BadIndex` for a list of more fields, an enum of more
/// variants, or a coroutine of more states, of more locals in one, or of more prefix fields, tag and locals together,
/// than its index type can name, and for a coroutine with a state or a conflict that names a local that isn't there,
/// `NoState` for a coroutine without states, `LocalTwice` for one with a state that names a local twice, `BadAlign` for
/// a repr with an alignment above 2^29 bytes, `BadOrder` for a struct with an order that isn't one of its fields, moves
/// a last one that may lose its size, or stands beside a repr that fixes the order, `DuplicateDiscriminant` for an enum
/// with two equal discriminants, `DiscriminantTooWide` for one with a discriminant that is no number of their type
/// (Rust Reference, "Enumerations"), `ReprConflict` for a packed enum that isn't laid out as one variant, `EmptyUnion`
/// for a union without fields, `OversizedSimdType` and `ZeroLengthSimdType` for a vector of more than 32768 lanes or of
/// none, `NonPrimitiveSimdType` for one whose element is no scalar, `SizeOverflow` for a size that is not below the
/// data layout's bound. `OutOfMemory` where a growth of memory was refused.
pub fn lay_out(alloc: Global, dl: &TargetDataLayout, tree: &TypeTree) -> Result<Laid, LayError>
    // When it is refused, and for what.
    ensures lawful { IfOk result (λ _. IsLawfulDataLayout dl.now) }
    ensures unlawful { (IsLawfulDataLayout dl.now → ⊥) → result ≡ Err LayError.UnlawfulDataLayout }
    ensures refused { IfErr result (IsRefusedFor dl.now (tree_of tree.now)) }

    // Which layout the type has, and each type in it the one that it has by itself: there is one, and no other.
    ensures some { IsLawfulDataLayout dl.now → (r : Result Placed LayError) × IsLaying dl.now (tree_of tree.now) r }
    ensures one { (a b : Result Placed LayError) → IsLaying dl.now (tree_of tree.now) a →
        IsLaying dl.now (tree_of tree.now) b → a ≡ b }
    ensures laid { IfOk result (λ laid. IsLaying dl.now (tree_of tree.now) (Ok (placed_of laid))) }
    ensures layout { IfOk result (λ laid. IsLawfulLayout dl.now (layout_of (placed_of laid))) }
    ensures order { IfOk result (λ laid. endian_of laid ≡ dl.now.endian) }
    ensures parts { IfOk result (EachIn dl.now (tree_of tree.now) (λ t p. IsLaying dl.now t (Ok p))) }
    ensures one_each { IfOk result (EachIn dl.now (tree_of tree.now)
        (λ t p. (q : Placed) → IsLaying dl.now t (Ok q) → q ≡ p)) }
    ensures each_layout { IfOk result (EachIn dl.now (tree_of tree.now)
        (λ t p. IsLawfulLayout dl.now (layout_of p))) }

    // How large it is, in which orders lists of fields lie, and which sizes are refused.
    ensures least { IfOk result (EachIn dl.now (tree_of tree.now) (IsLeast dl.now)) }
    ensures overlap { IfOk result (EachIn dl.now (tree_of tree.now) (HasOverlapSize dl.now)) }
    ensures each_list { IfOk result (EachIn dl.now (tree_of tree.now) (HasLeastLists dl.now)) }
    ensures placed { IfOk result (EachIn dl.now (tree_of tree.now) (LiesAsAsked dl.now)) }
    ensures overflow { IfErr result (λ e. e ≡ LayError.SizeOverflow → IsTooLarge dl.now (tree_of tree.now)) }
    ensures too_large { IsLawfulDataLayout dl.now → IsTooLarge dl.now (tree_of tree.now) →
        IsErrAnd result (λ e. (e ≡ LayError.SizeOverflow) ⊎ (e ≡ LayError.OutOfMemory)) }

    // Which niche each type in it has, how it is aligned, and what it says of itself, from its parts.
    ensures best_niche { IfOk result (EachIn dl.now (tree_of tree.now) (HasNicheOfParts dl.now)) }
    ensures alignment { IfOk result (EachIn dl.now (tree_of tree.now) (HasAlignOfParts dl.now)) }
    ensures marks { IfOk result (EachIn dl.now (tree_of tree.now) (HasMarksOfParts dl.now)) }

    // What the locals of each coroutine in it share, and with how many nodes it is laid out.
    ensures clash { IfOk result (EachIn dl.now (tree_of tree.now) AreClashingLocalsApart) }
    ensures one_offset { IfOk result (EachIn dl.now (tree_of tree.now) HaveLocalsOneOffset) }
    ensures counted { IfOk result (λ laid. HasNodes dl.now (tree_of tree.now) (node_count_of laid)) }

    // Whether each type in it has values, that it is sized, and which bytes are data places.
    ensures inhabited { IfOk result (λ laid.
        (all_inhabited_of laid ≡ true) ↔ EachInhabited dl.now (tree_of tree.now)) }
    ensures all_have { IfOk result (λ laid. EachHasValue dl.now (tree_of tree.now) → all_inhabited_of laid ≡ true) }
    ensures sized { IfOk result (λ laid. is_sized (layout_of (placed_of laid)).backend_repr ≡ true) }
    ensures places { IfOk result (λ laid. (k : ℕ) → is_place (typed_of laid) k ≡ is_data_place (placed_of laid) k) }

    // What it keeps of the values, where each local of a coroutine has one: each is held, only they are, none beside another,
    // by the data places alone; and its niche, its view and its flag are true of them.
    ensures faithful { IfOk result (λ laid. LocalsHaveValues dl.now (tree_of tree.now) →
        IsFaithful dl.now (tree_of tree.now) (placed_of laid)) }
    ensures untagged { IfOk result (λ laid. LocalsHaveValues dl.now (tree_of tree.now) →
        UntaggedNamed dl.now.endian (placed_of laid)) }
    ensures common { IfOk result (λ laid. LocalsHaveValues dl.now (tree_of tree.now) →
        InUnions (IsCommon dl.now.endian) (placed_of laid)) }
    ensures begins { IfOk result (λ laid. InUnions (Begins dl.now.endian) (placed_of laid)) }

    // What calls of the laid-out type ask of it: that its values are read and written, its places decide, and values keep to them.
    ensures of_tree { IfOk result (λ laid. KeepsTree dl.now (tree_of tree.now) laid) }

    // Which bytes decide: where each type in it has values, all but padding.
    ensures covered { IfOk result (λ laid. CoveredBytesDecide dl.now.endian (placed_of laid)) }
    ensures decides { IfOk result (λ laid. all_inhabited_of laid ≡ true →
        EachPlaceDecides dl.now.endian (placed_of laid)) }
{
    refuse_unlawful(dl)?;
    let mut nodes = Nodes::new(alloc);
    let _root = lay_tree(LayoutCx { alloc, dl }, &mut nodes, tree)?;
    Ok(Laid::new(nodes, dl.endian))
}
