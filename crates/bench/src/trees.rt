//! Trees of types, and walks over types that were laid out: their padding, what a variant leaves unused, and the register
//! they are passed in.

ghost use Rattle.abi_tree.specs.Handles.{IsHandle};

use crate::inputs::{Numbers, scalar};
use crate::report::{Line, Outcome, time};
use abi_base::TargetDataLayout as Target;
use abi_index::VariantIdx;
use abi_scalar::{ReprOptions, Variants};
use abi_tree::Laid;
use abi_types::{HomogeneousAggregate, TyAndLayout};
use rustc_abi::{TreeTy, TypeTree, lay_out};
use std::alloc::{AllocError, Global};

/// A scalar, by its place among the leaves.
fn leaf(place: u64) -> TypeTree {
    TypeTree::Scalar(scalar(place))
}

/// A struct of these fields.
fn struct_of(fields: Vec<TypeTree>) -> TypeTree {
    TypeTree::Struct {
        repr: ReprOptions::default(),
        always_sized: true,
        fields,
    }
}

/// A struct of eight scalars.
fn struct_of_eight(alloc: Global, numbers: &mut Numbers) -> Result<TypeTree, AllocError> {
    let mut fields = Vec::with_capacity(alloc, 8)?;
    for _step in 0..8 {
        fields.push(leaf(numbers.below(5)))?;
    }
    Ok(struct_of(fields))
}

/// A struct of structs of eight scalars, of `nodes` nodes in all, or some less.
pub(crate) fn wide_tree(alloc: Global, nodes: u64) -> Result<TypeTree, AllocError> {
    let mut numbers = Numbers(11);
    let mut fields = Vec::new(alloc);
    for _step in 0..nodes.saturating_sub(1) / 9 {
        fields.push(struct_of_eight(alloc, &mut numbers)?)?;
    }
    Ok(struct_of(fields))
}

/// `depth` structs of a scalar and the struct within, each in the next.
pub(crate) fn deep_tree(alloc: Global, depth: u64) -> Result<TypeTree, AllocError> {
    let mut numbers = Numbers(13);
    let mut tree = leaf(numbers.below(5));
    for _step in 0..depth {
        let mut fields = Vec::with_capacity(alloc, 2)?;
        fields.push(leaf(numbers.below(5)))?;
        fields.push(tree)?;
        tree = struct_of(fields);
    }
    Ok(tree)
}

/// A struct of `count` fields, each a `u64`.
pub(crate) fn struct_of_words(alloc: Global, count: u64) -> Result<TypeTree, AllocError> {
    let mut fields = Vec::new(alloc);
    for _step in 0..count {
        fields.push(leaf(4))?;
    }
    Ok(struct_of(fields))
}

/// An enum of `count` variants, each of a `u64`, or of a `u16` and a `u8`, in turn.
pub(crate) fn enum_in_turn(alloc: Global, count: u64) -> Result<TypeTree, AllocError> {
    let mut variants = Vec::new(alloc);
    for step in 0..count {
        let fields = if step % 2 == 0 {
            vec![in alloc; leaf(4)]?
        } else {
            vec![in alloc; leaf(2), leaf(0)]?
        };
        variants.push((u128::from(step), fields))?;
    }
    let repr = ReprOptions::default();
    Ok(TypeTree::Enum { repr, variants })
}

/// The size of a type that is laid out, 0 where it is refused.
fn size_of_tree(alloc: Global, dl: &Target, tree: &TypeTree) -> u64 {
    match lay_out(alloc, dl, tree) {
        Ok(laid) => laid.layout().size.bytes(),
        Err(_) => 0,
    }
}

/// A type with its layout.
type Handle<'a> = TyAndLayout<'a, TreeTy<'a>>;

/// How many runs of padding a type has, 0 where its size isn't known.
fn padding_of(alloc: Global, root: Handle<'_>) -> u64
    requires { IsHandle root }
{
    if root.data().is_unsized() {
        return 0;
    }
    match root.variant_independent_padding_ranges(alloc, &()) {
        Ok(runs) => runs.as_slice().len() as u64,
        Err(_) => 0,
    }
}

/// How many runs the variant at index 1 leaves to others, 0 where it is none.
fn unused_of(alloc: Global, root: Handle<'_>) -> u64
    requires { IsHandle root }
{
    let Variants::Multiple { variants, .. } = &root.data().variants else {
        return 0;
    };
    if variants.len() < 2 {
        return 0;
    }
    match root.variant_dependent_padding_ranges(alloc, &(), VariantIdx::from_u32(1)) {
        Ok(runs) => runs.as_slice().len() as u64,
        Err(_) => 0,
    }
}

/// The size of the registers that a type is passed in, 0 where they aren't all of one kind and size.
fn register_of(root: Handle<'_>) -> u64
    requires { IsHandle root }
{
    match root.homogeneous_aggregate(&()) {
        Ok(HomogeneousAggregate::Homogeneous(register)) => register.size.bytes(),
        _ => 0,
    }
}

/// How many runs of padding the nodes of a type list, 0 where memory is refused.
fn node_padding_of(alloc: Global, laid: &Laid) -> u64 {
    match laid.padding(alloc) {
        Ok((runs, _visits)) => runs.as_slice().len() as u64,
        Err(_) => 0,
    }
}

/// What the walk of this name answers: padding, by nodes or by the handle, what a variant leaves unused, or a register.
fn walk_over(alloc: Global, laid: &Laid, name: &str) -> u64 {
    match name {
        "padding_wide" => node_padding_of(alloc, laid),
        "padding_walk_wide" => padding_of(alloc, laid.root()),
        "homogeneous_aggregate" => register_of(laid.root()),
        _ => unused_of(alloc, laid.root()),
    }
}

/// Times the layout of a tree.
pub(crate) fn time_layout(rt: &HostRuntime, dl: &Target, line: Line, tree: TypeTree) -> Outcome {
    time(rt, line, &move |alloc| size_of_tree(alloc, dl, &tree))
}

/// Times a walk over a tree that was laid out.
pub(crate) fn time_walk(rt: &HostRuntime, dl: &Target, line: Line, tree: TypeTree) -> Outcome {
    match lay_out(rt.alloc(), dl, &tree) {
        Ok(laid) => time(rt, line, &move |alloc| walk_over(alloc, &laid, line.name)),
        Err(_) => time(rt, line, &|_alloc| 0),
    }
}
