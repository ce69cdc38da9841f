//! Types that were laid out, as handles show them.

ghost use Rattle.std.specs.Prelude.{◌≡◌, ◌<◌, length};
ghost use Rattle.abi_types.specs.Ty.Typed.{marks_of};
ghost use Rattle.abi_tree.specs.Handles.{HasField, IsHandle, field_place, tree_depth, tree_type, variant_place};
ghost use Rattle.abi_tree.specs.Mark.{marks_by};
ghost use Rattle.abi_tree.specs.Typed.{marks_in, typed_at, variant_nodes};

use crate::laid::Laid;
use crate::mark::Mark;
use crate::node::Shape;
use abi_base::{PointeeInfo, Size};
use abi_index::VariantIdx;
use abi_scalar::Variants;
use abi_types::{Layout, TyAbiInterface, TyAndLayout};
use std::fmt;
use std::fmt::{Debug, Display};

/// A type that was laid out, or a part of one. Beside its layout it is a handle: it says of each field and each
/// variant its handle, and what the type is. `Laid::root` gives the handle of the whole, and `TyAndLayout` has the
/// questions. How it prints isn't promised.
#[derive(Clone, Copy, PartialEq, Eq)]
pub struct TreeTy<'a> {
    laid: &'a Laid,
    node: usize,
}

impl Debug for TreeTy<'_> {
    fn fmt<W: fmt::Write>(&self, f: &mut fmt::Formatter<W>) -> fmt::Result {
        write!(f, "type {}", self.node)
    }
}

impl Display for TreeTy<'_> {
    fn fmt<W: fmt::Write>(&self, f: &mut fmt::Formatter<W>) -> fmt::Result {
        write!(f, "type {}", self.node)
    }
}

/// The type of the node at a place, beside its layout.
pub(crate) fn handle_at(laid: &Laid, node: usize) -> TyAndLayout<'_, TreeTy<'_>>
    requires { node < length laid.now.nodes }
    ensures valid { IsHandle result }
    ensures typed { tree_type result ≡ typed_at laid.now.nodes node }
    ensures depth { tree_depth result ≡ node }
{
    TyAndLayout {
        ty: TreeTy { laid, node },
        layout: Layout(laid.nodes.layout(node)),
    }
}

/// The node of a field of a node of this shape: its elements', where it has elements; of its children the one with this
/// index; of a vector that of its lanes; of an enum with several variants that of the tag; and of a coroutine a prefix
/// field's, or behind those the tag's. A number and the type without a value have no fields.
fn field_node(shape: &Shape, i: usize) -> usize
    requires { HasField shape.now i }
    ensures { result ≡ field_place shape.now i }
{
    match shape {
        Shape::Pair { first, second } => { if i == 0 { *first } else { *second } }
        Shape::Elements { count: _, element } => *element,
        Shape::Fields(_, children) => children[i],
        Shape::Union(_, children) => children[i],
        Shape::Vector(lanes) => *lanes,
        Shape::Single(_, children) => children[i],
        Shape::Tagged {
            mark: _,
            tag,
            variants: _,
        } => *tag,
        Shape::States {
            prefix,
            tag,
            states: _,
        } => { if i < prefix.len() { prefix[i] } else { *tag } }
        Shape::Scalar(_) => unreachable!(),
        Shape::Never(_) => unreachable!(),
    }
}

/// The node of a variant or a state that a tag distinguishes; other shapes have none.
fn variant_node(shape: &Shape, v: usize) -> usize
    requires { v < length (variant_nodes shape.now) }
    ensures { result ≡ variant_place shape.now v }
{
    match shape {
        Shape::Tagged {
            mark: _,
            tag: _,
            variants,
        } => variants[v].1,
        Shape::States {
            prefix: _,
            tag: _,
            states,
        } => states[v].1,
        _ => unreachable!(),
    }
}

/// What a node of this shape says of itself.
fn mark_in(shape: &Shape) -> Mark
    ensures { marks_by result ≡ marks_in shape.now }
{
    match shape {
        Shape::Never(mark) => *mark,
        Shape::Fields(mark, _) => *mark,
        Shape::Union(mark, _) => *mark,
        Shape::Single(mark, _) => *mark,
        Shape::Tagged {
            mark,
            tag: _,
            variants: _,
        } => *mark,
        _ => Mark::Plain,
    }
}

/// What the type of a handle says of itself.
fn mark_of(this: TyAndLayout<'_, TreeTy<'_>>) -> Mark
    requires { IsHandle this }
    ensures { marks_by result ≡ marks_of (tree_type this.entry) }
{
    mark_in(this.ty.laid.nodes.node(this.ty.node).shape)
}

/// A handle needs no context to answer, so any serves.
impl<'a, C> TyAbiInterface<'a, C> for TreeTy<'a> {
    ghost use Rattle.std.specs.Prelude.{◌≡◌, ◌<◌};
    ghost use Rattle.abi_scalar.specs.Shape.{field_count};
    ghost use Rattle.abi_types.specs.Ty.Typed.{at_variant, field_in, layout_in, marks_of};
    ghost use Rattle.abi_types.specs.Ty.Lawful.{DepthFalls, NamesVariant};
    ghost use Rattle.abi_tree.specs.Handles.{IsHandle, tree_depth, tree_type};

    ghost is_valid = { IsHandle };

    ghost depth_of = { tree_depth };

    ghost typed_of = { tree_type };

    ghost layout_law = { λ this h. h.layout };

    ghost lawful_law = { λ this h. h.lawful };

    /// One of several variants or states, as a type of its own without the tag: its fields are the variant's, or the
    /// locals that are saved in the state. Where there is one variant it is the type itself, whose fields are the
    /// variant's.
    fn ty_and_layout_for_variant(
        this: TyAndLayout<'a, TreeTy<'a>>,
        _cx: &C,
        variant_index: VariantIdx,
    ) -> TyAndLayout<'a, TreeTy<'a>>
        requires valid { IsHandle this }
        requires named { NamesVariant (layout_in (tree_type this)).variants variant_index }
        ensures valid { IsHandle result }
        ensures variant { tree_type result ≡ at_variant (tree_type this.entry) variant_index }
        ensures falls { DepthFalls (layout_in (tree_type this.entry)).variants (tree_depth result)
            (tree_depth this.entry) }
    {
        match &this.layout.0.variants {
            Variants::Multiple { .. } => {
                let laid = this.ty.laid;
                let shape = laid.nodes.node(this.ty.node).shape;
                handle_at(laid, variant_node(shape, variant_index.as_usize()))
            }
            Variants::Single { index: _ } => this,
            Variants::Empty => this,
        }
    }

    /// A field. The fields of an array are its elements, and the one of a vector is the array of its lanes. The one of
    /// an enum with several variants is its tag, and a coroutine has its prefix and behind that its tag. A number has
    /// none.
    fn ty_and_layout_field(
        this: TyAndLayout<'a, TreeTy<'a>>,
        _cx: &C,
        i: usize,
    ) -> TyAndLayout<'a, TreeTy<'a>>
        requires valid { IsHandle this }
        requires within { i < field_count (layout_in (tree_type this)).fields }
        ensures valid { IsHandle result }
        ensures field { tree_type result ≡ field_in (tree_type this.entry) i }
        ensures falls { tree_depth result < tree_depth this.entry }
    {
        let laid = this.ty.laid;
        let shape = laid.nodes.node(this.ty.node).shape;
        handle_at(laid, field_node(shape, i))
    }

    /// Nothing: a tree doesn't say what stands behind its pointers.
    fn ty_and_layout_pointee_info_at(
        this: TyAndLayout<'a, TreeTy<'a>>,
        _cx: &C,
        _offset: Size,
    ) -> Option<PointeeInfo>
        requires { IsHandle this }
        ensures { result ≡ (marks_of (tree_type this.entry)).pointee _offset }
    {
        None
    }

    /// So of a struct, a union and an enum, and of each variant of an enum.
    fn is_adt(this: TyAndLayout<'a, TreeTy<'a>>) -> bool
        requires { IsHandle this }
        ensures { result ≡ (marks_of (tree_type this.entry)).is_adt }
    {
        match mark_of(this) {
            Mark::Adt {
                is_enum: _,
                is_transparent: _,
                is_passed_indirectly: _,
            } => true,
            _ => false,
        }
    }

    /// So of an enum, and of each variant of one.
    fn is_enum(this: TyAndLayout<'a, TreeTy<'a>>) -> bool
        requires { IsHandle this }
        ensures { result ≡ (marks_of (tree_type this.entry)).is_enum }
    {
        match mark_of(this) {
            Mark::Adt {
                is_enum,
                is_transparent: _,
                is_passed_indirectly: _,
            } => is_enum,
            _ => false,
        }
    }

    /// So of the tree of the type without a value alone, and not of other types that have none.
    fn is_never(this: TyAndLayout<'a, TreeTy<'a>>) -> bool
        requires { IsHandle this }
        ensures { result ≡ (marks_of (tree_type this.entry)).is_never }
    {
        match mark_of(this) {
            Mark::Never => true,
            _ => false,
        }
    }

    /// So of the tuple of no types alone: trees have no other.
    fn is_tuple(this: TyAndLayout<'a, TreeTy<'a>>) -> bool
        requires { IsHandle this }
        ensures { result ≡ (marks_of (tree_type this.entry)).is_tuple }
    {
        match mark_of(this) {
            Mark::Unit => true,
            _ => false,
        }
    }

    /// So of the tuple of no types.
    fn is_unit(this: TyAndLayout<'a, TreeTy<'a>>) -> bool
        requires { IsHandle this }
        ensures { result ≡ (marks_of (tree_type this.entry)).is_unit }
    {
        match mark_of(this) {
            Mark::Unit => true,
            _ => false,
        }
    }

    /// So where the `repr` is `transparent`.
    fn is_transparent(this: TyAndLayout<'a, TreeTy<'a>>) -> bool
        requires { IsHandle this }
        ensures { result ≡ (marks_of (tree_type this.entry)).is_transparent }
    {
        match mark_of(this) {
            Mark::Adt {
                is_enum: _,
                is_transparent,
                is_passed_indirectly: _,
            } => is_transparent,
            _ => false,
        }
    }

    /// Never: no tree is one.
    fn is_complex_number_lang_item(this: TyAndLayout<'a, TreeTy<'a>>, _cx: &C) -> bool
        requires { IsHandle this }
        ensures { result ≡ (marks_of (tree_type this.entry)).is_complex }
    {
        false
    }

    /// Never: no tree is one.
    fn is_scalable_vector(this: TyAndLayout<'a, TreeTy<'a>>) -> bool
        requires { IsHandle this }
        ensures { result ≡ (marks_of (tree_type this.entry)).is_scalable_vector }
    {
        false
    }

    /// So where the `repr` has this flag.
    fn is_pass_indirectly_in_non_rustic_abis_flag_set(this: TyAndLayout<'a, TreeTy<'a>>) -> bool
        requires { IsHandle this }
        ensures { result ≡ (marks_of (tree_type this.entry)).is_passed_indirectly }
    {
        match mark_of(this) {
            Mark::Adt {
                is_enum: _,
                is_transparent: _,
                is_passed_indirectly,
            } => is_passed_indirectly,
            _ => false,
        }
    }

    /// The number of its node.
    fn depth(this: TyAndLayout<'a, TreeTy<'a>>) -> u64
        requires { IsHandle this }
        ensures { result ≡ tree_depth this.entry }
    {
        this.ty.node as u64
    }
}
