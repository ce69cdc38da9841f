//! The value that bytes hold.

ghost use Rattle.std.specs.Prelude.{◌≡◌, ◌+◌, ◌*◌, ◌<◌, ◌≤◌, ◌^◌, ◌⊎◌, All, [], ◌∷◌, IfOk, IfSome, MatchBool, MatchOption, None, Some, length, true, ℕ};
ghost use Rattle.abi_scalar.specs.Shape.{listed_offsets};
ghost use Rattle.abi_tree.specs.Value.{Value as Meant, number, value_count, value_of};
ghost use Rattle.abi_tree.specs.Values.{IsValueOf};
ghost use Rattle.abi_tree.specs.Tree.{Tree};
ghost use Rattle.abi_base.specs.declared.data_layout.TargetDataLayout.{TargetDataLayout};
ghost use Rattle.abi_tree.specs.Bytes.{number_of, picked_bytes};
ghost use Rattle.abi_tree.specs.declared.mark.Mark.{Mark};
ghost use Rattle.abi_tree.specs.Placed.{Placed, layout_of, size_of, tagged};
ghost use Rattle.abi_tree.specs.Places.{is_data_place};
ghost use Rattle.abi_tree.specs.Tag.{Names};
ghost use Rattle.abi_tree.specs.Holding.{HoldTaggedVariant, HoldEach, HoldParts, Holds, IsAt, tag_at};
ghost use Rattle.abi_tree.specs.Nodes.{tagged_variants_in, encoding_of, variant_left, own_fields, parts_at, placed_at, state_tag_offset, states_in, tag_offset, types_in};
ghost use Rattle.abi_tree.specs.Well.{all_at};
ghost use Rattle.abi_tree.specs.Room.{tagged_variants_have_room, has_room, have_room};
ghost use Rattle.abi_tree.specs.Widths.{is_narrow};
ghost use Rattle.abi_scalar.specs.Scalar.{IsNumberOf};
ghost use Rattle.abi_index.specs.RangeSet.{AreMaximalRuns, is_in_ranges};
ghost use Rattle.abi_tree.specs.Laid.{endian_of, placed_of};
ghost use Rattle.abi_tree.specs.declared.value.Value.{Num, List, Variant};
ghost use Rattle.abi_tree.specs.Reading.{Finds, FindsEach, FindsNamed, FindsNumber, HoldsTwo, IsList, IsNamedIn, KeepsValues};

use crate::counted::CountedNodes;
use crate::laid::Laid;
use crate::node::{Shape, offsets, state_tag_offset, tag_offset};
use crate::runs_of::data_places;
use crate::value::Value;
use crate::value::named::{encoding_of, is_named, own_parts};
use crate::value::number::{number_in, part_of};
use crate::value::walk::ValueWalk;
use abi_base::{Endian, Size};
use abi_index::{FieldIdx, Idx, VariantIdx};
use abi_scalar::{LayoutData, Scalar, TagEncoding, Variants};
use std::alloc::{AllocError, Global};

/// The number that a scalar's bytes hold.
fn scalar_number(scalar: &Scalar, order: Endian, bytes: &[u8]) -> Option<u128>
    requires { is_narrow (length bytes.now) scalar.now ≡ true }
    ensures { MatchOption result
        ((n : ℕ) → n ≡ number_of order bytes.now → IsNumberOf (length bytes.now) scalar.now n → ⊥)
        (λ n. (n ≡ number_of order bytes.now) × IsNumberOf (length bytes.now) scalar.now n) }
{
    let number = number_in(order, bytes);
    match scalar {
        Scalar::Initialized {
            value: _,
            valid_range,
        } => {
            if valid_range.contains(number) {
                Some(number)
            } else {
                None
            }
        }
        Scalar::Union { value: _ } => Some(number),
    }
}

/// The number that these bytes hold as those of a node, where it is a scalar.
fn read_number(walk: ValueWalk<'_>, node: usize, bytes: &[u8]) -> Option<u128>
    requires there { node < length walk.nodes.now }
    ensures { FindsNumber (λ n.
        Holds walk.entry.order (placed_at walk.entry.nodes.now node) bytes.now (number n)) result }
{
    let nodes = walk.nodes;
    let here = nodes.node(node);
    if bytes.len() as u64 != here.layout.size.bytes() {
        return None;
    }
    match here.shape {
        Shape::Scalar(scalar) => scalar_number(scalar, walk.order, bytes),
        _ => None,
    }
}

/// The number that a scalar at the offset in these bytes holds.
fn read_number_at(walk: ValueWalk<'_>, node: usize, offset: u64, bytes: &[u8]) -> Option<u128>
    requires there { node < length walk.nodes.now }
    ensures { FindsNumber (λ n. IsAt offset (size_of (placed_at walk.entry.nodes.now node))
        (λ slice. Holds walk.entry.order (placed_at walk.entry.nodes.now node) slice (number n))
        bytes.now) result }
{
    let part = part_of(bytes, offset, walk.nodes.layout(node).size.bytes())?;
    read_number(walk, node, part)
}

/// The two numbers at the first two offsets.
fn read_pair(
    walk: ValueWalk<'_>,
    offsets: &[Size],
    first: usize,
    second: usize,
    bytes: &[u8],
) -> Option<Value>
    requires first { first < length walk.nodes.now }
    requires second { second < length walk.nodes.now }
    ensures { Finds (HoldsTwo walk.entry.order
        (parts_at offsets.now (all_at walk.entry.nodes.now (first ∷ second ∷ []))) bytes.now)
        result }
{
    match offsets {
        [a, b, ..] => {
            let one = read_number_at(walk, first, a.bytes(), bytes)?;
            let two = read_number_at(walk, second, b.bytes(), bytes)?;
            Some(Value::Pair(one, two))
        }
        _ => None,
    }
}

/// A union's data bytes, which are those of these runs.
fn read_places(alloc: Global, runs: &[(u64, u64)], bytes: &[u8]) -> Result<Vec<u8>, AllocError>
    requires maximal { AreMaximalRuns 0 runs.now }
    requires inside { All (λ run. run.0 + run.1 ≤ length bytes.now) runs.now }
    ensures { IfOk result (λ content.
        content.items ≡ picked_bytes (is_in_ranges runs.now) 0 bytes.now) }
{
    let mut content = Vec::new(alloc);
    for run in runs {
        match part_of(bytes, run.0, run.1) {
            Some(part) => content.extend_from_slice(part)?,
            None => return Ok(content),
        }
    }
    Ok(content)
}

/// A union's data bytes.
fn read_union(walk: ValueWalk<'_>, node: usize, bytes: &[u8]) -> Result<Vec<u8>, AllocError>
    requires there { node < length walk.nodes.now }
    requires room { has_room (placed_at walk.nodes.now node) ≡ true }
    requires size { length bytes.now ≡ size_of (placed_at walk.nodes.now node) }
    ensures { IfOk result (λ content. content.items
        ≡ picked_bytes (is_data_place (placed_at walk.entry.nodes.now node)) 0 bytes.now) }
{
    let places = data_places(walk.alloc, CountedNodes::new(walk.nodes), node)?;
    read_places(walk.alloc, places.as_slice(), bytes)
}

/// A number as a value.
fn as_number(found: Option<u128>) -> Option<Value>
    ensures { MatchOption found (result ≡ None) (λ n. result ≡ Some (Num n)) }
{
    found.map(Value::Num)
}

/// Values as those of a list.
fn as_list(found: Option<Vec<Value>>) -> Option<Value>
    ensures { MatchOption found (result ≡ None) (λ values. result ≡ Some (List values)) }
{
    found.map(Value::List)
}

/// Values as those of the variant with this index.
fn as_variant(index: usize, found: Option<Vec<Value>>) -> Option<Value>
    ensures { MatchOption found (result ≡ None) (λ values. result ≡ Some (Variant index values)) }
{
    Some(Value::Variant(index, found?))
}

/// Values as those of the variant with the index beside them.
fn as_named(found: Option<(usize, Vec<Value>)>) -> Option<Value>
    ensures { MatchOption found (result ≡ None) (λ named. result ≡ Some (Variant named.0 named.1)) }
{
    let (index, values) = found?;
    Some(Value::Variant(index, values))
}

/// Whether the value is a list.
fn is_list(value: &Value) -> bool
    ensures { MatchBool result (IsList (value_of value.now)) (IsList (value_of value.now) → ⊥) }
{
    match value {
        Value::List(_) => true,
        _ => false,
    }
}

/// The value, where it is a list.
fn only_list(found: Option<Value>) -> Option<Value>
    ensures { MatchOption found (result ≡ None) (λ v.
        ((result ≡ Some v) × IsList (value_of v)) ⊎ ((result ≡ None) × (IsList (value_of v) → ⊥))) }
{
    let value = found?;
    if is_list(&value) { Some(value) } else { None }
}

/// Which variant is left of an enum without a tag.
fn index_left(layout: &LayoutData<FieldIdx, VariantIdx>) -> usize
    ensures { result ≡ variant_left layout.now.variants }
{
    match &layout.variants {
        Variants::Single { index } => index.as_usize(),
        _ => 0,
    }
}

/// The value that these bytes hold as those of a node.
#[cycle(read)]
pub(crate) fn read_node(
    walk: ValueWalk<'_>,
    node: usize,
    bytes: &[u8],
) -> Result<Option<Value>, AllocError>
    requires there { node < length walk.nodes.now }
    requires room { has_room (placed_at walk.nodes.now node) ≡ true }
    ensures { IfOk result (Finds (Holds walk.entry.order
        (placed_at walk.entry.nodes.now node) bytes.now)) }
{
    let nodes = walk.nodes;
    let here = nodes.node(node);
    let layout = here.layout;
    if bytes.len() as u64 != layout.size.bytes() {
        return Ok(None);
    }
    match here.shape {
        Shape::Scalar(_) => Ok(as_number(read_number(walk, node, bytes))),
        Shape::Pair { first, second } => {
            Ok(read_pair(walk, offsets(layout), *first, *second, bytes))
        }
        Shape::Never(_) => Ok(None),
        Shape::Elements { count, element } => {
            let found = read_elements(walk, *element, *count, bytes)?;
            Ok(as_list(found))
        }
        Shape::Fields(_, children) => {
            let found = read_parts(walk, node, offsets(layout), children, bytes)?;
            Ok(as_list(found))
        }
        Shape::Union(_, _) => Ok(Some(Value::Union(read_union(walk, node, bytes)?))),
        Shape::Vector(lanes) => {
            let found = read_part(walk, *lanes, 0, bytes)?;
            Ok(only_list(found))
        }
        Shape::Single(_, children) => {
            let found = read_parts(walk, node, offsets(layout), children, bytes)?;
            Ok(as_variant(index_left(layout), found))
        }
        Shape::Tagged {
            mark: _,
            tag,
            variants,
        } => read_variant(walk, node, layout, *tag, variants, bytes),
        Shape::States {
            prefix,
            tag,
            states,
        } => read_state(walk, node, layout, prefix, *tag, states, bytes),
    }
}

/// The value that a node at the offset in these bytes holds.
#[cycle(read)]
fn read_part(
    walk: ValueWalk<'_>,
    node: usize,
    offset: u64,
    bytes: &[u8],
) -> Result<Option<Value>, AllocError>
    requires there { node < length walk.nodes.now }
    requires room { has_room (placed_at walk.nodes.now node) ≡ true }
    ensures { IfOk result (Finds (λ v. IsAt offset (size_of (placed_at walk.entry.nodes.now node))
        (λ slice. Holds walk.entry.order (placed_at walk.entry.nodes.now node) slice v)
        bytes.now)) }
{
    match part_of(bytes, offset, walk.nodes.layout(node).size.bytes()) {
        Some(part) => read_node(walk, node, part),
        None => Ok(None),
    }
}

/// The values of `count` elements, one after another.
#[cycle(read)]
fn read_elements(
    walk: ValueWalk<'_>,
    element: usize,
    count: u64,
    bytes: &[u8],
) -> Result<Option<Vec<Value>>, AllocError>
    requires there { element < length walk.nodes.now }
    requires room { has_room (placed_at walk.nodes.now element) ≡ true }
    requires size { length bytes.now ≡ size_of (placed_at walk.nodes.now element) * count }
    ensures { IfOk result (FindsEach (λ vs. (value_count vs ≡ count) ×
        HoldEach (Holds walk.entry.order (placed_at walk.entry.nodes.now element))
        (size_of (placed_at walk.entry.nodes.now element)) 0 bytes.now vs)) }
{
    let size = walk.nodes.layout(element).size.bytes();
    let mut values = Vec::with_capacity(walk.alloc, count as usize)?;
    for i in 0..count {
        match read_part(walk, element, i * size, bytes)? {
            Some(value) => values.push(value)?,
            None => return Ok(None),
        }
    }
    Ok(Some(values))
}

/// The values of fields at these offsets, each as a node before this one.
#[cycle(read)]
fn read_parts(
    walk: ValueWalk<'_>,
    node: usize,
    offsets: &[Size],
    children: &[usize],
    bytes: &[u8],
) -> Result<Option<Vec<Value>>, AllocError>
    requires there { node < length walk.nodes.now }
    requires before { All (λ child. child < node) children.now }
    requires room { have_room (length bytes.now)
        (parts_at offsets.now (all_at walk.nodes.now children.now)) ≡ true }
    ensures { IfOk result (FindsEach (HoldParts walk.entry.order
        (parts_at offsets.now (all_at walk.entry.nodes.now children.now)) bytes.now)) }
{
    let count = offsets.len().min(children.len());
    let mut values = Vec::with_capacity(walk.alloc, count)?;
    for i in 0..count {
        match read_part(walk, children[i], offsets[i].bytes(), bytes)? {
            Some(value) => values.push(value)?,
            None => return Ok(None),
        }
    }
    Ok(Some(values))
}

/// The variant that the tag names, and the values of its fields.
#[cycle(read)]
fn read_named(
    walk: ValueWalk<'_>,
    node: usize,
    encoding: &TagEncoding<VariantIdx>,
    tag: usize,
    offset: u64,
    variants: &[(u128, usize)],
    bytes: &[u8],
) -> Result<Option<(usize, Vec<Value>)>, AllocError>
    requires there { node < length walk.nodes.now }
    requires first { tag < node }
    requires before { All (λ v. v.1 < node) variants.now }
    requires width { size_of (placed_at walk.nodes.now tag) ≤ 16 }
    requires room { tagged_variants_have_room (length bytes.now)
        (tagged_variants_in (types_in walk.nodes.now) variants.now) ≡ true }
    ensures { IfOk result (FindsNamed (IsNamedIn walk.entry.order bytes.now encoding.now offset
        (placed_at walk.entry.nodes.now tag)
        (tagged_variants_in (types_in walk.entry.nodes.now) variants.now))) }
{
    let width = walk.nodes.layout(tag).size;
    match part_of(bytes, offset, width.bytes()) {
        Some(part) => {
            let number = number_in(walk.order, part);
            read_tagged_variant(walk, node, encoding, width, number, variants, bytes)
        }
        None => Ok(None),
    }
}

/// The variant that the number of a tag of this width names, and the values of its fields.
#[cycle(read)]
fn read_tagged_variant(
    walk: ValueWalk<'_>,
    node: usize,
    encoding: &TagEncoding<VariantIdx>,
    width: Size,
    tag: u128,
    variants: &[(u128, usize)],
    bytes: &[u8],
) -> Result<Option<(usize, Vec<Value>)>, AllocError>
    requires there { node < length walk.nodes.now }
    requires before { All (λ v. v.1 < node) variants.now }
    requires width { width ≤ 16 }
    requires room { tagged_variants_have_room (length bytes.now)
        (tagged_variants_in (types_in walk.nodes.now) variants.now) ≡ true }
    ensures { IfOk result (FindsNamed (λ i vs. Names encoding.now width
        (tagged_variants_in (types_in walk.entry.nodes.now) variants.now) tag i × HoldTaggedVariant walk.entry.order
        (tagged_variants_in (types_in walk.entry.nodes.now) variants.now) i bytes.now vs)) }
{
    for i in 0..variants.len() {
        if is_named(walk.nodes, encoding, width, variants, i, tag) {
            if let Some(values) = read_own(walk, variants[i].1, bytes)? {
                return Ok(Some((i, values)));
            }
        }
    }
    Ok(None)
}

/// The values of the fields of a variant, which has a node of its own.
#[cycle(read)]
fn read_own(
    walk: ValueWalk<'_>,
    variant: usize,
    bytes: &[u8],
) -> Result<Option<Vec<Value>>, AllocError>
    requires there { variant < length walk.nodes.now }
    requires room { have_room (length bytes.now)
        (own_fields (placed_at walk.nodes.now variant)) ≡ true }
    ensures { IfOk result (FindsEach (HoldParts walk.entry.order
        (own_fields (placed_at walk.entry.nodes.now variant)) bytes.now)) }
{
    let (offsets, children) = own_parts(walk.nodes, variant);
    read_parts(walk, variant, offsets, children, bytes)
}

/// The variant that the tag beside these variants names, and the values of its fields.
#[cycle(read)]
fn read_variant(
    walk: ValueWalk<'_>,
    node: usize,
    layout: &LayoutData<FieldIdx, VariantIdx>,
    tag: usize,
    variants: &[(u128, usize)],
    bytes: &[u8],
) -> Result<Option<Value>, AllocError>
    requires there { node < length walk.nodes.now }
    requires first { tag < node }
    requires before { All (λ v. v.1 < node) variants.now }
    requires width { size_of (placed_at walk.nodes.now tag) ≤ 16 }
    requires size { length bytes.now ≡ layout.now.size }
    requires room { tagged_variants_have_room layout.now.size
        (tagged_variants_in (types_in walk.nodes.now) variants.now) ≡ true }
    ensures { IfOk result (λ found. (mark : Mark) →
        Finds (Holds walk.entry.order (tagged layout.now mark (tag_offset layout.now)
        (placed_at walk.entry.nodes.now tag) (encoding_of layout.now.variants)
        (tagged_variants_in (types_in walk.entry.nodes.now) variants.now)) bytes.now) found) }
{
    let encoding = encoding_of(layout);
    let offset = tag_offset(layout);
    let found = read_named(walk, node, &encoding, tag, offset, variants, bytes)?;
    Ok(as_named(found))
}

/// The state that the tag names, the values of the prefix fields, and those of the state's locals.
#[cycle(read)]
fn read_state(
    walk: ValueWalk<'_>,
    node: usize,
    layout: &LayoutData<FieldIdx, VariantIdx>,
    prefix: &[usize],
    tag: usize,
    states: &[(u128, usize)],
    bytes: &[u8],
) -> Result<Option<Value>, AllocError>
    requires there { node < length walk.nodes.now }
    requires fields { All (λ child. child < node) prefix.now }
    requires first { tag < node }
    requires before { All (λ v. v.1 < node) states.now }
    requires width { size_of (placed_at walk.nodes.now tag) ≤ 16 }
    requires size { length bytes.now ≡ layout.now.size }
    requires room { has_room
        (states_in (types_in walk.nodes.now) layout.now prefix.now tag states.now) ≡ true }
    ensures { IfOk result (Finds (Holds walk.entry.order (states_in (types_in walk.entry.nodes.now)
        layout.now prefix.now tag states.now) bytes.now)) }
{
    let offset = state_tag_offset(layout, prefix.len());
    let shared = match read_parts(walk, node, offsets(layout), prefix, bytes)? {
        Some(shared) => shared,
        None => return Ok(None),
    };
    let found = read_named(walk, node, &TagEncoding::Direct, tag, offset, states, bytes)?;
    match found {
        Some((state, locals)) => Ok(Some(Value::State {
            state,
            prefix: shared,
            locals,
        })),
        None => Ok(None),
    }
}

/// The value of the type that these bytes hold, where they hold one; they hold at most one, and none where they aren't
/// as many as the type is large. `AllocError` where a growth of memory was refused.
pub fn read_value(alloc: Global, laid: &Laid, bytes: &[u8]) -> Result<Option<Value>, AllocError>
    // What is answered: the value that they hold, and None where they hold none.
    ensures finds { IfOk result (Finds (Holds (endian_of laid.now)
        (placed_of laid.now) bytes.now)) }

    // For each tree whose values the layout keeps, it is one of them, and the only one that they hold.
    ensures value { IfOk result (λ found.
        IfSome found (λ v. (dl : TargetDataLayout) (tree : Tree) → KeepsValues dl tree laid.now →
        IsValueOf dl tree (placed_of laid.now) (value_of v))) }
    ensures one { IfOk result (λ found. IfSome found (λ v. (dl : TargetDataLayout) (tree : Tree) →
        KeepsValues dl tree laid.now → (other : Meant) →
        Holds (endian_of laid.now) (placed_of laid.now) bytes.now other → other ≡ value_of v)) }
{
    let nodes = laid.nodes();
    let walk = ValueWalk {
        alloc,
        order: laid.endian(),
        nodes,
    };
    read_node(walk, nodes.len() - 1, bytes)
}
