//! Which variant, or state, a tag's number names.

ghost use Rattle.std.specs.Prelude.{◌≡◌, ◌≢◌, ◌<◌, ◌≤◌, All, ℕ, MatchBool, length, true};
ghost use Rattle.abi_tree.specs.Placed.{is_flagged};
ghost use Rattle.abi_tree.specs.Nodes.{tagged_variants_in, encoding_of, own_fields, parts_at, placed_at, types_in};
ghost use Rattle.abi_tree.specs.Well.{all_at, are_nodes};
ghost use Rattle.abi_tree.specs.Tag.{IsSpanned, Names, NamesByNiche, NamesDirectly, niche_number};

use crate::node::{Shape, offsets};
use crate::nodes::Nodes;
use abi_base::Size;
use abi_index::{FieldIdx, Idx, VariantIdx};
use abi_scalar::{LayoutData, TagEncoding, Variants};

/// How a layout's tag distinguishes variants; directly, where it has no tag.
pub fn encoding_of(layout: &LayoutData<FieldIdx, VariantIdx>) -> TagEncoding<VariantIdx>
    ensures { result ≡ encoding_of layout.now.variants }
{
    match &layout.variants {
        Variants::Multiple { tag_encoding, .. } => *tag_encoding,
        _ => TagEncoding::Direct,
    }
}

/// The offsets and nodes of the fields of a variant, which has a node of its own.
pub fn own_parts(nodes: &Nodes, variant: usize) -> (&[Size], &[usize])
    requires there { variant < length nodes.now }
    requires well { are_nodes 0 nodes.now ≡ true }
    ensures parts { own_fields (placed_at nodes.now variant)
        ≡ parts_at result.0.now (all_at nodes.now result.1.now) }
    ensures before { All (λ child. child < variant) result.1.now }
{
    let here = nodes.node(variant);
    match here.shape {
        Shape::Fields(_, children) => (offsets(here.layout), children),
        _ => (&[], &[]),
    }
}

/// Whether the layout of a field of the variant is flagged as having no value.
fn is_flagged(nodes: &Nodes, variant: usize) -> bool
    requires there { variant < length nodes.now }
    requires well { are_nodes 0 nodes.now ≡ true }
    ensures { result ≡ is_flagged (own_fields (placed_at nodes.now variant)) }
{
    let (offsets, children) = own_parts(nodes, variant);
    for i in 0..children.len() {
        if i < offsets.len() && nodes.layout(children[i]).uninhabited {
            return true;
        }
    }
    false
}

/// Whether the number of a tag of this width names the variant directly.
fn is_named_directly(
    nodes: &Nodes,
    width: Size,
    variants: &[(u128, usize)],
    i: usize,
    tag: u128,
) -> bool
    requires well { are_nodes 0 nodes.now ≡ true }
    requires there { All (λ v. v.1 < length nodes.now) variants.now }
    requires width { width ≤ 16 }
    requires index { i < length variants.now }
    ensures { MatchBool result
        (NamesDirectly width (tagged_variants_in (types_in nodes.now) variants.now) tag i)
        (NamesDirectly width (tagged_variants_in (types_in nodes.now) variants.now) tag i → ⊥) }
{
    let (number, variant) = variants[i];
    width.truncate(number) == tag && !is_flagged(nodes, variant)
}

/// The number in the niche for a variant of the span.
pub(crate) fn niche_number(width: Size, first: usize, start: u128, i: usize) -> u128
    requires width { width ≤ 16 }
    requires later { first ≤ i }
    ensures { result ≡ niche_number width first start i }
{
    width.truncate(start.wrapping_add((i - first) as u128))
}

/// Which variants a niche names: those from the first to the last but the untagged one, the first by the number `start`.
#[derive(Clone, Copy)]
struct NicheSpan {
    untagged: usize,
    first: usize,
    last: usize,
    start: u128,
}

/// Whether the number is that of some variant of the span, other than the untagged one.
fn is_of_spanned(width: Size, span: NicheSpan, tag: u128) -> bool
    requires width { width ≤ 16 }
    ensures { MatchBool result
        ((i : ℕ) × IsSpanned span.untagged span.first span.last i
        × (tag ≡ niche_number width span.first span.start i))
        ((i : ℕ) → IsSpanned span.untagged span.first span.last i →
        tag ≢ niche_number width span.first span.start i) }
{
    let NicheSpan {
        untagged,
        first,
        last,
        start,
    } = span;
    for i in first..last {
        if i != untagged && tag == niche_number(width, first, start, i) {
            return true;
        }
    }
    if first <= last && last != untagged {
        tag == niche_number(width, first, start, last)
    } else {
        false
    }
}

/// Whether the number of a tag of this width names the variant by a niche.
fn is_named_by_niche(width: Size, span: NicheSpan, i: usize, tag: u128) -> bool
    requires width { width ≤ 16 }
    ensures { MatchBool result
        (NamesByNiche width span.untagged span.first span.last span.start tag i)
        (NamesByNiche width span.untagged span.first span.last span.start tag i → ⊥) }
{
    let NicheSpan {
        untagged,
        first,
        last,
        start,
    } = span;
    if i == untagged {
        !is_of_spanned(width, span, tag)
    } else {
        first <= i && i <= last && tag == niche_number(width, first, start, i)
    }
}

/// Whether the number of a tag of this width, in bytes, names the variant with this index among these, each of which has its
/// number and its node.
pub fn is_named(
    nodes: &Nodes,
    encoding: &TagEncoding<VariantIdx>,
    width: Size,
    variants: &[(u128, usize)],
    i: usize,
    tag: u128,
) -> bool
    requires well { are_nodes 0 nodes.now ≡ true }
    requires there { All (λ v. v.1 < length nodes.now) variants.now }
    requires width { width ≤ 16 }
    requires index { i < length variants.now }
    ensures { MatchBool result
        (Names encoding.now width (tagged_variants_in (types_in nodes.now) variants.now) tag i)
        (Names encoding.now width (tagged_variants_in (types_in nodes.now) variants.now) tag i → ⊥) }
{
    match encoding {
        TagEncoding::Direct => is_named_directly(nodes, width, variants, i, tag),
        TagEncoding::Niche {
            untagged_variant,
            niche_variants,
            niche_start,
        } => {
            let span = NicheSpan {
                untagged: untagged_variant.as_usize(),
                first: niche_variants.start.as_usize(),
                last: niche_variants.last.as_usize(),
                start: *niche_start,
            };
            is_named_by_niche(width, span, i, tag)
        }
    }
}
