//! What a line changes of a layout that it hands in: its size, its alignment, its view, its niche and its tag, of any
//! scalar, so that a layout may be unlawful.

use crate::command::Command;
use crate::layouts::Layout;
use crate::stop::{Refusal, calculator};
use abi_base::{AbiAlign, Align, NumScalableVectors, Size, TargetDataLayout};
use abi_index::{FieldIdx, IndexList};
use abi_scalar::{BackendLaneCount, BackendRepr, Niche, Scalar, TagEncoding, Variants};
use std::alloc::Global;

/// The least alignment beyond the limit.
fn beyond() -> Align {
    Align::max_aligned_factor(Size::from_bytes(1 << 30))
}

/// The view of two scalars, the second at an offset.
fn pair(dl: &TargetDataLayout, command: &mut Command) -> BackendRepr {
    let a = command.scalar(dl);
    let b = command.scalar(dl);
    let b_offset = command.size();
    BackendRepr::ScalarPair { a, b, b_offset }
}

/// The view of the vectors that are next: how many lanes each has, how many they are, if they are scalable, and what the
/// lanes are.
fn lanes(dl: &TargetDataLayout, command: &mut Command, is_scalable: bool) -> BackendRepr {
    let lanes = command.number();
    let vectors = if is_scalable { command.byte() } else { 0 };
    let element = command.scalar(dl);
    match BackendLaneCount::new(lanes) {
        Ok(count) if is_scalable => BackendRepr::SimdScalableVector {
            element,
            count,
            number_of_vectors: NumScalableVectors(vectors),
        },
        Ok(count) => BackendRepr::SimdVector { element, count },
        Err(error) => {
            command.stop(calculator::<()>(error));
            BackendRepr::Scalar(element)
        }
    }
}

/// The niche of a scalar at a place.
fn niche(dl: &TargetDataLayout, command: &mut Command) -> Option<Niche> {
    let offset = command.size();
    let before = command.count();
    match command.scalar(dl) {
        Scalar::Initialized { value, valid_range } => Some(Niche {
            offset,
            value,
            valid_range,
        }),
        Scalar::Union { .. } => {
            command.stop(Refusal::Unreadable(before));
            None
        }
    }
}

/// Gives a layout this tag, and no variants that it distinguishes.
fn put_tag(alloc: Global, tag: Scalar, layout: &mut Layout) {
    layout.variants = Variants::Multiple {
        tag,
        tag_encoding: TagEncoding::Direct,
        tag_field: FieldIdx::ZERO,
        variants: IndexList::from_raw(Vec::new(alloc)),
    };
}

/// What of a layout is changed.
#[derive(Clone, Copy)]
enum ChangeWord {
    Size,
    Align,
    Beyond,
    Memory,
    Unsized,
    Scalar,
    Pair,
    Lanes,
    Scalable,
    Niche,
    Tag,
}

const CHANGE_WORDS: [(&[u8], ChangeWord); 11] = [
    (b"size", ChangeWord::Size),
    (b"align", ChangeWord::Align),
    (b"beyond", ChangeWord::Beyond),
    (b"memory", ChangeWord::Memory),
    (b"unsized", ChangeWord::Unsized),
    (b"scalar", ChangeWord::Scalar),
    (b"pair", ChangeWord::Pair),
    (b"lanes", ChangeWord::Lanes),
    (b"scalable", ChangeWord::Scalable),
    (b"niche", ChangeWord::Niche),
    (b"tag", ChangeWord::Tag),
];

/// Changes what the next words name of a layout.
pub(crate) fn change(dl: &TargetDataLayout, command: &mut Command, layout: &mut Layout) {
    match command.one_of(&CHANGE_WORDS, ChangeWord::Memory) {
        ChangeWord::Size => layout.size = command.size(),
        ChangeWord::Align => layout.align = AbiAlign::new(command.align()),
        ChangeWord::Beyond => layout.align = AbiAlign::new(beyond()),
        ChangeWord::Memory => layout.backend_repr = BackendRepr::Memory { sized: true },
        ChangeWord::Unsized => layout.backend_repr = BackendRepr::Memory { sized: false },
        ChangeWord::Scalar => layout.backend_repr = BackendRepr::Scalar(command.scalar(dl)),
        ChangeWord::Pair => layout.backend_repr = pair(dl, command),
        ChangeWord::Lanes => layout.backend_repr = lanes(dl, command, false),
        ChangeWord::Scalable => layout.backend_repr = lanes(dl, command, true),
        ChangeWord::Niche => layout.largest_niche = niche(dl, command),
        ChangeWord::Tag => put_tag(command.alloc, command.scalar(dl), layout),
    }
}
