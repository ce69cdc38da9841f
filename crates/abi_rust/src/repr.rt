//! What a `repr` asks for, as the layout takes it.

ghost use Rattle.std.specs.Prelude.{◌≡◌, None};
ghost use Rattle.std.specs.Option.{option_map};
ghost use Rattle.abi_rust.specs.Scalars.{type_of_kind};
ghost use Rattle.abi_rust.specs.Meaning.{Means};
ghost use Rattle.abi_rust.specs.Reprs.{alignment_asked, asks_beside, repr_fault_of_enum, repr_fault_of_fields, flags_of, no_repr, repr_by, repr_fault, repr_of};

use crate::fault::{FaultKind, Stop, stop_at};
use crate::repr_fields::all_units;
use crate::scalars::integer_type;
use abi_base::{Align, IntegerType};
use abi_index::Hash64;
use abi_scalar::{ReprFlags, ReprOptions};
use bitflags::Flags;
use rust_source::{IntegerKind, Item, ItemKind, Place, Repr, Variant};

/// What asks for nothing.
pub(crate) fn plain() -> ReprOptions
    ensures { result ≡ no_repr }
{
    ReprOptions {
        int: None,
        align: None,
        pack: None,
        flags: ReprFlags::default(),
        scalable: None,
        field_shuffle_seed: Hash64::ZERO,
    }
}

/// What an item's repr asks for, or the fault that the compiler finds in it.
#[tactic(auto, unfolding(crate::specs::Reprs::repr_of))]
pub(crate) fn repr_of(item: &Item) -> Result<ReprOptions, Stop>
    ensures { Means (λ repr. repr) (repr_of item.now) result }
{
    let repr = &item.repr;
    let Some(at) = repr.at else {
        return Ok(plain());
    };
    match fault_of(repr, &item.kind) {
        Some(fault) => Err(stop_at(at, fault)),
        None => options_of(repr, at),
    }
}

/// What a repr asks for in which the compiler finds no fault.
fn options_of(repr: &Repr, at: Place) -> Result<ReprOptions, Stop>
    ensures { Means (λ repr. repr) (repr_by at repr.now None) result }
{
    let align = alignment(repr.align, at)?;
    let pack = alignment(repr.packed, at)?;
    Ok(ReprOptions {
        int: integer_in(repr.integer),
        align,
        pack,
        flags: flags_of(repr),
        scalable: None,
        field_shuffle_seed: Hash64::ZERO,
    })
}

/// The integer type that is asked for, if one is.
fn integer_in(kind: Option<IntegerKind>) -> Option<IntegerType>
    ensures { result ≡ option_map type_of_kind kind }
{
    match kind {
        Some(kind) => Some(integer_type(kind)),
        None => None,
    }
}

/// The words of a repr that are set or not.
fn flags_of(repr: &Repr) -> ReprFlags
    ensures { result ≡ flags_of repr.now }
{
    let c = if repr.c {
        ReprFlags::IS_C
    } else {
        ReprFlags::default()
    };
    let transparent = if repr.transparent {
        ReprFlags::IS_TRANSPARENT
    } else {
        ReprFlags::default()
    };
    c.union(transparent)
}

/// An alignment of so many bytes.
fn alignment(bytes: Option<u64>, at: Place) -> Result<Option<Align>, Stop>
    ensures { Means (λ align. align) (alignment_asked at bytes) result }
{
    let Some(bytes) = bytes else {
        return Ok(None);
    };
    if bytes == 0 {
        return Err(stop_at(at, FaultKind::BadAlignment));
    }
    match Align::from_bytes(bytes) {
        Ok(align) => Ok(Some(align)),
        Err(_) => Err(stop_at(at, FaultKind::BadAlignment)),
    }
}

/// What the compiler finds wrong with a repr on a kind of item.
fn fault_of(repr: &Repr, kind: &ItemKind) -> Option<FaultKind>
    ensures { result ≡ repr_fault repr.now kind.now }
{
    if repr.simd {
        return Some(FaultKind::Simd);
    }
    if repr.transparent && asks_else(repr) {
        return Some(FaultKind::TransparentBeside);
    }
    if repr.rust && (repr.c || repr.integer.is_some()) {
        return Some(FaultKind::RustBeside);
    }
    match kind {
        ItemKind::Enum(all) => fault_on_enum(repr, all.variants.as_slice()),
        ItemKind::Union(_) if repr.transparent => Some(FaultKind::TransparentUnion),
        _ => fault_on_fields(repr),
    }
}

/// Whether it asks for something beside `transparent`.
fn asks_else(repr: &Repr) -> bool
    ensures { result ≡ asks_beside repr.now }
{
    repr.c || repr.rust || repr.integer.is_some() || repr.packed.is_some() || repr.align.is_some()
}

/// What is wrong with a repr on an enum of these variants.
fn fault_on_enum(repr: &Repr, variants: &[Variant]) -> Option<FaultKind>
    ensures { result ≡ repr_fault_of_enum repr.now variants.now }
{
    if repr.packed.is_some() {
        return Some(FaultKind::PackedEnum);
    }
    if variants.is_empty() {
        return Some(FaultKind::ReprWithoutVariants);
    }
    if repr.transparent && variants.len() != 1 {
        return Some(FaultKind::TransparentFields);
    }
    if repr.c && repr.integer.is_some() && all_units(variants) {
        return Some(FaultKind::IntegerBesideC);
    }
    None
}

/// What is wrong with a repr on a struct or a union.
fn fault_on_fields(repr: &Repr) -> Option<FaultKind>
    ensures { result ≡ repr_fault_of_fields repr.now }
{
    if repr.integer.is_some() {
        return Some(FaultKind::IntegerRepr);
    }
    if repr.packed.is_some() && repr.align.is_some() {
        return Some(FaultKind::PackedAndAligned);
    }
    if repr.is_packed_apart {
        return Some(FaultKind::PackedApart);
    }
    None
}
