//! What may be done with the bytes of types that were laid out.

ghost use Rattle.std.specs.Prelude.{◌≡◌, ◌||◌, ◌≤◌, IfOk, map};
ghost use Rattle.automata.specs.Nodes.{formulas_in};
ghost use Rattle.abi_bytes.specs.Answers.{AreBytesBelow, IsComparison, SaysFromBytes, SaysFromZeros, SaysGoes, SaysIntoBytes, byte_in, goes_of, has_pointer, has_pointer_node, into_of, is_pointer, is_pointer_node, zeros_from};
ghost use Rattle.abi_bytes.specs.Formulas.{IsFormula};
ghost use Rattle.abi_bytes.specs.GoesInto.{HoldStored, Stored, size_of_stored, stored_of};

use crate::types::type_formula;
use abi_base::Primitive;
use abi_tree::{Laid, Nodes, Shape};
use automata::{Formulas, Inclusion, compare};
use std::alloc::{AllocError, Global};

/// Whether each value of one type is one of another.
#[derive(Drop)]
pub enum Goes {
    /// Each is.
    Yes,
    /// These cells hold the one and not the other: bytes, and nothing where none is initialised.
    No(Vec<Option<u8>>),
    /// The types aren't as large.
    OtherSize,
    /// It would take more than 2^22 steps.
    TooLarge,
}

/// Whether each value of one type is one of another, and whether the answer is only that of the bytes.
#[derive(Drop)]
pub struct Transmuted {
    /// The answer.
    pub goes: Goes,
    /// Some number of the two types is a pointer, so that its bytes alone don't say what may be done with it.
    pub has_pointer: bool,
}

/// Whether zero bytes hold a value of a type.
#[derive(Clone, Copy, PartialEq, Eq)]
pub enum FromZeros {
    /// They do.
    Yes,
    /// They hold none.
    No,
    /// It would take more than 2^22 steps.
    TooLarge,
}

/// Whether each list of as many bytes as a type is large holds a value of it.
#[derive(Drop)]
pub enum FromBytes {
    /// Each does.
    Yes,
    /// These hold none.
    No(Vec<u8>),
    /// It would take more than 2^22 steps.
    TooLarge,
}

/// Whether each value of a type has each of its bytes initialised.
#[derive(Drop)]
pub enum IntoBytes {
    /// Each has.
    Yes,
    /// These cells hold a value, and nothing stands where none is initialised.
    No(Vec<Option<u8>>),
    /// It would take more than 2^22 steps.
    TooLarge,
}

/// The formula for so many cells, each a byte below the end.
fn bytes_formula(
    alloc: Global,
    formulas: &mut Formulas,
    size: u64,
    end: u16,
) -> Result<usize, AllocError>
    requires { end ≤ 256 }
    ensures { IfOk result (IsFormula (formulas_in formulas.old) (formulas_in formulas.new) size (AreBytesBelow end)) }
{
    let any = formulas.any_cells(alloc)?;
    let byte = formulas.run(alloc, 0, end, any)?;
    let place = formulas.repetition(alloc, size, 1, byte)?;
    Ok(place)
}

/// Whether a number is a pointer.
fn is_pointer(primitive: Primitive) -> bool
    ensures { result ≡ is_pointer primitive }
{
    match primitive {
        Primitive::Int(_, _) => false,
        Primitive::Float(_) => false,
        Primitive::Pointer(_) => true,
    }
}

/// Whether a node is a pointer.
fn is_pointer_node(shape: &Shape) -> bool
    ensures { result ≡ is_pointer_node shape.now }
{
    match shape {
        Shape::Scalar(scalar) => is_pointer(scalar.primitive()),
        _ => false,
    }
}

/// Whether some node is a pointer.
fn has_pointer_node(nodes: &Nodes) -> bool
    ensures { result ≡ has_pointer_node nodes.now }
{
    for i in 0..nodes.len() {
        if is_pointer_node(nodes.node(i).shape) {
            return true;
        }
    }
    false
}

/// What the comparison of the formulas of two types of one size says of them.
fn goes_of(inclusion: Inclusion) -> Goes
    ensures { result ≡ goes_of inclusion }
{
    match inclusion {
        Inclusion::Included => Goes::Yes,
        Inclusion::Missing(cells) => Goes::No(cells),
        Inclusion::TooLarge => Goes::TooLarge,
    }
}

/// Whether each value of the first type is one of the second.
fn goes_into(alloc: Global, a: &Laid, b: &Laid) -> Result<Goes, AllocError>
    ensures { IfOk result (SaysGoes (stored_of a.now) (stored_of b.now)) }
{
    let size = a.layout().size.bytes();
    if size != b.layout().size.bytes() {
        return Ok(Goes::OtherSize);
    }
    let mut formulas = Formulas::new(alloc)?;
    if let Some(one) = type_formula(alloc, &mut formulas, a)? {
        if let Some(other) = type_formula(alloc, &mut formulas, b)? {
            let inclusion = compare(alloc, &mut formulas, one, other, size)?;
            return Ok(goes_of(inclusion));
        }
    }
    Ok(Goes::TooLarge)
}

/// Whether each value of the first type is one of the second, which may then be taken from its bytes: each list of cells, bytes
/// or nothing where none is initialised, that holds the first holds the second. Where it isn't so, cells that hold the first
/// and not the second. `TooLarge` where it would take more than 2^22 steps; it promises nothing else. `AllocError` where memory
/// is refused.
pub fn transmute(alloc: Global, a: &Laid, b: &Laid) -> Result<Transmuted, AllocError>
    ensures goes { IfOk result (λ r. SaysGoes (stored_of a.now) (stored_of b.now) r.goes) }
    ensures has_pointer { IfOk result (λ r. r.has_pointer ≡ (has_pointer a.now || has_pointer b.now)) }
{
    let has_pointer = has_pointer_node(a.nodes()) || has_pointer_node(b.nodes());
    let goes = goes_into(alloc, a, b)?;
    Ok(Transmuted { goes, has_pointer })
}

/// What the comparison of zeros with a type says of it.
fn zeros_from(inclusion: &Inclusion) -> FromZeros
    ensures { result ≡ zeros_from inclusion.now }
{
    match inclusion {
        Inclusion::Included => FromZeros::Yes,
        Inclusion::Missing(_) => FromZeros::No,
        Inclusion::TooLarge => FromZeros::TooLarge,
    }
}

/// Whether zero bytes, as many as the type is large, hold a value of it. `TooLarge` where it would take more than 2^22 steps; it
/// promises nothing else. `AllocError` where memory is refused.
pub fn is_from_zeros(alloc: Global, laid: &Laid) -> Result<FromZeros, AllocError>
    ensures { IfOk result (SaysFromZeros (stored_of laid.now)) }
{
    let size = laid.layout().size.bytes();
    let mut formulas = Formulas::new(alloc)?;
    let zeros = bytes_formula(alloc, &mut formulas, size, 1)?;
    if let Some(place) = type_formula(alloc, &mut formulas, laid)? {
        let inclusion = compare(alloc, &mut formulas, zeros, place, size)?;
        return Ok(zeros_from(&inclusion));
    }
    Ok(FromZeros::TooLarge)
}

/// The byte in a cell, and 0 where nothing is initialised.
pub(crate) fn byte_in(cell: Option<u8>) -> u8
    ensures { result ≡ byte_in cell }
{
    match cell {
        Some(byte) => byte,
        None => 0,
    }
}

/// The bytes in cells, and 0 where nothing is initialised.
fn bytes_in(alloc: Global, cells: &Vec<Option<u8>>) -> Result<Vec<u8>, AllocError>
    ensures { IfOk result (λ bytes. bytes.items ≡ map byte_in cells.now.items) }
{
    let mut bytes = Vec::new(alloc);
    for i in 0..cells.len() {
        bytes.push(byte_in(cells[i]))?;
    }
    Ok(bytes)
}

/// What the comparison of bytes with a type says of it.
fn from_of(alloc: Global, inclusion: Inclusion) -> Result<FromBytes, AllocError>
    ensures { IfOk result (λ answer. (a : Stored) →
        IsComparison (size_of_stored a) (AreBytesBelow 256) (HoldStored a) inclusion → SaysFromBytes a answer) }
{
    match inclusion {
        Inclusion::Included => Ok(FromBytes::Yes),
        Inclusion::Missing(cells) => {
            let bytes = bytes_in(alloc, &cells)?;
            Ok(FromBytes::No(bytes))
        }
        Inclusion::TooLarge => Ok(FromBytes::TooLarge),
    }
}

/// Whether each list of as many bytes as the type is large holds a value of it; where it isn't so, such a list that holds
/// none. `TooLarge` where it would take more than 2^22 steps; it promises nothing else. `AllocError` where memory is refused.
pub fn is_from_bytes(alloc: Global, laid: &Laid) -> Result<FromBytes, AllocError>
    ensures { IfOk result (SaysFromBytes (stored_of laid.now)) }
{
    let size = laid.layout().size.bytes();
    let mut formulas = Formulas::new(alloc)?;
    let bytes = bytes_formula(alloc, &mut formulas, size, 256)?;
    if let Some(place) = type_formula(alloc, &mut formulas, laid)? {
        let inclusion = compare(alloc, &mut formulas, bytes, place, size)?;
        let answer = from_of(alloc, inclusion)?;
        return Ok(answer);
    }
    Ok(FromBytes::TooLarge)
}

/// What the comparison of a type with bytes says of it.
fn into_of(inclusion: Inclusion) -> IntoBytes
    ensures { result ≡ into_of inclusion }
{
    match inclusion {
        Inclusion::Included => IntoBytes::Yes,
        Inclusion::Missing(cells) => IntoBytes::No(cells),
        Inclusion::TooLarge => IntoBytes::TooLarge,
    }
}

/// Whether each value of the type has each of its bytes initialised: no padding, no byte that its variant leaves, no union.
/// Where it isn't so, cells that hold a value, of which one isn't initialised. `TooLarge` where it would take more than 2^22
/// steps; it promises nothing else. `AllocError` where memory is refused.
pub fn is_into_bytes(alloc: Global, laid: &Laid) -> Result<IntoBytes, AllocError>
    ensures { IfOk result (SaysIntoBytes (stored_of laid.now)) }
{
    let size = laid.layout().size.bytes();
    let mut formulas = Formulas::new(alloc)?;
    let bytes = bytes_formula(alloc, &mut formulas, size, 256)?;
    if let Some(place) = type_formula(alloc, &mut formulas, laid)? {
        let inclusion = compare(alloc, &mut formulas, place, bytes, size)?;
        return Ok(into_of(inclusion));
    }
    Ok(IntoBytes::TooLarge)
}
