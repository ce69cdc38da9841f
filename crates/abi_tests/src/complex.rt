//! Complex numbers among types of a caller's own: how they are passed, alone and in what is transparent around them.

ghost use Rattle.abi_base.specs.DataLayout.{IsLawfulDataLayout};

use crate::own_types::{OwnMarks, OwnType, keeps_laws, typed_at};
use abi_base::{Float, Primitive, TargetDataLayout};
use abi_index::{FieldIdx, VariantIdx};
use abi_scalar::{LayoutData, Scalar};
use std::alloc::{AllocError, Global};
use std::test::Fail;

/// A union's `f32`.
const F32: Scalar = Scalar::Union {
    value: Primitive::Float(Float::F32),
};

/// A type with this layout, of fields of the types at these places.
fn own_type(
    layout: LayoutData<FieldIdx, VariantIdx>,
    transparent: bool,
    complex: bool,
    fields: [usize; 2],
) -> OwnType {
    let marks = OwnMarks {
        transparent,
        complex,
    };
    OwnType {
        layout,
        marks,
        fields,
    }
}

/// An `f32`; a unit; a complex number of two `f32`; two that are none; and the complex number in a transparent type,
/// beside a unit.
fn own_types(alloc: Global, dl: &TargetDataLayout) -> Result<Vec<OwnType>, AllocError>
    requires { IsLawfulDataLayout dl.now }
{
    let mut types = Vec::with_capacity(alloc, 5)?;
    types.push(own_type(LayoutData::scalar(&dl, F32), false, false, [0, 0]))?;
    types.push(own_type(LayoutData::unit(alloc, &dl, true), false, false, [0, 0]))?;
    types.push(own_type(
        LayoutData::scalar_pair(alloc, &dl, F32, F32),
        false,
        true,
        [0, 0],
    ))?;
    types.push(own_type(
        LayoutData::scalar_pair(alloc, &dl, F32, F32),
        false,
        false,
        [0, 0],
    ))?;
    types.push(own_type(
        LayoutData::scalar_pair(alloc, &dl, F32, F32),
        true,
        false,
        [2, 1],
    ))?;
    Ok(types)
}

/// The float that a complex number is passed as two of, of each type.
static PASSED_AS: [Option<Float>; 5] = [None, None, Some(Float::F32), None, Some(Float::F32)];

/// Whether the type at a place keeps the laws, and is passed so.
fn is_passed_as(types: &[OwnType], at: usize, float: Option<Float>) -> bool {
    keeps_laws(types, 3, at) && typed_at(types, 3, at).complex_float(&()) == float
}

/// Whether each type is passed as it has to be.
fn are_passed_as(alloc: Global) -> Result<bool, AllocError> {
    let dl = TargetDataLayout::default_in(alloc)?;
    let types = own_types(alloc, &dl)?;
    for at in 0..5 {
        if !is_passed_as(&types, at, PASSED_AS[at]) {
            return Ok(false);
        }
    }
    Ok(true)
}

#[test]
fn complex_numbers_are_passed_as_floats(rt: HostRuntime) -> Result<(), Fail> {
    assert!(rt; are_passed_as(rt.alloc())?);
    Ok(())
}
