//! Complex numbers.

ghost use Rattle.std.specs.Prelude.{◌≡◌};
ghost use Rattle.std.specs.Option.{is_some};
ghost use Rattle.abi_types.specs.Ty.Walks.{complex_number, float_of, number_in, part_of_complex};

use crate::ty::interface::{TyAbiInterface, TyAndLayout};
use crate::ty::peel::walk_peel;
use crate::ty::walk::{At, Walk};
use abi_base::{Float, Numeric, Primitive};
use abi_scalar::BackendRepr;

/// The number that parts of a complex number may be. Pointers and `bfloat16` may not.
fn part_of_complex(primitive: Primitive) -> Option<Numeric>
    ensures { result ≡ part_of_complex primitive }
{
    match primitive {
        Primitive::Int(integer, signed) => Some(Numeric::Int(integer, signed)),
        Primitive::Float(Float::F16B) => None,
        Primitive::Float(float) => Some(Numeric::Float(float)),
        Primitive::Pointer(_) => None,
    }
}

/// That of a part which is seen so.
fn number_in(view: BackendRepr) -> Option<Numeric>
    ensures { result ≡ number_in view }
{
    match view {
        BackendRepr::Scalar(scalar) => part_of_complex(scalar.primitive()),
        _ => None,
    }
}

/// The number that its parts are, where it is a complex number, through transparent types around it and around its
/// parts.
#[tactic(auto, using(crate::proofs::ComplexLemmas::has_parts, crate::proofs::ComplexLemmas::no_complex, crate::proofs::ComplexLemmas::of_parts))]
fn walk_complex<W: Walk>(this: W) -> Option<Numeric>
    requires { W.is_valid this }
    ensures { result ≡ complex_number (W.typed_of this) }
{
    let complex = walk_peel(this);
    if !complex.is_complex() {
        return None;
    }
    let part = walk_peel(complex.field(0));
    number_in(part.layout().backend_repr)
}

impl<'a, Ty> TyAndLayout<'a, Ty> {
    /// The number that its parts are, where it is passed as a complex number of C is: it is the language's own type of
    /// complex numbers, or transparent around it, and its parts are integers or floats other than `bfloat16`, or
    /// transparent around such.
    pub fn complex_number<C>(&self, cx: &C) -> Option<Numeric>
    where
        Ty: TyAbiInterface<'a, C> + Copy,
        requires { Ty.is_valid self.now }
        ensures { result ≡ complex_number (Ty.typed_of self.now) }
    {
        walk_complex(At::new(self, cx))
    }

    /// Whether it is passed as a complex number of C is.
    pub fn is_complex_number<C>(self, cx: &C) -> bool
    where
        Ty: TyAbiInterface<'a, C> + Copy,
        requires { Ty.is_valid self }
        ensures { result ≡ is_some (complex_number (Ty.typed_of self.entry)) }
    {
        self.complex_number(cx).is_some()
    }

    /// The float that its parts are, where it is passed as a complex number of C with such parts is.
    pub fn complex_float<C>(&self, cx: &C) -> Option<Float>
    where
        Ty: TyAbiInterface<'a, C> + Copy,
        requires { Ty.is_valid self.now }
        ensures { result ≡ float_of (complex_number (Ty.typed_of self.now)) }
    {
        match self.complex_number(cx) {
            Some(Numeric::Float(float)) => Some(float),
            _ => None,
        }
    }
}
