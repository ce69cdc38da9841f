//! What the question answers whether all of a value is passed in registers of one kind and size.

ghost use Rattle.std.specs.Prelude.{◌≡◌, codes, Some};
ghost use Rattle.abi_types.specs.Homogeneous.{Answers, IsOneOf, register_of};

use crate::reg::Reg;
use std::error::Error;
use std::fmt;
use std::fmt::Display;

/// What a type holds whose bytes are those of registers of one kind and size, one after another, or which has none.
/// Calling conventions ask for it that pass such a type in registers of that kind.
#[derive(Clone, Copy, PartialEq, Eq, Debug)]
pub enum HomogeneousAggregate {
    /// Registers of this kind and size, one at least.
    Homogeneous(Reg),
    /// There are no bytes, and so none to pass.
    NoData,
}

impl HomogeneousAggregate {
    /// The register that all of it is passed in; None where it has no bytes.
    pub fn unit(self) -> Option<Reg>
        ensures { result ≡ register_of self }
    {
        match self {
            HomogeneousAggregate::Homogeneous(reg) => Some(reg),
            HomogeneousAggregate::NoData => None,
        }
    }

    /// What two parts hold together: an error where each has a register and they differ.
    pub(crate) fn merge(
        self,
        other: HomogeneousAggregate,
    ) -> Result<HomogeneousAggregate, Heterogeneous>
        ensures { Answers result (IsOneOf (register_of self) (register_of other)) }
    {
        match (self, other) {
            (one, HomogeneousAggregate::NoData) => Ok(one),
            (HomogeneousAggregate::NoData, one) => Ok(one),
            (HomogeneousAggregate::Homogeneous(a), HomogeneousAggregate::Homogeneous(b)) => {
                if a == b { Ok(self) } else { Err(Heterogeneous) }
            }
        }
    }
}

/// A type isn't held by registers of one kind and size: parts of it are passed in different ones, or
/// bytes of it belong to no part, or it has no value or no known size.
#[derive(Clone, Copy, PartialEq, Eq, Debug)]
pub struct Heterogeneous;

impl Display for Heterogeneous {
    ghost output = { λ _. Some (codes "not held by registers of one kind and size") };

    fn fmt<W: fmt::Write>(&self, f: &mut fmt::Formatter<W>) -> fmt::Result {
        f.write_str("not held by registers of one kind and size")
    }
}

impl Error for Heterogeneous {}
