//! Why a text names no calling convention.

ghost use Rattle.std.specs.Prelude.{Some};
ghost use Rattle.abi_base.specs.ErrorText.{abi_error_text};

use std::error::Error;
use std::fmt;
use std::fmt::Display;

/// Why a text names no calling convention.
#[derive(Clone, PartialEq, Eq, Debug, Drop)]
pub enum AbiFromStrErr {
    /// No convention has the text for its name: the one reason why a text isn't read.
    Unknown,
    /// The convention has no variant that unwinds.
    NoExplicitUnwind,
}

impl Display for AbiFromStrErr {
    ghost output = { λ error. Some (abi_error_text error) };

    /// Why there is none.
    fn fmt<W: fmt::Write>(&self, f: &mut fmt::Formatter<W>) -> fmt::Result {
        f.write_str(match self {
            AbiFromStrErr::Unknown => "no calling convention has this name",
            AbiFromStrErr::NoExplicitUnwind => "the calling convention has no variant that unwinds",
        })
    }
}

impl Error for AbiFromStrErr {}
