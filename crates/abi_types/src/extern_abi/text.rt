//! Calling conventions read from texts, and written.

ghost use Rattle.std.specs.Prelude.{◌≡◌, Some};
ghost use Rattle.std.specs.List.{find};
ghost use Rattle.abi_base.specs.ErrorText.{quoted};
ghost use Rattle.abi_types.specs.ExternAbi.{abi_name, has_name, IsAbiOfText};

use crate::extern_abi::ExternAbi;
use abi_base::AbiFromStrErr;
use std::fmt;
use std::fmt::Display;
use std::str::FromStr;

impl FromStr for ExternAbi {
    type Err = AbiFromStrErr;

    ghost from_str_gives = { IsAbiOfText };

    /// The convention of the name. `Unknown` where it is no convention's.
    #[tactic(auto, using(crate::proofs::ConventionLemmas::is_reading))]
    fn from_str(s: &str) -> Result<ExternAbi, AbiFromStrErr> {
        first_named(ExternAbi::ALL_VARIANTS, s).ok_or(AbiFromStrErr::Unknown)
    }
}

/// The first of the conventions whose name the text is, if there is one.
fn first_named(abis: &[ExternAbi], text: &str) -> Option<ExternAbi>
    ensures { result ≡ find (has_name text.now) abis.now }
{
    for abi in abis {
        if abi.as_str() == text {
            return Some(*abi);
        }
    }
    None
}

impl Display for ExternAbi {
    ghost output = { λ abi. Some (quoted (abi_name abi)) };

    /// Its name in double quotes.
    fn fmt<W: fmt::Write>(&self, f: &mut fmt::Formatter<W>) -> fmt::Result {
        write!(f, "\"{}\"", self.as_str())
    }
}
