//! The order of a number's bytes.

ghost use Rattle.std.specs.Prelude.{◌≡◌, ◌≢◌, codes, IfOk, IfErr, MatchResult, Some};
ghost use Rattle.abi_base.specs.declared.endian.Endian.{Endian};
ghost use Rattle.abi_base.specs.Endian.{endian_text, unknown_endian_text};

use std::error::Error;
use std::fmt;
use std::fmt::{Debug, Display};
use std::str::FromStr;

/// The order of a number's bytes in memory.
#[derive(Clone, Copy, PartialEq, Eq)]
pub enum Endian {
    /// The least byte first.
    Little,
    /// The greatest byte first.
    Big,
}

impl Endian {
    /// Its name, which `from_str` reads back: `little` or `big`.
    pub fn as_str(&self) -> &'static str
        ensures { result.now ≡ endian_text self.now }
    {
        match self {
            Endian::Little => "little",
            Endian::Big => "big",
        }
    }

    /// The order of this name. `UnknownEndianText` with the text where it is no order's name.
    pub fn from_text(text: &str) -> Result<Endian, UnknownEndianText<'_>>
        ensures known { IfOk result (λ endian. text.now ≡ endian_text endian) }
        ensures unknown { IfErr result (λ error. error.text.now ≡ text.now) }
        ensures all { (endian : Endian) → text.now ≡ endian_text endian → result ≡ Ok endian }
    {
        match text {
            "little" => Ok(Endian::Little),
            "big" => Ok(Endian::Big),
            _ => Err(UnknownEndianText { text }),
        }
    }
}

impl FromStr for Endian {
    type Err = UnknownEndian;

    ghost from_str_gives = { λ text result. MatchResult result (λ endian. text ≡ endian_text endian)
        (λ _. (endian : Endian) → text ≢ endian_text endian) };

    /// The order of this name. `UnknownEndian` where it is no order's name.
    fn from_str(s: &str) -> Result<Endian, UnknownEndian> {
        match Endian::from_text(s) {
            Ok(endian) => Ok(endian),
            Err(_) => Err(UnknownEndian),
        }
    }
}

/// A text that was read as a byte order is neither `little` nor `big`.
#[derive(Clone, Copy, PartialEq, Eq, Debug)]
pub struct UnknownEndian;

impl Display for UnknownEndian {
    ghost output = { λ _. Some (codes "unknown endian") };

    fn fmt<W: fmt::Write>(&self, f: &mut fmt::Formatter<W>) -> fmt::Result {
        f.write_str("unknown endian")
    }
}

impl Error for UnknownEndian {}

/// The same with the text, which the error names when it is printed.
#[derive(Clone, Copy, PartialEq, Eq, Debug)]
pub struct UnknownEndianText<'a> {
    /// The text that was read.
    pub text: &'a str,
}

impl<'a> Display for UnknownEndianText<'a> {
    ghost output = { λ error. Some (unknown_endian_text error.text.now) };

    fn fmt<W: fmt::Write>(&self, f: &mut fmt::Formatter<W>) -> fmt::Result {
        write!(f, "unknown endian: \"{}\"", self.text)
    }
}

impl<'a> Error for UnknownEndianText<'a> {}

impl Debug for Endian {
    ghost debug_output = { λ endian. Some (endian_text endian) };

    fn fmt<W: fmt::Write>(&self, f: &mut fmt::Formatter<W>) -> fmt::Result {
        f.write_str(self.as_str())
    }
}
