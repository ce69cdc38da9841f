//! Formulas for the numbers that cells make.

ghost use Rattle.std.specs.Prelude.{◌≡◌, ◌<◌, ◌≤◌, IfOk};
ghost use Rattle.automata.specs.Nodes.{formulas_in};
ghost use Rattle.abi_scalar.specs.Range.{AreWithin, IsBetween, numbers_of};
ghost use Rattle.abi_bytes.specs.Formulas.{IsFormula};
ghost use Rattle.abi_bytes.specs.Holding.{MakeNumber};

use abi_base::Endian;
use abi_scalar::WrappingRange;
use automata::Formulas;
use std::alloc::{AllocError, Global};

/// The formula for numbers of so many bytes up to this one.
fn up_to(
    alloc: Global,
    formulas: &mut Formulas,
    order: Endian,
    width: usize,
    number: u128,
) -> Result<usize, AllocError>
    requires width { width ≤ 16 }
    requires fits { number < numbers_of width }
    ensures { IfOk result (IsFormula (formulas_in formulas.old) (formulas_in formulas.new) width
        (MakeNumber order (λ m. m ≤ number))) }
{
    match order {
        Endian::Little => {
            let bound = formulas.little_below(alloc, width, number)?;
            Ok(bound.loose)
        }
        Endian::Big => {
            let place = formulas.big_up_to(alloc, width, number)?;
            Ok(place)
        }
    }
}

/// The formula for numbers of so many bytes from this one on.
fn from(
    alloc: Global,
    formulas: &mut Formulas,
    order: Endian,
    width: usize,
    number: u128,
) -> Result<usize, AllocError>
    requires width { width ≤ 16 }
    requires fits { number < numbers_of width }
    ensures { IfOk result (IsFormula (formulas_in formulas.old) (formulas_in formulas.new) width
        (MakeNumber order (λ m. number ≤ m))) }
{
    match order {
        Endian::Little => {
            let bound = formulas.little_above(alloc, width, number)?;
            Ok(bound.loose)
        }
        Endian::Big => {
            let place = formulas.big_from(alloc, width, number)?;
            Ok(place)
        }
    }
}

/// The formula for one number of so many bytes.
fn number_formula(
    alloc: Global,
    formulas: &mut Formulas,
    order: Endian,
    width: usize,
    number: u128,
) -> Result<usize, AllocError>
    requires width { width ≤ 16 }
    requires fits { number < numbers_of width }
    ensures { IfOk result (IsFormula (formulas_in formulas.old) (formulas_in formulas.new) width
        (MakeNumber order (λ m. m ≡ number))) }
{
    match order {
        Endian::Little => {
            let place = formulas.little_number(alloc, width, number)?;
            Ok(place)
        }
        Endian::Big => {
            let place = formulas.big_number(alloc, width, number)?;
            Ok(place)
        }
    }
}

/// The formula for the numbers of a range of so many bytes, which goes round where it ends below its start.
pub(crate) fn range_formula(
    alloc: Global,
    formulas: &mut Formulas,
    order: Endian,
    width: usize,
    range: WrappingRange,
) -> Result<usize, AllocError>
    requires width { width ≤ 16 }
    requires within { AreWithin width range }
    ensures { IfOk result (IsFormula (formulas_in formulas.old) (formulas_in formulas.new) width
        (MakeNumber order (IsBetween range.start range.end))) }
{
    if range.start == range.end {
        let place = number_formula(alloc, formulas, order, width, range.start)?;
        return Ok(place);
    }
    let low = from(alloc, formulas, order, width, range.start)?;
    let high = up_to(alloc, formulas, order, width, range.end)?;
    if range.start <= range.end {
        let place = formulas.conjunction(alloc, low, high)?;
        Ok(place)
    } else {
        let place = formulas.disjunction(alloc, low, high)?;
        Ok(place)
    }
}
