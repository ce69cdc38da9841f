//! Formulas for cells that make a number.

ghost use Rattle.std.specs.Prelude.{◌≡◌, ◌<◌, ◌≤◌, IfOk, length};
ghost use Rattle.automata.specs.Formula.{either, run};
ghost use Rattle.automata.specs.Formulas.{IsMade};
ghost use Rattle.automata.specs.Nodes.{formula_in, formulas_in};
ghost use Rattle.automata.specs.Number.{IsAbove, IsBelow, IsLittle};

use crate::formulas::Formulas;
use std::alloc::{AllocError, Global};

/// Formulas for the numbers on one side of a number, without it and with it.
#[derive(Clone, Copy)]
pub struct Bound {
    /// Without the number itself.
    pub strict: usize,
    /// With it.
    pub loose: usize,
}

impl Formulas {
    /// A first byte below one and the first formula behind it, or another byte and the second.
    fn split(
        &mut self,
        alloc: Global,
        at: u16,
        below: usize,
        from: usize,
    ) -> Result<usize, AllocError>
        requires below { below < length (formulas_in self.old) }
        requires from { from < length (formulas_in self.old) }
        ensures { IfOk result (IsMade (formulas_in self.old) (formulas_in self.new)
            (either (run 0 at (formula_in (formulas_in self.old) below))
            (run at 256 (formula_in (formulas_in self.old) from)))) }
    {
        let first = self.run(alloc, 0, at, below)?;
        let second = self.run(alloc, at, 256, from)?;
        let place = self.disjunction(alloc, first, second)?;
        Ok(place)
    }

    /// The formulas for numbers of so many bytes, the least first, below this one, and for these and the number itself.
    pub fn little_below(
        &mut self,
        alloc: Global,
        width: usize,
        number: u128,
    ) -> Result<Bound, AllocError>
        ensures { IfOk result (IsBelow (formulas_in self.old) (formulas_in self.new) width number) }
    {
        if width == 0 {
            let loose = self.any_cells(alloc)?;
            if number > 0 {
                return Ok(Bound {
                    strict: loose,
                    loose,
                });
            }
            let strict = self.no_cells(alloc)?;
            return Ok(Bound { strict, loose });
        }
        let rest = self.little_below(alloc, width - 1, number / 256)?;
        let digit = (number % 256) as u16;
        let strict = self.split(alloc, digit, rest.loose, rest.strict)?;
        let loose = self.split(alloc, digit + 1, rest.loose, rest.strict)?;
        Ok(Bound { strict, loose })
    }

    /// The formulas for numbers of so many bytes, the least first, above this one, and for these and the number itself.
    pub fn little_above(
        &mut self,
        alloc: Global,
        width: usize,
        number: u128,
    ) -> Result<Bound, AllocError>
        ensures { IfOk result (IsAbove (formulas_in self.old) (formulas_in self.new) width number) }
    {
        if width == 0 {
            let strict = self.no_cells(alloc)?;
            if number > 0 {
                return Ok(Bound {
                    strict,
                    loose: strict,
                });
            }
            let loose = self.any_cells(alloc)?;
            return Ok(Bound { strict, loose });
        }
        let rest = self.little_above(alloc, width - 1, number / 256)?;
        let digit = (number % 256) as u16;
        let strict = self.split(alloc, digit + 1, rest.strict, rest.loose)?;
        let loose = self.split(alloc, digit, rest.strict, rest.loose)?;
        Ok(Bound { strict, loose })
    }

    /// The formula for one number of so many bytes, the least first.
    pub fn little_number(
        &mut self,
        alloc: Global,
        width: usize,
        number: u128,
    ) -> Result<usize, AllocError>
        ensures { IfOk result (IsLittle (formulas_in self.old) (formulas_in self.new) width (λ m. m ≡ number)) }
    {
        if width == 0 {
            if number > 0 {
                let place = self.no_cells(alloc)?;
                return Ok(place);
            }
            let place = self.any_cells(alloc)?;
            return Ok(place);
        }
        let next = self.little_number(alloc, width - 1, number / 256)?;
        let digit = (number % 256) as u16;
        let place = self.run(alloc, digit, digit + 1, next)?;
        Ok(place)
    }
}
