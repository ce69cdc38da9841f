//! Formulas for cells that make a number, the greatest byte first.

ghost use Rattle.std.specs.Prelude.{◌≡◌, ◌*◌, ◌/◌, ◌^◌, ◌<◌, ◌≤◌, IfOk, length};
ghost use Rattle.automata.specs.Formula.{either, run};
ghost use Rattle.automata.specs.Formulas.{IsMade};
ghost use Rattle.automata.specs.Nodes.{formula_in, formulas_in};
ghost use Rattle.automata.specs.Number.{AreBytes, IsBig};

use crate::formulas::Formulas;
use std::alloc::{AllocError, Global};

/// A first cell whose letter lies from the start to below the end, and another formula behind it.
#[derive(Clone, Copy)]
struct FirstCell {
    start: u16,
    end: u16,
    next: usize,
}

impl Formulas {
    /// One first cell or another.
    fn either_cell(
        &mut self,
        alloc: Global,
        one: FirstCell,
        other: FirstCell,
    ) -> Result<usize, AllocError>
        requires one { one.next < length (formulas_in self.old) }
        requires other { other.next < length (formulas_in self.old) }
        ensures { IfOk result (IsMade (formulas_in self.old) (formulas_in self.new)
            (either (run one.start one.end (formula_in (formulas_in self.old) one.next))
            (run other.start other.end (formula_in (formulas_in self.old) other.next)))) }
    {
        let first = self.run(alloc, one.start, one.end, one.next)?;
        let second = self.run(alloc, other.start, other.end, other.next)?;
        let place = self.disjunction(alloc, first, second)?;
        Ok(place)
    }

    /// The formula for cells that start with so many bytes.
    pub fn bytes(&mut self, alloc: Global, width: usize) -> Result<usize, AllocError>
        ensures { IfOk result (AreBytes (formulas_in self.old) (formulas_in self.new) width) }
    {
        if width == 0 {
            let place = self.any_cells(alloc)?;
            return Ok(place);
        }
        let rest = self.bytes(alloc, width - 1)?;
        let place = self.run(alloc, 0, 256, rest)?;
        Ok(place)
    }

    /// The formula for the last bytes, so many, of numbers up to this one, whose bytes before these are as its own are.
    pub fn big_up_to(
        &mut self,
        alloc: Global,
        width: usize,
        number: u128,
    ) -> Result<usize, AllocError>
        requires { width ≤ 16 }
        ensures { IfOk result (IsBig (formulas_in self.old) (formulas_in self.new) width (λ m. m ≤ number)
            (number / 2 ^ (8 * width))) }
    {
        if width == 0 {
            let place = self.any_cells(alloc)?;
            return Ok(place);
        }
        let next = self.big_up_to(alloc, width - 1, number)?;
        let bytes = self.bytes(alloc, width - 1)?;
        let start = (number / (1u128 << (8 * (width - 1))) % 256) as u16;
        let below = FirstCell {
            start: 0,
            end: start,
            next: bytes,
        };
        let at = FirstCell {
            start,
            end: start + 1,
            next,
        };
        let place = self.either_cell(alloc, below, at)?;
        Ok(place)
    }

    /// The formula for the last bytes, so many, of numbers from this one on, whose bytes before these are as its own are.
    pub fn big_from(
        &mut self,
        alloc: Global,
        width: usize,
        number: u128,
    ) -> Result<usize, AllocError>
        requires { width ≤ 16 }
        ensures { IfOk result (IsBig (formulas_in self.old) (formulas_in self.new) width (λ m. number ≤ m)
            (number / 2 ^ (8 * width))) }
    {
        if width == 0 {
            let place = self.any_cells(alloc)?;
            return Ok(place);
        }
        let next = self.big_from(alloc, width - 1, number)?;
        let bytes = self.bytes(alloc, width - 1)?;
        let start = (number / (1u128 << (8 * (width - 1))) % 256) as u16;
        let at = FirstCell {
            start,
            end: start + 1,
            next,
        };
        let above = FirstCell {
            start: start + 1,
            end: 256,
            next: bytes,
        };
        let place = self.either_cell(alloc, at, above)?;
        Ok(place)
    }

    /// The formula for the last bytes, so many, of one number, whose bytes before these are as its own are.
    pub fn big_number(
        &mut self,
        alloc: Global,
        width: usize,
        number: u128,
    ) -> Result<usize, AllocError>
        requires { width ≤ 16 }
        ensures { IfOk result (IsBig (formulas_in self.old) (formulas_in self.new) width (λ m. m ≡ number)
            (number / 2 ^ (8 * width))) }
    {
        if width == 0 {
            let place = self.any_cells(alloc)?;
            return Ok(place);
        }
        let next = self.big_number(alloc, width - 1, number)?;
        let digit = (number / (1u128 << (8 * (width - 1))) % 256) as u16;
        let place = self.run(alloc, digit, digit + 1, next)?;
        Ok(place)
    }
}
