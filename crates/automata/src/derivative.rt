//! What a formula says of the cells behind a first one.

ghost use Rattle.std.specs.Prelude.{◌<◌, IfOk, length};
ghost use Rattle.automata.specs.Derivative.{IsDerivative};
ghost use Rattle.automata.specs.Nodes.{formula_in, formulas_in};

use crate::first::end_beside;
use crate::formulas::Formulas;
use crate::node::FormulaNode;
use std::alloc::{AllocError, Global};

/// The formula that is left behind each letter of a run.
#[derive(Clone, Copy)]
pub(crate) struct Derivative {
    pub(crate) formula: usize,
    /// One more than the run's last letter.
    pub(crate) end: u16,
}

/// What is left behind the letter, and those behind it up to where an edge of the formula begins or ends, below `end`.
pub(crate) fn derive(
    alloc: Global,
    formulas: &mut Formulas,
    f: usize,
    letter: u16,
    end: u16,
) -> Result<Derivative, AllocError>
    requires there { f < length (formulas_in formulas.old) }
    requires letter { letter < end }
    ensures { IfOk result (IsDerivative (formulas_in formulas.old) (formulas_in formulas.new) (formula_in (formulas_in formulas.old) f) letter end) }
{
    if let Some(past) = end_beside(formulas.first_letters(f), letter, end) {
        let formula = formulas.no_cells(alloc)?;
        return Ok(Derivative { formula, end: past });
    }
    match formulas.node(f) {
        FormulaNode::Any => Ok(Derivative { formula: f, end }),
        FormulaNode::Never => Ok(Derivative { formula: f, end }),
        FormulaNode::Run {
            start,
            end: past,
            next,
        } => {
            if letter < start {
                let formula = formulas.no_cells(alloc)?;
                return Ok(Derivative {
                    formula,
                    end: end.min(start),
                });
            }
            if letter < past {
                return Ok(Derivative {
                    formula: next,
                    end: end.min(past),
                });
            }
            let formula = formulas.no_cells(alloc)?;
            Ok(Derivative { formula, end })
        }
        FormulaNode::Both(g, h) => {
            let first = derive(alloc, formulas, g, letter, end)?;
            if formulas.node(first.formula) == FormulaNode::Never {
                return Ok(first);
            }
            let second = derive(alloc, formulas, h, letter, first.end)?;
            let formula = formulas.conjunction(alloc, first.formula, second.formula)?;
            Ok(Derivative {
                formula,
                end: second.end,
            })
        }
        FormulaNode::Either(g, h) => {
            let first = derive(alloc, formulas, g, letter, end)?;
            let second = derive(alloc, formulas, h, letter, first.end)?;
            let formula = formulas.disjunction(alloc, first.formula, second.formula)?;
            Ok(Derivative {
                formula,
                end: second.end,
            })
        }
        FormulaNode::Gap(count, g) => {
            if count == 0 {
                let found = derive(alloc, formulas, g, letter, end)?;
                return Ok(found);
            }
            let formula = formulas.gap(alloc, count - 1, g)?;
            Ok(Derivative { formula, end })
        }
        FormulaNode::Each {
            count,
            size,
            element,
        } => {
            let first = derive(alloc, formulas, element, letter, end)?;
            let others = formulas.repetition(alloc, count - 1, size, element)?;
            let behind = formulas.gap(alloc, size - 1, others)?;
            let formula = formulas.conjunction(alloc, first.formula, behind)?;
            Ok(Derivative {
                formula,
                end: first.end,
            })
        }
    }
}
