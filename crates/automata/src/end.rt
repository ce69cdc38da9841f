//! Whether a formula reads where no cell is left.

ghost use Rattle.std.specs.Prelude.{◌<◌, [], MatchBool, length};
ghost use Rattle.automata.specs.Formula.{Reads};
ghost use Rattle.automata.specs.Nodes.{formula_in, formulas_in};

use crate::formulas::Formulas;
use crate::node::FormulaNode;

/// Whether the formula reads the list without cells.
pub(crate) fn reads_end(formulas: &Formulas, f: usize) -> bool
    requires { f < length (formulas_in formulas.now) }
    ensures { MatchBool result (Reads (formula_in (formulas_in formulas.entry.now) f) []) (Reads (formula_in (formulas_in formulas.entry.now) f) [] → ⊥) }
{
    match formulas.node(f) {
        FormulaNode::Any => true,
        FormulaNode::Never => false,
        FormulaNode::Run { .. } => false,
        FormulaNode::Both(g, h) => reads_end(formulas, g) && reads_end(formulas, h),
        FormulaNode::Either(g, h) => reads_end(formulas, g) || reads_end(formulas, h),
        FormulaNode::Gap(_, g) => reads_end(formulas, g),
        FormulaNode::Each {
            count: _,
            size: _,
            element,
        } => reads_end(formulas, element),
    }
}
