//! How far formulas look.

ghost use Rattle.std.specs.Prelude.{◌≡◌, ◌+◌, ◌-◌, ◌*◌, ◌<◌, ◌≤◌, IfOk, List, length};
ghost use Rattle.automata.specs.Formula.{Formula};
ghost use Rattle.automata.specs.Nodes.{IsNode, formulas_in, meaning};
ghost use Rattle.automata.specs.Reach.{AreReaches, IsReach};

use crate::formulas::Formulas;
use crate::node::FormulaNode;
use std::alloc::{AllocError, Global};

/// The first cells that a repeated formula looks at, which looks at so many itself, and the greatest number where there are
/// more.
fn repeated_reach(count: u64, size: u64, reach: u64) -> u64
    ensures { result < 18446744073709551615 → (count - 1) * size + reach ≤ result }
{
    let all = count.saturating_sub(1) as u128 * size as u128 + reach as u128;
    all.min(18446744073709551615) as u64
}

/// The first cells that a formula looks at, by those that the formulas it is made of look at, and the greatest number where
/// there are more.
fn reach_of(node: FormulaNode, reaches: &Vec<u64>) -> u64
    requires { IsNode (length reaches.now.items) node }
    ensures { (fs : List Formula) → AreReaches fs reaches.now.items → IsReach (meaning fs node) result }
{
    match node {
        FormulaNode::Any => 0,
        FormulaNode::Never => 0,
        FormulaNode::Run {
            start: _,
            end: _,
            next,
        } => reaches[next].saturating_add(1),
        FormulaNode::Both(f, g) => reaches[f].max(reaches[g]),
        FormulaNode::Either(f, g) => reaches[f].max(reaches[g]),
        FormulaNode::Gap(count, f) => reaches[f].saturating_add(count),
        FormulaNode::Each {
            count,
            size,
            element,
        } => repeated_reach(count, size, reaches[element]),
    }
}

/// The first cells that each formula looks at, and the greatest number where there are more.
pub(crate) fn reaches(alloc: Global, formulas: &Formulas) -> Result<Vec<u64>, AllocError>
    ensures length { IfOk result (λ reaches. length reaches.items ≡ length (formulas_in formulas.now)) }
    ensures reaches { IfOk result (λ reaches. AreReaches (formulas_in formulas.now) reaches.items) }
{
    let mut reaches = Vec::new(alloc);
    for place in 0..formulas.len() {
        let reach = reach_of(formulas.node(place), &reaches);
        reaches.push(reach)?;
    }
    Ok(reaches)
}
