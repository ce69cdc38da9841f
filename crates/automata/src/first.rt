//! The letters that the first cells may have of what formulas read.

ghost use Rattle.std.specs.Prelude.{◌<◌, ◌≤◌, IfSome, List, length};
ghost use Rattle.automata.specs.First.{BeginsBeside, HasFirst, HaveFirsts};
ghost use Rattle.automata.specs.Formula.{Formula, both, either};
ghost use Rattle.automata.specs.Nodes.{IsNode, meaning};

use crate::node::FormulaNode;

/// Letters from one to below another.
#[derive(Clone, Copy)]
pub(crate) struct Letters {
    pub(crate) start: u16,
    pub(crate) end: u16,
}

/// The first letters of what two formulas both read, by those of each; `None` where nothing is known, here and below.
fn common_letters(one: Option<Letters>, other: Option<Letters>) -> Option<Letters>
    ensures { (f g : Formula) → HasFirst f one → HasFirst g other → HasFirst (both f g) result }
{
    match (one, other) {
        (Some(one), Some(other)) => Some(Letters {
            start: one.start.max(other.start),
            end: one.end.min(other.end),
        }),
        (Some(one), None) => Some(one),
        (None, other) => other,
    }
}

/// The first letters of what one of two formulas reads, and those between.
fn letters_around(one: Option<Letters>, other: Option<Letters>) -> Option<Letters>
    ensures { (f g : Formula) → HasFirst f one → HasFirst g other → HasFirst (either f g) result }
{
    match (one, other) {
        (Some(one), Some(other)) => Some(Letters {
            start: one.start.min(other.start),
            end: one.end.max(other.end),
        }),
        _ => None,
    }
}

/// The first letters of what a node reads, by those of the formulas that it is made of.
#[tactic(auto, using(crate::proofs::FirstLemmas::first_each))]
pub(crate) fn first_letters_of(node: FormulaNode, firsts: &Vec<Option<Letters>>) -> Option<Letters>
    requires { IsNode (length firsts.now.items) node }
    ensures { (fs : List Formula) → HaveFirsts fs firsts.now.items → HasFirst (meaning fs node) result }
{
    match node {
        FormulaNode::Any => None,
        FormulaNode::Never => Some(Letters { start: 0, end: 0 }),
        FormulaNode::Run {
            start,
            end,
            next: _,
        } => Some(Letters { start, end }),
        FormulaNode::Both(f, g) => common_letters(firsts[f], firsts[g]),
        FormulaNode::Either(f, g) => letters_around(firsts[f], firsts[g]),
        FormulaNode::Gap(_, _) => None,
        FormulaNode::Each {
            count: _,
            size: _,
            element,
        } => firsts[element],
    }
}

/// Where the first of some letters isn't on these, the end of those from it on that aren't; `None` where it is on them.
pub(crate) fn end_beside(letters: Option<Letters>, letter: u16, end: u16) -> Option<u16>
    requires { letter < end }
    ensures some { IfSome result (λ past. letter < past) }
    ensures within { IfSome result (λ past. past ≤ end) }
    ensures beside { IfSome result (λ past. (f : Formula) → HasFirst f letters → BeginsBeside letter past f) }
{
    match letters {
        Some(on) => {
            if letter < on.start {
                return Some(end.min(on.start));
            }
            if on.end <= letter {
                return Some(end);
            }
            None
        }
        None => None,
    }
}
