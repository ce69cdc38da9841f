//! Whether one formula reads all cells that another reads.

ghost use Rattle.std.specs.Prelude.{◌<◌, ◌-◌, ◌^◌, ◌≡◌, List, IfOk, MatchBool, OnOk, get_or, length};
ghost use Rattle.automata.specs.Formula.{Formula};
ghost use Rattle.automata.specs.Formulas.{Keeps};
ghost use Rattle.automata.specs.Inclusion.{AreTooMany, IsInclusion};
ghost use Rattle.automata.specs.Nodes.{formula_in, formulas_in};
ghost use Rattle.automata.specs.Visits.{AreOrdered, AreSteps, AreVisits, EndsToo, Follows, FollowsRun, IsMissed, IsThere, IsVisited, Leads};
ghost use Rattle.automata.specs.declared.visits.Visit.{Visit as OneVisit};

use crate::cell::{LETTERS, cell_of};
use crate::derivative::derive;
use crate::end::reads_end;
use crate::formulas::Formulas;
use crate::node::FormulaNode;
use crate::visits::{Visit, Visits};
use std::alloc::{AllocError, Global};

/// How many formulas and pairs of formulas there are at most.
pub const STEPS: usize = 1 << 22;

/// Whether one formula reads all cells that another reads.
#[derive(Drop)]
pub enum Inclusion {
    /// It does.
    Included,
    /// These cells only the other one reads.
    Missing(Vec<Option<u8>>),
    /// There would be more formulas and pairs of formulas than `STEPS`.
    TooLarge,
}

/// Whether the visit is behind all cells, and the left formula reads the end, and the right doesn't.
fn is_missed(formulas: &Formulas, visit: Visit, size: u64) -> bool
    requires { IsThere (formulas_in formulas.now) visit }
    ensures { MatchBool result ((visit.place ≡ size) × IsMissed (formulas_in formulas.entry.now) visit)
        (visit.place ≡ size → EndsToo (formulas_in formulas.entry.now) visit) }
{
    visit.place == size && reads_end(formulas, visit.left) && !reads_end(formulas, visit.right)
}

/// The cells that led to a visit.
fn cells_to(alloc: Global, visits: &Visits, visit: usize) -> Result<Vec<Option<u8>>, AllocError>
    requires there { visit < length visits.now }
    requires ordered { AreOrdered visits.now }
    ensures { IfOk result (λ cells. (fs : List Formula) → AreSteps fs visits.now →
        Leads fs visits.now 0 visit cells.items) }
{
    let mut cells = Vec::new(alloc);
    let mut at = visit;
    while at > 0 {
        let here = visits.visit(at);
        cells.push(here.cell)?;
        at = here.from;
    }
    cells.reverse();
    Ok(cells)
}

/// Puts a visit behind the others, where there is none like it, and something is to be shown of it.
fn add_visit(
    alloc: Global,
    formulas: &Formulas,
    visits: &mut Visits,
    visit: Visit,
) -> Result<(), AllocError>
    requires { IsThere (formulas_in formulas.now) visit }
    ensures { OnOk result (IsVisited (formulas_in formulas.entry.now) visits.old visits.new visit) }
{
    if visit.left == visit.right
        || formulas.node(visit.left) == FormulaNode::Never
        || formulas.node(visit.right) == FormulaNode::Any
        || visits.is_seen(visit)
    {
        return Ok(());
    }
    visits.push(alloc, visit)?;
    Ok(())
}

/// Visits what a run of letters leads to from a visit, and answers where the run ends.
fn follow_run(
    alloc: Global,
    formulas: &mut Formulas,
    visits: &mut Visits,
    at: usize,
    letter: u16,
) -> Result<u16, AllocError>
    requires there { at < length visits.old }
    requires visits { AreVisits (formulas_in formulas.old) visits.old }
    requires place { (d : OneVisit) → (get_or visits.old at d).place < 2 ^ 64 - 1 }
    requires letter { letter < 257 }
    ensures { IfOk result (FollowsRun (formulas_in formulas.old) (formulas_in formulas.new) visits.old visits.new at letter) }
{
    let here = visits.visit(at);
    let left = derive(alloc, formulas, here.left, letter, LETTERS)?;
    let right = derive(alloc, formulas, here.right, letter, left.end)?;
    let visit = Visit {
        left: left.formula,
        right: right.formula,
        place: here.place + 1,
        from: at,
        cell: cell_of(letter),
    };
    add_visit(alloc, formulas, visits, visit)?;
    Ok(right.end)
}

/// Visits all that a visit leads to.
fn follow(
    alloc: Global,
    formulas: &mut Formulas,
    visits: &mut Visits,
    at: usize,
) -> Result<(), AllocError>
    requires there { at < length visits.old }
    requires visits { AreVisits (formulas_in formulas.old) visits.old }
    requires place { (d : OneVisit) → (get_or visits.old at d).place < 2 ^ 64 - 1 }
    ensures { OnOk result (Follows (formulas_in formulas.old) (formulas_in formulas.new) visits.old visits.new at (λ l. l < 257)) }
{
    let mut letter = 0;
    while letter < LETTERS {
        letter = follow_run(alloc, formulas, visits, at, letter)?;
    }
    Ok(())
}

/// Whether the second formula reads all lists of so many cells that the first one reads. It is found by pairs of formulas, to
/// which the same cells lead.
pub(crate) fn compare_cells(
    alloc: Global,
    formulas: &mut Formulas,
    left: usize,
    right: usize,
    size: u64,
) -> Result<Inclusion, AllocError>
    requires left { left < length (formulas_in formulas.old) }
    requires right { right < length (formulas_in formulas.old) }
    ensures inclusion { IfOk result (IsInclusion (formula_in (formulas_in formulas.old) left)
        (formula_in (formulas_in formulas.old) right) size) }
    ensures too_large { IfOk result (λ answer. answer ≡ Inclusion.TooLarge →
        AreTooMany (formulas_in formulas.new) left right) }
    ensures kept { OnOk result (Keeps (formulas_in formulas.old) (formulas_in formulas.new)) }
{
    let mut visits = Visits::new(alloc, left, right)?;
    let mut i = 0;
    while i < visits.len() {
        if formulas.len().saturating_add(visits.len()) >= STEPS {
            return Ok(Inclusion::TooLarge);
        }
        let here = visits.visit(i);
        if is_missed(formulas, here, size) {
            let cells = cells_to(alloc, &visits, i)?;
            return Ok(Inclusion::Missing(cells));
        }
        if here.place < size {
            follow(alloc, formulas, &mut visits, i)?;
        }
        i += 1;
    }
    Ok(Inclusion::Included)
}
