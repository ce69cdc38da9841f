//! Pairs of formulas that were visited, and looking for one of them.

ghost use Rattle.std.specs.Prelude.{◌≡◌, ◌<◌, ◌∷◌, ◌++◌, [], get_or, length, IfOk, IsTrue, OnOk, List};
ghost use Rattle.automata.specs.Visits.{IsAlike, IsFirst, SomeOf};

use crate::node::mix;
use std::alloc::{AllocError, Global};
use std::marker::Model;

/// How many chains there are at the first.
const FIRST_CHAINS: usize = 64;

/// How many chains there are at most.
const MOST_CHAINS: usize = 1 << 22;

/// Two formulas, how many cells led to them, and the earlier visit and the cell from which they were reached.
#[derive(Clone, Copy)]
pub(crate) struct Visit {
    pub(crate) left: usize,
    pub(crate) right: usize,
    pub(crate) place: u64,
    pub(crate) from: usize,
    pub(crate) cell: Option<u8>,
}

/// Visits, one behind another, in chains as formulas are.
#[derive(Drop)]
pub(crate) struct Visits {
    list: Vec<Visit>,
    newest: Vec<usize>,
    before: Vec<usize>,
}

impl Model for Visits {
    ghost use Rattle.std.specs.Prelude.{List, ◌<◌, ◌≤◌, length};
    ghost use Rattle.automata.specs.declared.visits.Visit.{Visit as OneVisit};

    ghost Value = { List OneVisit };

    ghost view = { λ a. a.list.items };

    ghost invariant = { λ a. (0 < length a.newest.items) × (length a.list.items ≤ length a.before.items) };
}

/// A number that is made of a visit's formulas and place, for looking it up.
fn number_of(visit: Visit) -> u64 {
    mix(
        mix(mix(visit.left as u64, visit.right as u64), visit.place),
        0,
    )
}

/// Whether the visits are of the same formulas behind as many cells.
fn is_alike(visit: Visit, other: Visit) -> bool
    ensures { IsTrue result → IsAlike visit other }
{
    other.left == visit.left && other.right == visit.right && other.place == visit.place
}

impl Visits {
    /// The first visit, which comes from none.
    pub(crate) fn new(alloc: Global, left: usize, right: usize) -> Result<Visits, AllocError>
        ensures { IfOk result (IsFirst left right) }
    {
        let newest = vec![in alloc; 0usize; FIRST_CHAINS]?;
        let before = vec![in alloc; 0usize]?;
        let list = vec![in alloc;
            Visit {
                left,
                right,
                place: 0,
                from: 0,
                cell: None,
            },
        ]?;
        let mut visits = Visits {
            list,
            newest,
            before,
        };
        visits.link(0);
        Ok(visits)
    }

    /// How many there are.
    pub(crate) fn len(&self) -> usize
        ensures { result ≡ length self.now }
    {
        self.list.len()
    }

    /// The visit at a place.
    pub(crate) fn visit(&self, at: usize) -> Visit
        requires { at < length self.now }
        ensures { result ≡ get_or self.now at result }
    {
        self.list[at]
    }

    /// Puts the visit at a place into its chain, in front of the newest one.
    fn link(&mut self, at: usize)
        ensures { self.new ≡ self.old }
    {
        if at < self.list.len() {
            let chain = (number_of(self.list[at]) % self.newest.len() as u64) as usize;
            self.before[at] = self.newest[chain];
            self.newest[chain] = at + 1;
        }
    }

    /// Puts all visits into twice as many chains.
    fn double_chains(&mut self, alloc: Global) -> Result<(), AllocError>
        ensures { self.new ≡ self.old }
    {
        let chains = self.newest.len();
        if chains < MOST_CHAINS {
            self.newest = vec![in alloc; 0usize; 2 * chains]?;
            for at in 0..self.list.len() {
                self.link(at);
            }
        }
        Ok(())
    }

    /// Whether there is such a visit.
    pub(crate) fn is_seen(&self, visit: Visit) -> bool
        ensures { IsTrue result → SomeOf (IsAlike visit) self.now }
    {
        let mut at = self.newest[(number_of(visit) % self.newest.len() as u64) as usize];
        while 0 < at && at <= self.list.len() {
            if is_alike(visit, self.list[at - 1]) {
                return true;
            }
            at = self.before[at - 1].min(at - 1);
        }
        false
    }

    /// Puts a visit behind the others, in no chain yet.
    fn put_visit(&mut self, visit: Visit) -> Result<(), AllocError>
        ensures { OnOk result (self.new ≡ self.old ++ visit ∷ []) }
    {
        self.before.push(0)?;
        self.list.push(visit)?;
        Ok(())
    }

    /// Puts a visit behind the others.
    pub(crate) fn push(&mut self, alloc: Global, visit: Visit) -> Result<(), AllocError>
        ensures { OnOk result (self.new ≡ self.old ++ visit ∷ []) }
    {
        let at = self.list.len();
        if at >= self.newest.len() {
            self.double_chains(alloc)?;
        }
        self.put_visit(visit)?;
        self.link(at);
        Ok(())
    }
}
