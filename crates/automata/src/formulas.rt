//! Formulas, each kept once.

ghost use Rattle.std.specs.Prelude.{◌≡◌, ◌<◌, [], length, IfOk, IfSome, IsTrue};
ghost use Rattle.automata.specs.First.{HasFirst};
ghost use Rattle.automata.specs.Formula.{any, both, each, either, gap, never, run};
ghost use Rattle.automata.specs.Formulas.{IsMade, IsShared};
ghost use Rattle.automata.specs.Nodes.{IsNode, formula_in, formulas_in, meaning};
ghost use Rattle.automata.specs.declared.node.FormulaNode.{FormulaNode as OneNode};

use crate::first::{Letters, first_letters_of};
use crate::node::{FormulaNode, number_of};
use std::alloc::{AllocError, Global};
use std::marker::Model;

/// How many chains there are at the first.
const FIRST_CHAINS: usize = 64;

/// How many chains there are at most.
const MOST_CHAINS: usize = 1 << 22;

/// Formulas, each of which is made of earlier ones and kept once, with what is known of its first letters. To find one, they
/// are in chains by a number made of their parts: of each chain the newest formula is known, and of each formula the one before
/// it in its chain, by one more than its place, and 0 where there is none.
#[derive(Drop)]
pub struct Formulas {
    nodes: Vec<FormulaNode>,
    firsts: Vec<Option<Letters>>,
    newest: Vec<usize>,
    before: Vec<usize>,
}

/// So many cells of any kind, and two formulas behind them.
#[derive(Clone, Copy)]
struct SharedGap {
    count: u64,
    first: usize,
    second: usize,
}

impl Model for Formulas {
    ghost use Rattle.std.specs.Prelude.{List, ◌<◌, ◌≤◌, length};
    ghost use Rattle.automata.specs.First.{HaveFirsts};
    ghost use Rattle.automata.specs.Nodes.{AreNodes, formulas_in};
    ghost use Rattle.automata.specs.declared.node.FormulaNode.{FormulaNode as OneNode};

    ghost Value = { List OneNode };

    ghost view = { λ a. a.nodes.items };

    ghost invariant = { λ a. AreNodes a.nodes.items × (0 < length a.newest.items)
        × (length a.nodes.items ≤ length a.before.items) × (length a.nodes.items ≤ length a.firsts.items)
        × HaveFirsts (formulas_in a.nodes.items) a.firsts.items };
}

/// Whether the node is that of any cells.
fn is_any(node: FormulaNode) -> bool
    ensures { IsTrue result → node ≡ OneNode.Any }
{
    matches!(node, FormulaNode::Any)
}

/// Whether the nodes are equal.
fn is_same(node: FormulaNode, other: FormulaNode) -> bool
    ensures { IsTrue result → node ≡ other }
{
    node == other
}

impl Formulas {
    /// No formulas yet. `AllocError` where memory is refused, here and below.
    pub fn new(alloc: Global) -> Result<Formulas, AllocError>
        ensures { IfOk result (λ formulas. formulas ≡ []) }
    {
        let newest = vec![in alloc; 0usize; FIRST_CHAINS]?;
        Ok(Formulas {
            nodes: Vec::new(alloc),
            firsts: Vec::new(alloc),
            newest,
            before: Vec::new(alloc),
        })
    }

    /// How many there are.
    pub fn len(&self) -> usize
        ensures { result ≡ length (formulas_in self.now) }
    {
        self.nodes.len()
    }

    /// The node of the formula at a place.
    pub(crate) fn node(&self, place: usize) -> FormulaNode
        requires { place < length (formulas_in self.now) }
        ensures formula { formula_in (formulas_in self.now) place ≡ meaning (formulas_in self.now) result }
        ensures earlier { IsNode place result }
    {
        self.nodes[place]
    }

    /// The first letters of what the formula at a place reads; `None` where nothing is known of them.
    pub(crate) fn first_letters(&self, place: usize) -> Option<Letters>
        requires { place < length (formulas_in self.now) }
        ensures { HasFirst (formula_in (formulas_in self.now) place) result }
    {
        self.firsts[place]
    }

    /// Puts the node at a place into its chain, in front of the newest one.
    fn link(&mut self, place: usize)
        ensures { self.new ≡ self.old }
    {
        if place < self.nodes.len() {
            let chain = (number_of(self.nodes[place]) % self.newest.len() as u64) as usize;
            self.before[place] = self.newest[chain];
            self.newest[chain] = place + 1;
        }
    }

    /// Puts all nodes into twice as many chains.
    fn double_chains(&mut self, alloc: Global) -> Result<(), AllocError>
        ensures { self.new ≡ self.old }
    {
        let chains = self.newest.len();
        if chains < MOST_CHAINS {
            self.newest = vec![in alloc; 0usize; 2 * chains]?;
            for place in 0..self.nodes.len() {
                self.link(place);
            }
        }
        Ok(())
    }

    /// The place of a node that is there.
    fn find(&self, node: FormulaNode) -> Option<usize>
        ensures there { IfSome result (λ place. place < length (formulas_in self.now)) }
        ensures same { IfSome result (λ place. formula_in (formulas_in self.now) place ≡ meaning (formulas_in self.now) node) }
    {
        let mut at = self.newest[(number_of(node) % self.newest.len() as u64) as usize];
        while 0 < at && at <= self.nodes.len() {
            if is_same(self.nodes[at - 1], node) {
                return Some(at - 1);
            }
            at = self.before[at - 1].min(at - 1);
        }
        None
    }

    /// Puts a node behind the others, in no chain yet.
    fn put_node(&mut self, node: FormulaNode) -> Result<usize, AllocError>
        requires { IsNode (length (formulas_in self.old)) node }
        ensures { IfOk result (IsMade (formulas_in self.old) (formulas_in self.new) (meaning (formulas_in self.old) node)) }
    {
        let place = self.nodes.len();
        self.firsts.truncate(place);
        let first = first_letters_of(node, &self.firsts);
        self.firsts.push(first)?;
        self.before.push(0)?;
        self.nodes.push(node)?;
        Ok(place)
    }

    /// The place of a node, which is put behind the others where it isn't there yet.
    fn place_of(&mut self, alloc: Global, node: FormulaNode) -> Result<usize, AllocError>
        requires { IsNode (length (formulas_in self.old)) node }
        ensures { IfOk result (IsMade (formulas_in self.old) (formulas_in self.new) (meaning (formulas_in self.old) node)) }
    {
        if let Some(place) = self.find(node) {
            return Ok(place);
        }
        if self.nodes.len() >= self.newest.len() {
            self.double_chains(alloc)?;
        }
        let place = self.put_node(node)?;
        self.link(place);
        Ok(place)
    }

    /// Any cells.
    pub fn any_cells(&mut self, alloc: Global) -> Result<usize, AllocError>
        ensures { IfOk result (IsMade (formulas_in self.old) (formulas_in self.new) any) }
    {
        let place = self.place_of(alloc, FormulaNode::Any)?;
        Ok(place)
    }

    /// No cells.
    pub fn no_cells(&mut self, alloc: Global) -> Result<usize, AllocError>
        ensures { IfOk result (IsMade (formulas_in self.old) (formulas_in self.new) never) }
    {
        let place = self.place_of(alloc, FormulaNode::Never)?;
        Ok(place)
    }

    /// A first cell whose letter lies from the start to below the end, and another formula behind it.
    pub fn run(
        &mut self,
        alloc: Global,
        start: u16,
        end: u16,
        next: usize,
    ) -> Result<usize, AllocError>
        requires { next < length (formulas_in self.old) }
        ensures { IfOk result (IsMade (formulas_in self.old) (formulas_in self.new) (run start end (formula_in (formulas_in self.old) next))) }
    {
        if start >= end || self.node(next) == FormulaNode::Never {
            let place = self.place_of(alloc, FormulaNode::Never)?;
            return Ok(place);
        }
        let place = self.place_of(alloc, FormulaNode::Run { start, end, next })?;
        Ok(place)
    }

    /// The gap that two formulas begin with, and what they read behind it.
    fn share_gap(&mut self, alloc: Global, f: usize, g: usize) -> Result<SharedGap, AllocError>
        requires first { f < length (formulas_in self.old) }
        requires second { g < length (formulas_in self.old) }
        ensures { IfOk result (IsShared (formulas_in self.old) (formulas_in self.new) f g) }
    {
        if let FormulaNode::Gap(one, behind_one) = self.node(f) {
            if let FormulaNode::Gap(other, behind_other) = self.node(g) {
                let count = one.min(other);
                let first = self.gap(alloc, one - count, behind_one)?;
                let second = self.gap(alloc, other - count, behind_other)?;
                return Ok(SharedGap {
                    count,
                    first,
                    second,
                });
            }
        }
        Ok(SharedGap {
            count: 0,
            first: f,
            second: g,
        })
    }

    /// What both formulas read.
    pub fn conjunction(&mut self, alloc: Global, f: usize, g: usize) -> Result<usize, AllocError>
        requires first { f < length (formulas_in self.old) }
        requires second { g < length (formulas_in self.old) }
        ensures { IfOk result (IsMade (formulas_in self.old) (formulas_in self.new)
            (both (formula_in (formulas_in self.old) f) (formula_in (formulas_in self.old) g))) }
    {
        let first = self.node(f);
        let second = self.node(g);
        if f == g || second == FormulaNode::Any || first == FormulaNode::Never {
            return Ok(f);
        }
        if first == FormulaNode::Any || second == FormulaNode::Never {
            return Ok(g);
        }
        let shared = self.share_gap(alloc, f, g)?;
        let both = self.place_of(alloc, FormulaNode::Both(shared.first, shared.second))?;
        let place = self.gap(alloc, shared.count, both)?;
        Ok(place)
    }

    /// What one of the two formulas reads.
    pub fn disjunction(&mut self, alloc: Global, f: usize, g: usize) -> Result<usize, AllocError>
        requires first { f < length (formulas_in self.old) }
        requires second { g < length (formulas_in self.old) }
        ensures { IfOk result (IsMade (formulas_in self.old) (formulas_in self.new)
            (either (formula_in (formulas_in self.old) f) (formula_in (formulas_in self.old) g))) }
    {
        let first = self.node(f);
        let second = self.node(g);
        if f == g || second == FormulaNode::Never || first == FormulaNode::Any {
            return Ok(f);
        }
        if first == FormulaNode::Never || second == FormulaNode::Any {
            return Ok(g);
        }
        let shared = self.share_gap(alloc, f, g)?;
        let either = self.place_of(alloc, FormulaNode::Either(shared.first, shared.second))?;
        let place = self.gap(alloc, shared.count, either)?;
        Ok(place)
    }

    /// So many cells of any kind, and the formula behind them.
    pub fn gap(&mut self, alloc: Global, count: u64, f: usize) -> Result<usize, AllocError>
        requires { f < length (formulas_in self.old) }
        ensures { IfOk result (IsMade (formulas_in self.old) (formulas_in self.new) (gap count (formula_in (formulas_in self.old) f))) }
    {
        let node = self.node(f);
        if count == 0 || node == FormulaNode::Any || node == FormulaNode::Never {
            return Ok(f);
        }
        let place = self.place_of(alloc, FormulaNode::Gap(count, f))?;
        Ok(place)
    }

    /// So often the formula, each time so many cells further on.
    pub fn repetition(
        &mut self,
        alloc: Global,
        count: u64,
        size: u64,
        f: usize,
    ) -> Result<usize, AllocError>
        requires { f < length (formulas_in self.old) }
        ensures { IfOk result (IsMade (formulas_in self.old) (formulas_in self.new) (each count size (formula_in (formulas_in self.old) f))) }
    {
        if count == 0 {
            let place = self.place_of(alloc, FormulaNode::Any)?;
            return Ok(place);
        }
        if count == 1 {
            return Ok(f);
        }
        if size == 0 {
            return Ok(f);
        }
        if is_any(self.node(f)) {
            return Ok(f);
        }
        let place = self.place_of(
            alloc,
            FormulaNode::Each {
                count,
                size,
                element: f,
            },
        )?;
        Ok(place)
    }
}
