//! Ascending lists of numbers.

ghost use Rattle.std.specs.Prelude.{◌≡◌, ℕ, ◌<◌, ◌≤◌, ◌==◌, ◌||◌, [], length, not, true, false, OnOk, OnErr, IfOk, IfErr, IsOk, insert};
ghost use Rattle.abi_index.specs.AscendingList.{IsAscendingFrom, has_number};

use std::alloc::{AllocError, Global};
use std::fmt;
use std::fmt::Debug;
use std::marker::Model;

/// An ascending list of numbers, none of them twice.
#[derive(Drop)]
pub(crate) struct AscendingList {
    numbers: Vec<u32>,
}

impl Model for AscendingList {
    ghost use Rattle.std.specs.Prelude.{List, ℕ};
    ghost use Rattle.abi_index.specs.AscendingList.{IsAscendingFrom};

    ghost Value = { List ℕ };

    ghost view = { λ a. a.numbers.items };

    ghost invariant = { λ a. IsAscendingFrom 0 a.numbers.items };
}

impl PartialEq for AscendingList {
    ghost use Rattle.std.specs.Cmp.Lexicographic.{pointwise, lists_per};
    ghost use Rattle.std.specs.Cmp.Rules.{comparing};

    ghost eq = { λ x y. pointwise ⟦<u32 as PartialEq>⟧.eq x y };

    ghost laws = { lists_per (Prim.search comparing) };

    fn eq(&self, other: &Self) -> bool {
        self.numbers == other.numbers
    }
}

impl Eq for AscendingList {
    ghost use Rattle.std.specs.Cmp.Lexicographic.{lists_equiv};
    ghost use Rattle.std.specs.Cmp.Rules.{comparing};

    ghost laws = { lists_equiv (Prim.search comparing) };
}

impl Debug for AscendingList {
    fn fmt<W: fmt::Write>(&self, f: &mut fmt::Formatter<W>) -> fmt::Result {
        self.numbers.fmt(f)
    }
}

impl AscendingList {
    /// An empty list.
    pub(crate) fn new(alloc: Global) -> Self
        ensures { result ≡ [] }
    {
        AscendingList {
            numbers: Vec::new(alloc),
        }
    }

    /// The numbers, ascending.
    pub(crate) fn as_slice(&self) -> &[u32]
        ensures numbers { result.now ≡ self.now }
        ensures ascend { IsAscendingFrom 0 result.now }
    {
        self.numbers.as_slice()
    }

    /// Whether a number is in the list.
    pub(crate) fn contains(&self, number: u32) -> bool
        ensures { result ≡ has_number self.now number }
    {
        place_of(self.numbers.as_slice(), number).is_ok()
    }

    /// Puts a number in its place, and answers whether it is new. A refused growth leaves the list as it was; a number that
    /// is there asks for none.
    #[tactic(auto, using(crate::proofs::AscendingLemmas::inserted))]
    pub(crate) fn insert(&mut self, number: u32) -> Result<bool, AllocError>
        ensures is_new { IfOk result (λ is_new. is_new ≡ not (has_number self.old number)) }
        ensures numbers { OnOk result ((k : ℕ) →
            has_number self.new k ≡ (k == number || has_number self.old k)) }
        ensures there { has_number self.old number ≡ true → IsOk result }
        ensures err { OnErr result (self.new ≡ self.old) }
    {
        match place_of(self.numbers.as_slice(), number) {
            Ok(_) => Ok(false),
            Err(place) => {
                self.numbers.insert(place, number)?;
                Ok(true)
            }
        }
    }
}

/// The place of a number in an ascending list, or the one where it belongs.
fn place_of(numbers: &[u32], number: u32) -> Result<usize, usize>
    requires { IsAscendingFrom 0 numbers.now }
    ensures found { IfOk result (λ i. has_number numbers.now number ≡ true) }
    ensures free { IfErr result (λ i. has_number numbers.now number ≡ false) }
    ensures within { IfErr result (λ i. i ≤ length numbers.now) }
    ensures ascend { IfErr result (λ i. IsAscendingFrom 0 (insert numbers.now i number)) }
{
    numbers.binary_search(&number)
}
