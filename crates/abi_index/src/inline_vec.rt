//! Lists that keep up to two items in themselves.

ghost use Rattle.std.specs.Prelude.{◌≡◌, ℕ, ◌≤◌, ◌<◌, ◌-◌, ◌↔◌, [], ◌∷◌, ◌++◌, length, IsTrue, IsOk, IfOk, IfErr, OnOk, OnErr, nat_le, if◌then◌else◌, option_to_list, slice_set, vec_capacity};
ghost use Rattle.std.specs.Mem.{type_size};
ghost use Rattle.abi_index.specs.InlineVec.{IsPush, TwoFit, inline_items};

use crate::pair::{Pair, as_array};
use std::alloc::{AllocError, Global};
use std::marker::Model;
use std::{mem, slice};

/// How many bytes an item takes, for what is said of lists.
pub trait InMemory {
    ghost bytes: { ℕ };
}

impl<T> InMemory for T {
    ghost bytes = { type_size T.row };
}

/// The items that a list has in itself.
#[derive(Drop)]
pub enum Front<T> {
    Empty,
    One(T),
    Two(Pair<T>),
}

/// A list that has up to two items in itself, and more in an allocation.
#[derive(Drop)]
pub(crate) struct InlineVec<T: InMemory> {
    front: Front<T>,
    rest: Vec<T>,
}

impl<T: InMemory> Model for InlineVec<T> {
    ghost use Rattle.std.specs.Prelude.{vec_capacity};
    ghost use Rattle.abi_index.specs.InlineVec.{Kept, inline_items, IsAlone};

    ghost Value = { Kept T };

    ghost view = { λ a. record { items = inline_items a.front a.rest.items; room = vec_capacity a.rest } };

    ghost invariant = { λ a. IsAlone T.bytes a.front a.rest.items };
}

/// The pair as a list.
fn pair_items<T>(pair: &Pair<T>) -> &[T]
    requires { TwoFit T.row }
    ensures { result.now ≡ pair.now.first ∷ pair.now.second ∷ [] }
{
    as_array(pair)
}

/// Whether two such items fit in memory, which they always do.
fn two_fit<T>(item: &T) -> bool
    ensures { IsTrue result ↔ TwoFit T.row }
{
    mem::size_of_val(item) < 0x4000_0000_0000_0000
}

/// The item, behind the one that is before it, if one is.
fn front_with<T>(before: Option<T>, item: T) -> Front<T>
    ensures { inline_items result [] ≡ option_to_list before ++ item ∷ [] }
{
    match before {
        None => Front::One(item),
        Some(first) => Front::Two(Pair {
            first,
            second: item,
        }),
    }
}

/// Puts an item behind those that lie in an allocation. Where growth is refused, all is as it was.
fn push_allocated<T: Drop>(rest: &mut Vec<T>, item: T) -> Result<(), AllocError>
    ensures ok { OnOk result (rest.new.items ≡ rest.old.items ++ item ∷ []) }
    ensures err { OnErr result (rest.new.items ≡ rest.old.items) }
    ensures room { OnErr result (vec_capacity rest.new ≡ vec_capacity rest.old) }
    ensures kept { vec_capacity rest.old ≤ vec_capacity rest.new }
    ensures reserved { length rest.old.items < vec_capacity rest.old → IsOk result }
{
    rest.reserve(1)?;
    rest.push_reserved(item);
    Ok(())
}

/// Moves a pair into an allocation, which has no items, and puts one behind them. Where growth is refused, the pair is
/// given back, and the allocation is as it was.
fn push_third<T: Drop>(rest: &mut Vec<T>, pair: Pair<T>, item: T) -> Result<(), Pair<T>>
    requires { rest.old.items ≡ [] }
    ensures ok { OnOk result (rest.new.items ≡ pair.first ∷ pair.second ∷ item ∷ []) }
    ensures back { IfErr result (λ back. back ≡ pair) }
    ensures err { OnErr result (rest.new.items ≡ []) }
    ensures room { OnErr result (vec_capacity rest.new ≡ vec_capacity rest.old) }
    ensures kept { vec_capacity rest.old ≤ vec_capacity rest.new }
    ensures reserved { 2 < vec_capacity rest.old → IsOk result }
{
    if rest.reserve(3).is_err() {
        return Err(pair);
    }
    let Pair { first, second } = pair;
    rest.push_reserved(first);
    rest.push_reserved(second);
    rest.push_reserved(item);
    Ok(())
}

impl<T> InlineVec<T> {
    /// An empty list.
    pub(crate) fn new(alloc: Global) -> Self
        ensures items { result.items ≡ [] }
        ensures room { result.room ≡ 0 }
    {
        InlineVec {
            front: Front::Empty,
            rest: Vec::new(alloc),
        }
    }

    /// An empty list with room for `capacity` items. `AllocError` where the room is refused; room for at most two is in
    /// the list itself, and isn't asked for.
    pub(crate) fn with_capacity(alloc: Global, capacity: usize) -> Result<Self, AllocError>
        ensures ok { IfOk result (λ list. list.items ≡ []) }
        ensures room { IfOk result (λ list.
            list.room ≡ (if nat_le capacity 2 then 0 else capacity)) }
        ensures inline { capacity ≤ 2 → IsOk result }
    {
        let rest = if capacity <= 2 {
            Vec::new(alloc)
        } else {
            Vec::with_capacity(alloc, capacity)?
        };
        Ok(InlineVec {
            front: Front::Empty,
            rest,
        })
    }

    /// The list of these items. Nothing is copied.
    pub(crate) fn from_vec(rest: Vec<T>) -> Self
        ensures items { result.items ≡ rest.items }
        ensures room { result.room ≡ vec_capacity rest }
    {
        InlineVec {
            front: Front::Empty,
            rest,
        }
    }

    /// Puts an item in the place of the last one.
    pub(crate) fn set_last(&mut self, item: T)
    where
        T: Copy,
        requires { 0 < length self.old.items }
        ensures items { self.new.items
            ≡ slice_set self.old.items (length self.old.items - 1) item }
        ensures room { self.new.room ≡ self.old.room }
    {
        match &mut self.front {
            Front::Empty => {
                let last = self.rest.len() - 1;
                self.rest[last] = item;
            }
            Front::One(only) => *only = item,
            Front::Two(pair) => pair.second = item,
        }
    }

    /// The items that it has in itself, and those in an allocation. Nothing is copied.
    pub(crate) fn into_parts(self) -> (Front<T>, Vec<T>)
        ensures { inline_items result.0 result.1.items ≡ self.items }
    {
        (self.front, self.rest)
    }

    /// How many items there are.
    pub(crate) fn len(&self) -> usize
        ensures { result ≡ length self.now.items }
    {
        match &self.front {
            Front::Empty => self.rest.len(),
            Front::One(_) => 1,
            Front::Two(_) => 2,
        }
    }

    /// The items.
    pub(crate) fn as_slice(&self) -> &[T]
        ensures { result.now ≡ self.now.items }
    {
        match &self.front {
            Front::Empty => self.rest.as_slice(),
            Front::One(item) => slice::from_ref(item),
            Front::Two(pair) => pair_items(pair),
        }
    }

    /// Puts an item last, as `push` does, and for all lists.
    #[inline(never)]
    fn push_any(&mut self, item: T) -> Result<(), AllocError>
    where
        T: Drop,
        ensures { IsPush T.row item self.old self.new result }
    {
        match mem::replace(&mut self.front, Front::Empty) {
            Front::Empty => {
                if self.rest.len() >= 2 || !two_fit(&item) {
                    return push_allocated(&mut self.rest, item);
                }
                let first = self.rest.pop();
                self.front = front_with(first, item);
            }
            Front::One(first) => self.front = front_with(Some(first), item),
            Front::Two(pair) => {
                if let Err(pair) = push_third(&mut self.rest, pair, item) {
                    self.front = Front::Two(pair);
                    return Err(AllocError);
                }
            }
        }
        Ok(())
    }

    /// Puts an item last. A refused growth leaves the list as it was. A list of at most two items then asks for none, and
    /// one that has room for the item neither.
    #[inline(always)]
    pub(crate) fn push(&mut self, item: T) -> Result<(), AllocError>
    where
        T: Drop,
        ensures { IsPush T.row item self.old self.new result }
    {
        // (a long list is the common case where this is called from loops)
        if self.rest.len() >= 2 {
            return push_allocated(&mut self.rest, item);
        }
        self.push_any(item)
    }
}
