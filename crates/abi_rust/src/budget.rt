//! What work at a type knows and asks for.

ghost use Rattle.std.specs.Prelude.{◌≡◌, ◌+◌, ℕ, true, IfErr, IfOk, OnOk, Some, None, [], ◌∷◌, ◌++◌, map, if◌then◌else◌};
ghost use Rattle.indexmap.specs.IndexMap.{get};
ghost use Rattle.abi_rust.specs.Known.{is_for, is_same_item, known_at, stands_in};
ghost use Rattle.abi_rust.specs.Meaning.{Means, is_beside};
ghost use Rattle.abi_rust.specs.Resolving.{inside_of, most_deep};
ghost use Rattle.abi_rust.specs.Scope.{same_key};
ghost use Rattle.abi_rust.specs.Types.{all_given, given_of, ty_of, where_of};

use crate::fault::{FaultKind, Stop};
use crate::scope::Scope;
use crate::ty::{ConstValue, GenericArg, Ty, same_givens};
use abi_base::TargetDataLayout;
use indexmap::IndexMap;
use rust_source::{Item, Items, Place, Symbol, Type};
use std::alloc::Global;

/// How deep types and constants may need one another: 200 types at least, each of which is looked at twice, as a type and as
/// an item, beside the first and the last.
const MOST_DEEP: u32 = 402;

/// How many parts of types, constants and trees are looked at for one type: twenty structs, each of which has the one before
/// twice, have a million, and are to be a fault at once.
pub(crate) const MOST_PARTS: u32 = 1 << 19;

/// How many of them the call of a function, or a `let`, counts as.
const PARTS_OF_A_CALL: u32 = 32;

/// What all work rests on.
#[derive(Clone, Copy)]
pub(crate) struct Context<'a, 'k> {
    pub(crate) alloc: Global,
    pub(crate) items: &'a Items,
    pub(crate) scope: &'a Scope,
    pub(crate) dl: &'a TargetDataLayout,
    /// How many bits a pointer has.
    pub(crate) pointer_bits: u32,
    /// The sizes that are known.
    pub(crate) known: &'k [KnownSize<'a>],
}

/// A `let` whose value is known.
#[derive(Clone, Copy)]
pub(crate) struct Local {
    pub(crate) name: Symbol,
    pub(crate) value: ConstValue,
}

/// Where a type or an expression stands, and how deep it may need others.
#[derive(Clone, Copy)]
pub(crate) struct Env<'g> {
    /// The module.
    pub(crate) module: u32,
    /// The item whose parameters it may name.
    pub(crate) item: Option<u32>,
    /// What they are given.
    pub(crate) given: &'g [GenericArg],
    /// The `let`s before it in the blocks around it, the last first.
    pub(crate) locals: &'g [Local],
    /// How deep what stands here may need other types and constants.
    pub(crate) depth_left: u32,
}

impl<'g> Env<'g> {
    /// The same place, for what is needed there: one less deep. `TooDeep` where no depth is left.
    pub(crate) fn deeper(self) -> Result<Env<'g>, Stop>
        ensures place { IfOk result (λ env. where_of env ≡ where_of self.entry) }
        ensures depth { IfOk result (λ env. env.depth_left + 1 ≡ self.entry.depth_left) }
        ensures err { IfErr result
            (λ e. (self.entry.depth_left ≡ 0) × (e ≡ Stop.Fault None FaultKind.TooDeep)) }
    {
        let depth_left = less(self.depth_left)?;
        Ok(Env { depth_left, ..self })
    }

    /// The same place, with all depth left.
    pub(crate) fn with_all_depth(self) -> Env<'g>
        ensures place { where_of result ≡ where_of self.entry }
        ensures depth { result.depth_left ≡ most_deep }
    {
        Env {
            depth_left: most_deep(),
            ..self
        }
    }
}

/// An item under what its parameters are given.
#[derive(Clone, Copy)]
pub(crate) struct Instance<'a, 'g> {
    pub(crate) number: u32,
    pub(crate) item: &'a Item,
    pub(crate) given: &'g [GenericArg],
}

impl<'g> Instance<'_, 'g> {
    /// Where its parts stand. All depth is left.
    pub(crate) fn inside(self) -> Env<'g>
        ensures place { where_of result ≡ inside_of self.entry }
        ensures depth { result.depth_left ≡ most_deep }
    {
        Env {
            module: self.item.module,
            item: Some(self.number),
            given: self.given,
            locals: &[],
            depth_left: most_deep(),
        }
    }
}

/// A call that asks for the size or the alignment of a type: where it stands, and the type that it names there.
#[derive(Drop)]
pub(crate) struct Request<'a> {
    pub(crate) at: Place,
    pub(crate) ty: &'a Type,
    pub(crate) module: u32,
    pub(crate) item: Option<u32>,
    pub(crate) given: Vec<GenericArg>,
}

/// A size that is known.
#[derive(Drop)]
pub(crate) struct KnownSize<'a> {
    /// The call that asks for it.
    pub(crate) asked: Request<'a>,
    /// The type's size and alignment, in bytes, or why it has none.
    pub(crate) found: Result<(u64, u64), Stop>,
}

/// What work has spent, and what it has to know first.
#[derive(Drop)]
pub(crate) struct Budget<'a> {
    /// How many parts may still be looked at.
    left: u32,
    /// The size that has to be known.
    pub(crate) wanted: Option<Request<'a>>,
    /// Values of constants, by the constants' numbers and how deep these may need others.
    pub(crate) values: IndexMap<(u32, u32), ConstValue>,
}

impl<'a> Budget<'a> {
    /// Work that has spent nothing.
    pub(crate) fn new(alloc: Global) -> Budget<'a> {
        Budget {
            left: MOST_PARTS,
            wanted: None,
            values: IndexMap::new(alloc),
        }
    }

    /// Looks at one more part.
    pub(crate) fn spend(&mut self) -> Result<(), Stop>
        ensures err { IfErr result (λ e. is_beside e ≡ true) }
        ensures values { self.new.values ≡ self.old.values }
    {
        match self.left.checked_sub(1) {
            Some(left) => {
                self.left = left;
                Ok(())
            }
            None => Err(Stop::Fault(None, FaultKind::TooLarge)),
        }
    }

    /// Calls a function, or goes on behind a `let`, which counts as many parts, since names are looked for in what follows.
    pub(crate) fn spend_call(&mut self) -> Result<(), Stop>
        ensures err { IfErr result (λ e. is_beside e ≡ true) }
        ensures values { self.new.values ≡ self.old.values }
    {
        match self.left.checked_sub(PARTS_OF_A_CALL) {
            Some(left) => {
                self.left = left;
                Ok(())
            }
            None => Err(Stop::Fault(None, FaultKind::TooLarge)),
        }
    }

    /// Forgets the values of constants.
    pub(crate) fn forget_values(&mut self)
        ensures { (k : ℕ × ℕ) → get same_key self.new.values k ≡ None }
    {
        self.values.clear();
    }

    /// The value that is kept of a constant which may need others so deep.
    pub(crate) fn value_kept(&self, constant: u32, depth_left: u32) -> Option<ConstValue>
        ensures { result ≡ get same_key self.now.values (constant, depth_left) }
    {
        self.values.get(&(constant, depth_left)).copied()
    }

    /// Keeps the value of a constant which may need others so deep.
    pub(crate) fn keep_value(
        &mut self,
        constant: u32,
        depth_left: u32,
        value: ConstValue,
    ) -> Result<(), Stop>
        ensures ok { IfOk result (λ _. (k : ℕ × ℕ) → get same_key self.new.values k
            ≡ (if same_key (constant, depth_left) k then Some value else get same_key self.old.values k)) }
        ensures err { IfErr result (λ e. is_beside e ≡ true) }
    {
        let _ = self.values.insert((constant, depth_left), value)?;
        Ok(())
    }
}

/// What is known of the size and the alignment that a call at a place asks for.
pub(crate) fn size_at(
    known: &[KnownSize<'_>],
    at: Place,
    env: Env<'_>,
    ty: &Type,
) -> Option<Result<(u64, u64), Stop>>
    ensures { result ≡ known_at known.now at (where_of env.entry) ty.now }
{
    for one in known {
        if is_for(&one.asked, at, env, ty) {
            return Some(one.found);
        }
    }
    None
}

/// Whether a request is that of the call at a place, which names a type where it stands.
fn is_for(asked: &Request<'_>, at: Place, env: Env<'_>, ty: &Type) -> bool
    ensures { result ≡ is_for asked.now at (where_of env.entry) ty.now }
{
    asked.at.0 == at.0 && (stands_in(asked, env) && *asked.ty == *ty)
}

/// Whether the call of a request stands in a setting.
fn stands_in(asked: &Request<'_>, env: Env<'_>) -> bool
    ensures { result ≡ stands_in asked.now (where_of env.entry) }
{
    asked.module == env.module
        && (is_same_item(asked.item, env.item) && same_givens(asked.given.as_slice(), env.given))
}

/// Whether two items, or none, are one.
fn is_same_item(a: Option<u32>, b: Option<u32>) -> bool
    ensures { result ≡ is_same_item a b }
{
    match (a, b) {
        (Some(a), Some(b)) => a == b,
        (None, None) => true,
        _ => false,
    }
}

/// How deep types and constants may need one another.
#[tactic(auto, unfolding(crate::specs::Resolving::most_deep))]
pub(crate) fn most_deep() -> u32
    ensures { result ≡ most_deep }
{
    MOST_DEEP
}

/// One less room, or a fault where there is none.
pub(crate) fn less(depth_left: u32) -> Result<u32, Stop>
    ensures ok { IfOk result (λ rest. rest + 1 ≡ depth_left) }
    ensures err { IfErr result (λ e. (depth_left ≡ 0) × (e ≡ Stop.Fault None FaultKind.TooDeep)) }
{
    match depth_left.checked_sub(1) {
        Some(depth_left) => Ok(depth_left),
        None => Err(Stop::Fault(None, FaultKind::TooDeep)),
    }
}

/// A copy of a type.
#[cycle(copying)]
pub(crate) fn copy_of(alloc: Global, budget: &mut Budget<'_>, ty: &Ty) -> Result<Ty, Stop>
    ensures ok { IfOk result (λ copy. ty_of copy ≡ ty_of ty.now) }
    ensures err { IfErr result (λ e. is_beside e ≡ true) }
{
    budget.spend()?;
    match ty {
        Ty::Never => Ok(Ty::Never),
        Ty::Primitive(primitive) => Ok(Ty::Primitive(*primitive)),
        Ty::Function => Ok(Ty::Function),
        Ty::Dyn => Ok(Ty::Dyn),
        Ty::Tuple(parts) => Ok(Ty::Tuple(tys_copied(alloc, budget, parts)?)),
        Ty::Array(element, count) => {
            let element = copy_of(alloc, budget, element)?;
            Ok(Ty::Array(Box::new(alloc, element)?, *count))
        }
        Ty::Slice(element) => {
            let element = copy_of(alloc, budget, element)?;
            Ok(Ty::Slice(Box::new(alloc, element)?))
        }
        Ty::Reference(is_mutable, pointee) => {
            let pointee = copy_of(alloc, budget, pointee)?;
            Ok(Ty::Reference(*is_mutable, Box::new(alloc, pointee)?))
        }
        Ty::Pointer(pointee) => {
            let pointee = copy_of(alloc, budget, pointee)?;
            Ok(Ty::Pointer(Box::new(alloc, pointee)?))
        }
        Ty::Adt(item, given) => Ok(Ty::Adt(*item, copies_of(alloc, budget, given)?)),
    }
}

/// Puts a type behind the others.
pub(crate) fn push_ty(all: &mut Vec<Ty>, one: Ty) -> Result<(), Stop>
    ensures ok { OnOk result (map ty_of all.new.items ≡ map ty_of all.old.items ++ ty_of one ∷ []) }
    ensures err { IfErr result (λ e. is_beside e ≡ true) }
{
    all.push(one)?;
    Ok(())
}

/// Puts what a parameter is given behind what the others are.
pub(crate) fn push_given(all: &mut Vec<GenericArg>, one: GenericArg) -> Result<(), Stop>
    ensures ok { OnOk result (all_given all.new.items ≡ all_given all.old.items ++ given_of one ∷ []) }
    ensures err { IfErr result (λ e. is_beside e ≡ true) }
{
    all.push(one)?;
    Ok(())
}

/// Copies of types.
#[cycle(copying)]
#[tactic(auto, using(crate::proofs::Copies::tys_more, crate::proofs::Copies::tys_all))]
fn tys_copied(alloc: Global, budget: &mut Budget<'_>, parts: &[Ty]) -> Result<Vec<Ty>, Stop>
    ensures ok { IfOk result (λ copies. map ty_of copies.items ≡ map ty_of parts.now) }
    ensures err { IfErr result (λ e. is_beside e ≡ true) }
{
    let mut copies = Vec::new(alloc);
    for part in parts {
        let copy = copy_of(alloc, budget, part)?;
        push_ty(&mut copies, copy)?;
    }
    Ok(copies)
}

/// A copy of what a parameter is given.
#[cycle(copying)]
fn given_copied(
    alloc: Global,
    budget: &mut Budget<'_>,
    given: &GenericArg,
) -> Result<GenericArg, Stop>
    ensures ok { IfOk result (λ copy. given_of copy ≡ given_of given.now) }
    ensures err { IfErr result (λ e. is_beside e ≡ true) }
{
    match given {
        GenericArg::Type(ty) => Ok(GenericArg::Type(copy_of(alloc, budget, ty)?)),
        GenericArg::Value(value) => Ok(GenericArg::Value(*value)),
    }
}

/// Copies of what parameters are given.
#[cycle(copying)]
#[tactic(auto, using(crate::proofs::Copies::given_more, crate::proofs::Copies::given_all))]
pub(crate) fn copies_of(
    alloc: Global,
    budget: &mut Budget<'_>,
    given: &[GenericArg],
) -> Result<Vec<GenericArg>, Stop>
    ensures ok { IfOk result (λ copies. all_given copies.items ≡ all_given given.now) }
    ensures err { IfErr result (λ e. is_beside e ≡ true) }
{
    let mut copies = Vec::new(alloc);
    for one in given {
        let copy = given_copied(alloc, budget, one)?;
        push_given(&mut copies, copy)?;
    }
    Ok(copies)
}
