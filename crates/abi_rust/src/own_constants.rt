//! Constants of types.

ghost use Rattle.std.specs.Prelude.{◌≡◌, ℕ, IfErr, IfOk, None, Some, nat_eq, if◌then◌else◌};
ghost use Rattle.std.specs.Option.{option_or};
ghost use Rattle.indexmap.specs.IndexMap.{get};
ghost use Rattle.abi_rust.specs.OwnConstants.{is_own, own_at, own_type, type_owning};
ghost use Rattle.abi_rust.specs.Scope.{same_key};
ghost use Rattle.abi_rust.specs.Standing.{IsMemory};

use crate::fault::Stop;
use crate::paths::type_named;
use crate::scope::Scope;
use crate::standing::{Key, numbered};
use indexmap::IndexMap;
use rust_source::{Item, ItemKind, Items, Symbol};

/// The type without parameters whose own an item is, where it is a constant of one.
#[tactic(auto, unfolding(crate::specs::OwnConstants::own_type_by))]
fn own_type(items: &Items, scope: &Scope, item: &Item) -> Option<u32>
    ensures { result ≡ own_type items.now scope.now item.now }
{
    let ItemKind::Const(constant) = &item.kind else {
        return None;
    };
    let path = items.owners.get(constant.owner? as usize)?;
    let owner = type_named(items, scope, item.module, path, path.segments.len())?;
    if items.items.get(owner as usize)?.parameters.is_empty() {
        Some(owner)
    } else {
        None
    }
}

/// Adds a constant of a type, if it is one's: of two of one name the first.
fn add_own(
    owners: &mut IndexMap<u32, u32>,
    own: &mut IndexMap<Key, u32>,
    number: u32,
    owner: Option<u32>,
    name: Symbol,
) -> Result<(), Stop>
    ensures owners { IfOk result (λ _. (n : ℕ) → get nat_eq owners.new n
        ≡ option_or (if nat_eq number n then owner else None) (get nat_eq owners.old n)) }
    ensures own { IfOk result (λ _. (k : ℕ × ℕ) → get same_key own.new k
        ≡ option_or (get same_key own.old k) (if is_own k owner name then Some number else None)) }
    ensures err { IfErr result IsMemory }
{
    if let Some(owner) = owner {
        let key = (owner, name.0);
        let _ = owners.insert(number, owner)?;
        if own.get(&key).is_none() {
            let _ = own.insert(key, number)?;
        }
    }
    Ok(())
}

/// Adds the constants of types, of two of one name the first. A type with parameters has none here, since what they are
/// may depend on what those are given.
pub(crate) fn add_own_constants(
    owners: &mut IndexMap<u32, u32>,
    own: &mut IndexMap<Key, u32>,
    items: &Items,
    scope: &Scope,
) -> Result<(), Stop>
    requires owners { (n : ℕ) → get nat_eq owners.old n ≡ None }
    requires own { (k : ℕ × ℕ) → get same_key own.old k ≡ None }
    ensures owners { IfOk result (λ _. (n : ℕ) →
        get nat_eq owners.new n ≡ type_owning items.now scope.now n) }
    ensures own { IfOk result (λ _. (k : ℕ × ℕ) →
        get same_key own.new k ≡ own_at items.now scope.now k) }
    ensures err { IfErr result IsMemory }
{
    for (number, item) in items.items.iter().enumerate() {
        let owner = own_type(items, scope, item);
        add_own(owners, own, numbered(number), owner, item.name)?;
    }
    Ok(())
}
