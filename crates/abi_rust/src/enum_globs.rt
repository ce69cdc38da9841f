//! Enums whose variants globs bring in.

ghost use Rattle.std.specs.Prelude.{◌≡◌, ℕ, IfErr, IfOk, None, Some, nat_eq, if◌then◌else◌};
ghost use Rattle.indexmap.specs.IndexMap.{get};
ghost use Rattle.abi_rust.specs.EnumGlobs.{both, enum_brought, enum_of_use};
ghost use Rattle.abi_rust.specs.Standing.{IsMemory};

use crate::fault::Stop;
use crate::paths::{Resolution, Space};
use crate::standing::{SEVERAL, numbered};
use crate::use_targets::{UseTarget, target_in};
use indexmap::IndexMap;
use rust_source::{Items, Use};

/// The item whose variants the use of this number brings in, if it is a glob of one.
fn enum_of_use(targets: &[UseTarget], number: u32, used: &Use) -> Option<u32>
    ensures { result ≡ enum_of_use targets.now number used.now }
{
    if !used.is_glob {
        return None;
    }
    match target_in(targets, number, Space::Types) {
        Some(Resolution::Item(item)) => Some(item),
        _ => None,
    }
}

/// The one that is known and this one, of which several can't be told apart.
fn joined(known: Option<u32>, item: u32) -> u32
    ensures { Some result ≡ both known (Some item) }
{
    match known {
        Some(known) => { if known == item { known } else { SEVERAL } }
        None => item,
    }
}

/// Adds the item whose variants a use brings into its module, if it does.
fn add_enum(globs: &mut IndexMap<u32, u32>, module: u32, item: Option<u32>) -> Result<(), Stop>
    ensures ok { IfOk result (λ _. (m : ℕ) →
        get nat_eq globs.new m ≡ both (get nat_eq globs.old m) (if nat_eq «module» m then item else None)) }
    ensures err { IfErr result IsMemory }
{
    if let Some(item) = item {
        let known = globs.get(&module).copied();
        let _ = globs.insert(module, joined(known, item))?;
    }
    Ok(())
}

/// Adds for each module the enum whose variants its globs bring in.
pub(crate) fn add_enum_globs(
    globs: &mut IndexMap<u32, u32>,
    items: &Items,
    targets: &[UseTarget],
) -> Result<(), Stop>
    requires { (m : ℕ) → get nat_eq globs.old m ≡ None }
    ensures ok { IfOk result (λ _. (m : ℕ) → get nat_eq globs.new m ≡ enum_brought items.now targets.now m) }
    ensures err { IfErr result IsMemory }
{
    for (number, used) in items.uses.iter().enumerate() {
        let item = enum_of_use(targets, numbered(number), used);
        add_enum(globs, used.module, item)?;
    }
    Ok(())
}
