//! The names that crates have for others.

ghost use Rattle.std.specs.Prelude.{◌≡◌, ℕ, IfErr, IfOk, None, Some, if◌then◌else◌};
ghost use Rattle.indexmap.specs.IndexMap.{get};
ghost use Rattle.abi_rust.specs.Scope.{same_key};
ghost use Rattle.abi_rust.specs.ExternCrates.{crate_at, is_crate_at};
ghost use Rattle.abi_rust.specs.Standing.{IsMemory};

use crate::fault::Stop;
use crate::standing::{Key, key};
use indexmap::IndexMap;
use rust_source::Symbol;

/// A name that a crate has for another one, as for a dependency (Rust Reference, "Extern prelude").
#[derive(Clone, Copy)]
pub(crate) struct ExternCrate {
    /// The root module of the crate that has the name.
    pub(crate) inside: u32,
    pub(crate) name: Symbol,
    /// The root module of the crate that it names.
    pub(crate) root: u32,
}

/// Adds a name of a crate.
fn add_extern_crate(crates: &mut IndexMap<Key, u32>, named: ExternCrate) -> Result<(), Stop>
    ensures ok { IfOk result (λ _. (k : ℕ × ℕ) → get same_key crates.new k
        ≡ (if is_crate_at k named then Some named.root else get same_key crates.old k)) }
    ensures err { IfErr result IsMemory }
{
    let _ = crates.insert(key(named.inside, named.name), named.root)?;
    Ok(())
}

/// Adds the names of crates, of two of one name the last.
pub(crate) fn add_extern_crates(
    crates: &mut IndexMap<Key, u32>,
    all: &[ExternCrate],
) -> Result<(), Stop>
    requires { (k : ℕ × ℕ) → get same_key crates.old k ≡ None }
    ensures ok { IfOk result (λ _. (k : ℕ × ℕ) → get same_key crates.new k ≡ crate_at all.now k) }
    ensures err { IfErr result IsMemory }
{
    for named in all {
        add_extern_crate(crates, *named)?;
    }
    Ok(())
}
