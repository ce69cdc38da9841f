//! For which targets the tables below `[target]` of a manifest are (The Cargo Book, "Platform specific dependencies").

use abi_rust::Target;
use rust_source::{
    CfgTarget, Items, Names, Place, Source, SourceFaultKind, SourceRoot, Symbol, read_items,
};
use std::alloc::{AllocError, Global};

/// The features that `cfg` knows there: none is on.
const NO_FEATURES: &[&str] = &[""];

/// Whether a predicate, as `cfg(unix)`, holds of a target; one that can't be read doesn't.
fn holds(alloc: Global, target: &CfgTarget<'_>, predicate: &str) -> Result<bool, AllocError> {
    let text = format!(in alloc; "#[{predicate}] struct Held;")?;
    let mut names = Names::new(alloc)?;
    let mut items = Items::new(alloc);
    let source = Source {
        text: text.as_str(),
        start: Place(0),
        root: SourceRoot::New(Symbol::CRATE),
        is_trusted: false,
    };
    match read_items(alloc, target, &mut names, &mut items, source) {
        Ok(_) => Ok(items.items.len() == 1),
        Err(fault) => if fault.kind == SourceFaultKind::OutOfMemory {
            Err(AllocError)
        } else {
            Ok(false)
        },
    }
}

/// Whether a table is for a target: it has the target's name, or a `cfg` that holds.
pub(crate) fn is_table_of(alloc: Global, target: &Target, table: &str) -> Result<bool, AllocError> {
    let is_predicate = table.starts_with("cfg(") && table.ends_with(')') && !table.contains(']');
    if !is_predicate {
        return Ok(table == target.triple);
    }
    let target = CfgTarget {
        crate_features: NO_FEATURES,
        ..target.cfg
    };
    holds(alloc, &target, table)
}
