//! Names that stand twice in a list.

ghost use Rattle.std.specs.Prelude.{◌≡◌, ◌==◌, ◌∷◌, ◌++◌, [], map, Ok, Err, if◌then◌else◌};
ghost use Rattle.std.specs.List.{list_any};
ghost use Rattle.rust_source.specs.Items.{field_of, parameter_of, variant_as_read};
ghost use Rattle.rust_source.specs.Reading.{Reads};
ghost use Rattle.rust_source.specs.Repeated.{field_names, met, none_twice, parameter_names, variant_names};
ghost use Rattle.rust_source.specs.Tokens.{Yields};

use crate::fault::{SourceFault, SourceFaultKind};
use crate::item::{Field, FieldName, Parameter, Variant};
use crate::place::{Place, Symbol};
use indexmap::IndexSet;
use std::alloc::Global;

/// Puts a name behind those that were met; a fault at its place where it was met before.
fn meet(seen: &mut IndexSet<u32>, name: Symbol, at: Place) -> Result<(), SourceFault>
    ensures { Reads (λ done. done) (met seen.old.keys (name.0, at)) seen.new.keys result }
{
    if seen.insert(name.0)? {
        Ok(())
    } else {
        Err(SourceFault {
            at,
            kind: SourceFaultKind::RepeatedName,
        })
    }
}

/// A fault at the first field that has the name of one before it.
pub(crate) fn refuse_repeated_fields(alloc: Global, all: &[Field]) -> Result<(), SourceFault>
    ensures { Yields (λ done. done) (none_twice (field_names (map field_of all.now))) result }
{
    let mut seen = IndexSet::new(alloc);
    for field in all {
        if let FieldName::Named(name) = field.name {
            meet(&mut seen, name, field.at)?;
        }
    }
    Ok(())
}

/// A fault at the first variant that has the name of one before it.
pub(crate) fn refuse_repeated_variants(alloc: Global, all: &[Variant]) -> Result<(), SourceFault>
    ensures { Yields (λ done. done)
        (none_twice (variant_names (map variant_as_read all.now))) result }
{
    let mut seen = IndexSet::new(alloc);
    for variant in all {
        meet(&mut seen, variant.name, variant.at)?;
    }
    Ok(())
}

/// A fault at the first parameter that has the name of one before it.
pub(crate) fn refuse_repeated_parameters(
    alloc: Global,
    all: &[Parameter],
) -> Result<(), SourceFault>
    ensures { Yields (λ done. done)
        (none_twice (parameter_names (map parameter_of all.now))) result }
{
    let mut seen = IndexSet::new(alloc);
    for parameter in all {
        meet(&mut seen, parameter.name, parameter.at)?;
    }
    Ok(())
}
