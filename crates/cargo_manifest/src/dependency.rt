//! The dependencies of a package.

ghost use Rattle.std.specs.Prelude.{◌≡◌, ◌++◌, IfOk, OnOk, map, option_map};
ghost use Rattle.toml.specs.View.{view};
ghost use Rattle.cargo_manifest.specs.Dependencies.{default_features_of, dependency_features, dependency_path, dependency_version, dependency_view, dependencies_in, is_inherited, is_optional, package_of};
ghost use Rattle.cargo_manifest.specs.Values.{texts};

use crate::values::{bool_at, entries_at, is_true_at, string_at, strings_at};
use std::alloc::{AllocError, Global};
use toml::Value;

/// A dependency, as a manifest has it (The Cargo Book, "Specifying Dependencies").
#[derive(Clone, Copy)]
pub struct Dependency<'a> {
    name: &'a str,
    value: &'a Value,
    target: Option<&'a str>,
}

impl<'a> Dependency<'a> {
    /// Its name in the manifest, which the package's sources know it by.
    pub fn name(self) -> &'a str
        ensures { result.now ≡ (dependency_view self.entry).name }
    {
        self.name
    }

    /// The target that it's for, a triple or `cfg(..)`. None where it's for all.
    pub fn target(self) -> Option<&'a str>
        ensures { option_map (λ t. t.now) result ≡ (dependency_view self.entry).target }
    {
        self.target
    }

    /// The name of its package, which `package` says where it's another than its own.
    pub fn package(self) -> &'a str
        ensures { result.now ≡ package_of (dependency_view self.entry) }
    {
        string_at(self.value, "package").unwrap_or(self.name)
    }

    /// The path of its package, from the manifest's folder. None where it has none.
    pub fn path(self) -> Option<&'a str>
        ensures { option_map (λ t. t.now) result ≡ dependency_path (dependency_view self.entry) }
    {
        string_at(self.value, "path")
    }

    /// The versions that it may have, as they are written. None where any will do.
    pub fn version(self) -> Option<&'a str>
        ensures { option_map (λ t. t.now) result ≡ dependency_version (dependency_view self.entry) }
    {
        match self.value.as_str() {
            Some(version) => Some(version),
            None => string_at(self.value, "version"),
        }
    }

    /// Whether it's optional: a feature turns it on.
    pub fn is_optional(self) -> bool
        ensures { result ≡ is_optional (dependency_view self.entry) }
    {
        is_true_at(self.value, "optional")
    }

    /// What it says of its default features, in either spelling. None where it says nothing: they are asked for, unless the
    /// workspace, which it may be inherited from, says otherwise.
    pub fn default_features(self) -> Option<bool>
        ensures { result ≡ default_features_of (dependency_view self.entry) }
    {
        match bool_at(self.value, "default-features") {
            Some(uses) => Some(uses),
            None => bool_at(self.value, "default_features"),
        }
    }

    /// Whether the workspace says what it is: `workspace = true`.
    pub fn is_inherited(self) -> bool
        ensures { result ≡ is_inherited (dependency_view self.entry) }
    {
        is_true_at(self.value, "workspace")
    }

    /// The features that it's asked for. An error comes where a growth of memory was refused.
    pub fn features(self, alloc: Global) -> Result<Vec<&'a str>, AllocError>
        ensures { IfOk result (λ all. texts all.items ≡ dependency_features (dependency_view self.entry)) }
    {
        strings_at(alloc, self.value, "features")
    }
}

/// Puts the dependencies at a key of a table behind others.
pub(crate) fn put_dependencies<'a>(
    alloc: Global,
    all: &mut Vec<Dependency<'a>>,
    table: &'a Value,
    key: &str,
    target: Option<&'a str>,
) -> Result<(), AllocError>
    ensures { OnOk result (map dependency_view all.new.items ≡ map dependency_view all.old.items
        ++ dependencies_in key.now (option_map (λ t. t.now) target.entry) (view table.now)) }
{
    let entries = entries_at(alloc, table, key)?;
    for (name, value) in &entries {
        all.push(Dependency {
            name: *name,
            value: *value,
            target,
        })?;
    }
    Ok(())
}
