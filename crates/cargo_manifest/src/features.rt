//! The features of a package: what each turns on, and which are on.

ghost use Rattle.std.specs.Prelude.{◌≡◌, ◌↔◌, ◌++◌, IfErr, IfOk, OnOk, flat_map, map, option_map};
ghost use Rattle.cargo_manifest.specs.Dependencies.{dependency_view};
ghost use Rattle.cargo_manifest.specs.Enabled.{IsEnabled, IsIn, link_view};
ghost use Rattle.cargo_manifest.specs.Features.{IsUnknown, asked_features, asked_of, feature_links, feature_names, feature_of, first_other, implicit_features, implicit_link, is_switched, is_to, listed_links, named, optional_names, optional_of, turns_on, with_dependency};
ghost use Rattle.cargo_manifest.specs.Manifests.{data_of};
ghost use Rattle.cargo_manifest.specs.Switches.{switch_view};
ghost use Rattle.cargo_manifest.specs.Values.{Text, entry_view, texts};

use crate::dependency::Dependency;
use crate::enabled::{Link, enabled};
use crate::entry::{Switch, switch_said};
use crate::manifest::Manifest;
use crate::values::{is_one_of, strings};
use std::alloc::{AllocError, Global};
use toml::Value;

/// Which features of a package are asked for (The Cargo Book, "Features").
#[derive(Clone, Copy)]
pub struct FeatureRequest<'a> {
    /// Those that are named.
    pub names: &'a [&'a str],
    /// Whether `default` is, where there is one.
    pub with_default: bool,
    /// Whether all are.
    pub with_all: bool,
}

/// Why it isn't told which features are on.
#[derive(Clone, Copy, Debug)]
pub enum FeatureError<'a> {
    /// A growth of memory was refused.
    OutOfMemory,
    /// A feature is asked for, or is turned on by another one, that the package doesn't have.
    UnknownFeature(&'a str),
}

impl<'a> From<AllocError> for FeatureError<'a> {
    ghost use Rattle.std.specs.Prelude.{◌≡◌};
    ghost use Rattle.cargo_manifest.specs.declared.features.FeatureError.TheVariants.{OutOfMemory};

    ghost from_gives = { λ _ error. error ≡ OutOfMemory };

    fn from(_error: AllocError) -> Self {
        FeatureError::OutOfMemory
    }
}

/// The features of a package, and what each turns on.
#[derive(Drop)]
pub struct Features<'a> {
    names: Vec<&'a str>,
    links: Vec<Link<'a>>,
}

/// The names of optional dependencies.
fn optional_names<'a>(
    alloc: Global,
    dependencies: &[Dependency<'a>],
) -> Result<Vec<&'a str>, AllocError>
    ensures { IfOk result (λ all. texts all.items ≡ optional_names (map dependency_view dependencies.now)) }
{
    let mut all = Vec::new(alloc);
    for dependency in dependencies {
        if dependency.is_optional() {
            all.push(dependency.name())?;
        }
    }
    Ok(all)
}

/// The names of the optional dependencies of a package, and of its build script.
fn optional_of(alloc: Global, manifest: &Manifest) -> Result<Vec<&str>, AllocError>
    ensures { IfOk result (λ all. texts all.items ≡ optional_of (data_of manifest.now)) }
{
    let dependencies = manifest.dependencies(alloc)?;
    let own = optional_names(alloc, &dependencies)?;
    let dependencies = manifest.build_dependencies(alloc)?;
    let of_build = optional_names(alloc, &dependencies)?;
    joined(alloc, &own, &of_build)
}

/// Puts what the strings of an entry say that a feature turns on behind other links.
fn put_links<'a>(
    links: &mut Vec<Link<'a>>,
    feature: &'a str,
    said: &[&'a str],
) -> Result<(), AllocError>
    ensures { OnOk result (map link_view links.new.items ≡ map link_view links.old.items ++ named feature.now (texts said.now)) }
{
    for text in said {
        links.push(Link {
            feature,
            to: switch_said(text),
        })?;
    }
    Ok(())
}

/// What features that are written turn on, as it's written.
fn listed_links<'a>(
    alloc: Global,
    entries: &[(&'a str, &'a Value)],
) -> Result<Vec<Link<'a>>, AllocError>
    ensures { IfOk result (λ all. map link_view all.items ≡ listed_links (map entry_view entries.now)) }
{
    let mut links = Vec::new(alloc);
    for (feature, value) in entries {
        let said = strings(alloc, *value)?;
        put_links(&mut links, *feature, &said)?;
    }
    Ok(links)
}

/// Whether a feature turns a dependency on by `dep:` and its name.
fn is_switched(links: &[Link<'_>], name: &str) -> bool
    ensures { result ≡ is_switched (map link_view links.now) name.now }
{
    for link in links {
        if let Switch::Dependency(other) = link.to {
            if other == name {
                return true;
            }
        }
    }
    false
}

/// Puts the names of optional dependencies that are features, too, behind others: no feature has that name, and none turns the
/// dependency on by `dep:`.
fn put_implicit<'a>(
    names: &mut Vec<&'a str>,
    optional: &[&'a str],
    explicit: &[&'a str],
    links: &[Link<'a>],
) -> Result<(), AllocError>
    ensures { OnOk result (texts names.new.items ≡ texts names.old.items
        ++ implicit_features (texts optional.now) (texts explicit.now) (map link_view links.now)) }
{
    for name in optional {
        if !is_one_of(explicit, name) && !is_switched(links, name) {
            names.push(*name)?;
        }
    }
    Ok(())
}

/// Puts what a feature turns on behind others: what is written, and with a feature of an optional dependency that dependency
/// and the feature of its name, where there is one.
fn put_with_dependency<'a>(
    links: &mut Vec<Link<'a>>,
    link: Link<'a>,
    optional: &[&str],
    names: &[&str],
) -> Result<(), AllocError>
    ensures { OnOk result (map link_view links.new.items ≡ map link_view links.old.items
        ++ with_dependency (texts optional.now) (texts names.now) (link_view link.entry)) }
{
    links.push(link)?;
    let Switch::DependencyFeature(name, _) = link.to else {
        return Ok(());
    };
    if !is_one_of(optional, name) {
        return Ok(());
    }
    let feature = link.feature;
    links.push(Link {
        feature,
        to: Switch::Dependency(name),
    })?;
    if is_one_of(names, name) {
        links.push(Link {
            feature,
            to: Switch::Feature(name),
        })?;
    }
    Ok(())
}

/// What features that are written turn on, with what comes with that.
fn all_links<'a>(
    alloc: Global,
    listed: &[Link<'a>],
    optional: &[&str],
    names: &[&str],
) -> Result<Vec<Link<'a>>, AllocError>
    ensures { IfOk result (λ all. map link_view all.items
        ≡ flat_map (with_dependency (texts optional.now) (texts names.now)) (map link_view listed.now)) }
{
    let mut links = Vec::with_capacity(alloc, listed.len())?;
    for link in listed {
        put_with_dependency(&mut links, *link, optional, names)?;
    }
    Ok(links)
}

/// Puts the links of features that are optional dependencies behind others: each turns that dependency on.
fn put_implicit_links<'a>(links: &mut Vec<Link<'a>>, implicit: &[&'a str]) -> Result<(), AllocError>
    ensures { OnOk result (map link_view links.new.items ≡ map link_view links.old.items
        ++ map implicit_link (texts implicit.now)) }
{
    for name in implicit {
        links.push(Link {
            feature: *name,
            to: Switch::Dependency(name),
        })?;
    }
    Ok(())
}

/// The names of entries.
fn entry_names<'a>(
    alloc: Global,
    entries: &[(&'a str, &'a Value)],
) -> Result<Vec<&'a str>, AllocError>
    ensures { IfOk result (λ all. texts all.items ≡ map (λ e. e.0) (map entry_view entries.now)) }
{
    let mut all = Vec::with_capacity(alloc, entries.len())?;
    for (name, _value) in entries {
        all.push(*name)?;
    }
    Ok(all)
}

impl<'a> Features<'a> {
    /// The features of a package. An error comes where a growth of memory was refused.
    pub fn new(alloc: Global, manifest: &'a Manifest) -> Result<Features<'a>, AllocError>
        ensures names { IfOk result (λ features. texts features.names.items ≡ feature_names (data_of manifest.now)) }
        ensures links { IfOk result (λ features. map link_view features.links.items ≡ feature_links (data_of manifest.now)) }
    {
        let optional = optional_of(alloc, manifest)?;
        let entries = manifest.feature_entries(alloc)?;
        let explicit = entry_names(alloc, &entries)?;
        let listed = listed_links(alloc, &entries)?;
        let mut implicit = Vec::new(alloc);
        put_implicit(&mut implicit, &optional, &explicit, &listed)?;
        let names = joined(alloc, &explicit, &implicit)?;
        let mut links = all_links(alloc, &listed, &optional, &names)?;
        put_implicit_links(&mut links, &implicit)?;
        Ok(Features { names, links })
    }

    /// The names of the features: those that are written, in the order of their names, and optional dependencies that are
    /// features, too.
    pub fn names(&self) -> &[&'a str]
        ensures { texts result.now ≡ texts self.now.names.items }
    {
        &self.names
    }

    /// What the features turn on.
    pub fn links(&self) -> &[Link<'a>]
        ensures { result.now ≡ self.now.links.items }
    {
        &self.links
    }

    /// The features that are asked for, by their names, with `default`, where it's asked for and there, or with all.
    fn requested_names(
        &self,
        alloc: Global,
        request: FeatureRequest<'a>,
    ) -> Result<Vec<&'a str>, AllocError>
        ensures { IfOk result (λ all. texts all.items ≡ asked_features request.entry (texts self.now.names.items)) }
    {
        if request.with_all {
            return joined(alloc, request.names, &self.names);
        }
        let mut all = joined(alloc, request.names, &[])?;
        if request.with_default && is_one_of(&self.names, "default") {
            all.push("default")?;
        }
        Ok(all)
    }

    /// The features that are on: those asked for, and those that these turn on, in the order in which that's found. A feature
    /// that's asked for or turned on, and that the package doesn't have, is `UnknownFeature`.
    pub fn enabled(
        &self,
        alloc: Global,
        request: FeatureRequest<'a>,
    ) -> Result<Vec<&'a str>, FeatureError<'a>>
        ensures enabled { IfOk result (λ on. (name : Text) → IsIn (texts on.items) name
            ↔ IsEnabled (map link_view self.now.links.items) (asked_features request.entry (texts self.now.names.items)) name) }
        ensures known { IfOk result (λ on. (name : Text) → IsIn (texts on.items) name → IsIn (texts self.now.names.items) name) }
        ensures unknown { IfErr result (IsUnknown (map link_view self.now.links.items)
            (asked_features request.entry (texts self.now.names.items)) (texts self.now.names.items)) }
    {
        let asked = self.requested_names(alloc, request)?;
        let on = enabled(alloc, &self.links, asked)?;
        match first_other(&on, &self.names) {
            Some(name) => Err(FeatureError::UnknownFeature(name)),
            None => Ok(on),
        }
    }

    /// Whether one of these features turns a dependency on that is optional.
    pub fn turns_on(&self, on: &[&str], dependency: &str) -> bool
        ensures { result ≡ turns_on (map link_view self.now.links.items) (texts on.now) dependency.now }
    {
        for link in &self.links {
            if is_to(link.to, dependency) && is_one_of(on, link.feature) {
                return true;
            }
        }
        false
    }

    /// The features that these ask for of a dependency, which is on. An error comes where a growth of memory was refused.
    pub fn asked_of(
        &self,
        alloc: Global,
        on: &[&str],
        dependency: &str,
    ) -> Result<Vec<&'a str>, AllocError>
        ensures { IfOk result (λ all. texts all.items ≡ asked_of (map link_view self.now.links.items) (texts on.now) dependency.now) }
    {
        let mut all = Vec::new(alloc);
        for link in &self.links {
            if let Some(feature) = feature_of(link.to, dependency) {
                if is_one_of(on, link.feature) {
                    all.push(feature)?;
                }
            }
        }
        Ok(all)
    }
}

/// Texts, and others behind them.
fn joined<'a>(alloc: Global, some: &[&'a str], more: &[&'a str]) -> Result<Vec<&'a str>, AllocError>
    ensures { IfOk result (λ all. texts all.items ≡ texts some.now ++ texts more.now) }
{
    let mut all = Vec::with_capacity(alloc, some.len())?;
    for text in some {
        all.push(*text)?;
    }
    for text in more {
        all.push(*text)?;
    }
    Ok(all)
}

/// The first of some texts that isn't among others. None where each is.
fn first_other<'a>(some: &[&'a str], others: &[&str]) -> Option<&'a str>
    ensures { option_map (λ t. t.now) result ≡ first_other (texts some.now) (texts others.now) }
{
    for text in some {
        if !is_one_of(others, text) {
            return Some(*text);
        }
    }
    None
}

/// Whether that is a dependency of this name.
fn is_to(to: Switch<'_>, name: &str) -> bool
    ensures { result ≡ is_to name.now (switch_view to.entry) }
{
    match to {
        Switch::Dependency(other) => other == name,
        _ => false,
    }
}

/// The feature that is asked for of a dependency. None where it's of another one.
fn feature_of<'a>(to: Switch<'a>, name: &str) -> Option<&'a str>
    ensures { option_map (λ t. t.now) result ≡ feature_of name.now (switch_view to.entry) }
{
    match to {
        Switch::DependencyFeature(other, feature) | Switch::WeakFeature(other, feature) => {
            if other == name { Some(feature) } else { None }
        }
        _ => None,
    }
}
