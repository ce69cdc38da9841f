//! What a package asks of those that it depends on.

use crate::cargo::ManifestFile;
use crate::target_tables::is_table_of;
use abi_rust::Target;
use cargo_manifest::{Dependency, FeatureError, FeatureRequest, Features};
use std::alloc::{AllocError, Global};

/// Where a package is looked for that another one depends on.
#[derive(Drop)]
pub(crate) enum PackagePlace {
    /// Its manifest is at this path.
    Path(String),
    /// It is among the vendored packages, with one of these versions.
    Vendored(String),
    /// The workspace, which should say so, doesn't.
    Unsaid,
}

/// A dependency of a package, and what is asked of it.
#[derive(Drop)]
pub(crate) struct DependencyRequest {
    /// Its name in the manifest.
    pub(crate) name: String,
    /// The name of its package.
    pub(crate) package: String,
    pub(crate) place: PackagePlace,
    /// The features that are asked for, and whether its default ones are.
    pub(crate) features: Vec<String>,
    pub(crate) with_default: bool,
}

/// What comes of the features that are asked of a package.
#[derive(Drop)]
pub(crate) enum Requests {
    /// The features that are on, and the dependencies that are.
    Of(Vec<String>, Vec<DependencyRequest>),
    /// It has no feature of this name.
    NoFeature(String),
}

impl DependencyRequest {
    /// Whether it is the crate of C's names, which sources know without it.
    pub(crate) fn is_of_c(&self) -> bool {
        match self.place {
            PackagePlace::Path(_) => false,
            _ => self.package.as_str() == "libc",
        }
    }

    /// Whether the package's sources know it by its name in the manifest, and not by that of its library.
    pub(crate) fn is_renamed(&self) -> bool {
        self.name.as_str() != self.package.as_str()
    }
}

/// What is known of a package: its manifest, and that of its workspace, where it asks that for a dependency.
#[derive(Clone, Copy)]
pub(crate) struct PackageManifests<'a> {
    pub(crate) own: &'a ManifestFile,
    pub(crate) workspace: Option<&'a ManifestFile>,
}

/// Texts of their own.
pub(crate) fn texts_of(alloc: Global, texts: &[&str]) -> Result<Vec<String>, AllocError> {
    let mut all = Vec::new(alloc);
    put_texts(alloc, &mut all, texts)?;
    Ok(all)
}

/// Puts texts behind others.
fn put_texts(alloc: Global, all: &mut Vec<String>, texts: &[&str]) -> Result<(), AllocError> {
    for text in texts {
        all.push(String::from_str(alloc, text)?)?;
    }
    Ok(())
}

/// The dependency of a name.
fn dependency_named<'a>(all: &[Dependency<'a>], name: &str) -> Option<Dependency<'a>> {
    for dependency in all {
        if dependency.name() == name {
            return Some(*dependency);
        }
    }
    None
}

/// Where a package is looked for, as a manifest says.
fn place_said(
    alloc: Global,
    manifest: &ManifestFile,
    said: Dependency<'_>,
) -> Result<PackagePlace, AllocError> {
    if let Some(folder) = said.path() {
        return Ok(PackagePlace::Path(manifest.manifest_beside(alloc, folder)?));
    }
    let versions = said.version().unwrap_or("*");
    Ok(PackagePlace::Vendored(String::from_str(alloc, versions)?))
}

/// The request of a dependency that the package's own manifest says, which asks for these features, too.
fn own_request(
    alloc: Global,
    manifest: &ManifestFile,
    said: Dependency<'_>,
    asked: &[&str],
) -> Result<DependencyRequest, AllocError> {
    let mut features = texts_of(alloc, asked)?;
    put_texts(alloc, &mut features, &said.features(alloc)?)?;
    Ok(DependencyRequest {
        name: String::from_str(alloc, said.name())?,
        package: String::from_str(alloc, said.package())?,
        place: place_said(alloc, manifest, said)?,
        features,
        with_default: said.default_features().unwrap_or(true),
    })
}

/// The request of a dependency that the workspace says: with the features that the package asks for, too, and with the default
/// ones where one of the two asks for these (Cargo Book, "Inheriting a dependency from a workspace").
fn inherited_request<'a>(
    alloc: Global,
    workspace: Option<&'a ManifestFile>,
    said: Dependency<'_>,
    asked: &[&str],
) -> Result<DependencyRequest, AllocError> {
    let name = said.name();
    if let Some(manifest) = workspace {
        let all = manifest.workspace_dependencies(alloc)?;
        if let Some(inherited) = dependency_named(&all, name) {
            let mut request = own_request(alloc, manifest, inherited, asked)?;
            put_texts(alloc, &mut request.features, &said.features(alloc)?)?;
            if said.default_features() == Some(true) {
                request.with_default = true;
            }
            return Ok(request);
        }
    }
    Ok(DependencyRequest {
        name: String::from_str(alloc, name)?,
        package: String::from_str(alloc, name)?,
        place: PackagePlace::Unsaid,
        features: Vec::new(alloc),
        with_default: true,
    })
}

/// Whether a dependency is on: one of another target isn't, and an optional one is where a feature turns it on.
fn is_on(
    alloc: Global,
    target: &Target,
    features: &Features<'_>,
    on: &[&str],
    dependency: Dependency<'_>,
) -> Result<bool, AllocError> {
    if dependency.is_optional() && !features.turns_on(on, dependency.name()) {
        return Ok(false);
    }
    match dependency.target() {
        Some(table) => is_table_of(alloc, target, table),
        None => Ok(true),
    }
}

/// What a package asks of its dependencies, of whose features these are on.
fn requests_with<'a>(
    alloc: Global,
    target: &Target,
    manifests: PackageManifests<'a>,
    features: &Features<'a>,
    on: &[&'a str],
) -> Result<Vec<DependencyRequest>, AllocError> {
    let mut requests = Vec::new(alloc);
    let all = manifests.own.dependencies(alloc)?;
    for dependency in &all {
        let said = *dependency;
        if is_on(alloc, target, features, on, said)? {
            let asked = features.asked_of(alloc, on, said.name())?;
            let request = if said.is_inherited() {
                inherited_request(alloc, manifests.workspace, said, &asked)?
            } else {
                own_request(alloc, manifests.own, said, &asked)?
            };
            requests.push(request)?;
        }
    }
    Ok(requests)
}

/// What a package asks of its dependencies, of which these features are asked.
pub(crate) fn requests_of<'a>(
    alloc: Global,
    target: &Target,
    manifests: PackageManifests<'a>,
    asked: FeatureRequest<'a>,
) -> Result<Requests, AllocError> {
    let features = manifests.own.features(alloc)?;
    match features.enabled(alloc, asked) {
        Ok(on) => {
            let requests = requests_with(alloc, target, manifests, &features, &on)?;
            Ok(Requests::Of(texts_of(alloc, &on)?, requests))
        }
        Err(FeatureError::OutOfMemory) => Err(AllocError),
        Err(FeatureError::UnknownFeature(name)) => {
            Ok(Requests::NoFeature(String::from_str(alloc, name)?))
        }
    }
}
