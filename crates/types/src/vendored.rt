//! The folder of packages that `--vendor` names, as `cargo vendor` lays it out, and Debian's packages do: it has a folder
//! for each, that is called as the package is, with the version behind a `-` or without.

use crate::cargo::{CargoFailure, manifest_in, read_manifest, unreadable};
use crate::disk_files::is_there;
use cargo_manifest::greatest_match;
use semver::{Version, VersionReq};
use std::alloc::{AllocError, Global};
use std::io::ErrorKind;
use std::{fs, io};
use type_reports::folder_of;

/// The version of a package that says none (The Cargo Book, "The `version` field").
const NO_VERSION: &str = "0.0.0";

/// A folder of packages.
#[derive(Drop)]
pub(crate) struct Vendored {
    /// Its path.
    folder: String,
    /// The names of what is in it.
    names: Vec<String>,
}

/// The manifests of a package that there are: their paths, and beside each its version.
#[derive(Drop)]
struct Candidates {
    paths: Vec<String>,
    versions: Vec<Version>,
}

/// The names of what is in a folder; those that are no text are passed over.
fn names_in(rt: &HostRuntime, folder: &str) -> io::Result<Vec<String>> {
    let mut names = Vec::new(rt.alloc());
    for entry in fs::read_dir(rt, folder)? {
        match entry {
            Ok(entry) => {
                let name = String::from_str(rt.alloc(), entry.file_name())?;
                names.push(name)?;
            }
            Err(error) => if error.kind() != ErrorKind::InvalidFilename {
                return Err(error);
            },
        }
    }
    Ok(names)
}

/// Whether a folder of this name may be that of a package.
fn may_hold(name: &str, package: &str) -> bool {
    let Some(rest) = name.strip_prefix(package) else {
        return false;
    };
    match rest.strip_prefix("-") {
        Some(version) => version
            .as_bytes()
            .first()
            .is_some_and(|byte| byte.is_ascii_digit()),
        None => rest.is_empty(),
    }
}

/// What a parser of versions answered. None where the text is none.
fn parsed<T: Drop>(answer: Result<T, semver::Error>) -> Result<Option<T>, AllocError> {
    match answer {
        Ok(value) => Ok(Some(value)),
        Err(error) => if error == semver::Error::from(AllocError) {
            Err(AllocError)
        } else {
            Ok(None)
        },
    }
}

impl Candidates {
    /// Puts the manifest at this path behind the others, where it is there and the package's.
    fn add(&mut self, rt: &HostRuntime, path: String, package: &str) -> Result<(), AllocError> {
        let file = match read_manifest(rt, path) {
            Ok(file) => file,
            Err(CargoFailure::OutOfMemory) => return Err(AllocError),
            Err(CargoFailure::Stopped(..)) => return Ok(()),
        };
        if file.package_name() != Some(package) {
            return Ok(());
        }
        let version = file.package_version().unwrap_or(NO_VERSION);
        if let Some(version) = parsed(Version::parse(rt.alloc(), version))? {
            self.versions.push(version)?;
            self.paths.push(file.into_path())?;
        }
        Ok(())
    }

    /// The path of the manifest with this index.
    fn into_path(mut self, index: usize) -> Option<String> {
        if index < self.paths.len() {
            Some(self.paths.swap_remove(index))
        } else {
            None
        }
    }
}

impl Vendored {
    /// No folder, in which no package is.
    pub(crate) fn new(alloc: Global) -> Vendored {
        Vendored {
            folder: String::new(alloc),
            names: Vec::new(alloc),
        }
    }

    /// The folder at this path.
    pub(crate) fn read_folder(rt: &HostRuntime, path: &str) -> Result<Vendored, CargoFailure> {
        let folder = String::from_str(rt.alloc(), path)?;
        match names_in(rt, path) {
            Ok(names) => Ok(Vendored { folder, names }),
            Err(error) => Err(unreadable(rt.alloc(), path, &error)),
        }
    }

    /// The folder around a package that is vendored itself, as the file beside its manifest says (The Cargo Book, "Directory
    /// Sources"); else none, in which no package is.
    pub(crate) fn around(rt: &HostRuntime, manifest: &str) -> Result<Vendored, CargoFailure> {
        let alloc = rt.alloc();
        let folder = folder_of(manifest);
        let checksums = format!(in alloc; "{folder}.cargo-checksum.json").map_err(
            AllocError::from,
        )?;
        if !is_there(rt, checksums.as_str()) {
            return Ok(Vendored::new(alloc));
        }
        let around = format!(in alloc; "{folder}..").map_err(AllocError::from)?;
        Vendored::read_folder(rt, around.as_str())
    }

    /// The manifests of a package that are there.
    fn candidates(&self, rt: &HostRuntime, package: &str) -> Result<Candidates, AllocError> {
        let alloc = rt.alloc();
        let mut found = Candidates {
            paths: Vec::new(alloc),
            versions: Vec::new(alloc),
        };
        for name in &self.names {
            if may_hold(name.as_str(), package) {
                let mut path = String::from_str(alloc, self.folder.as_str())?;
                path.push_str("/")?;
                path.push_str(name.as_str())?;
                found.add(rt, manifest_in(alloc, path.as_str())?, package)?;
            }
        }
        Ok(found)
    }

    /// The path of a package's manifest: that of the greatest version that is wanted. None where none of these is there.
    pub(crate) fn find(
        &self,
        rt: &HostRuntime,
        package: &str,
        wanted: &str,
    ) -> Result<Option<String>, AllocError> {
        let Some(wanted) = parsed(VersionReq::parse(rt.alloc(), wanted))? else {
            return Ok(None);
        };
        let found = self.candidates(rt, package)?;
        match greatest_match(&found.versions, &wanted) {
            Some(index) => Ok(found.into_path(index)),
            None => Ok(None),
        }
    }
}
