//! The crates of a run: that of the package that is asked for, and those that it depends on.

ghost use Rattle.std.specs.Prelude.{◌≡◌, ◌∷◌, [], IfOk, map, slice_get, string_bytes};
ghost use Rattle.type_reports.specs.Packages.{crates_of};

use std::alloc::{AllocError, Global};

/// A crate of a run: a package's, whose sources are read.
#[derive(Drop)]
pub struct PackageCrate {
    /// The path of its root file; empty where it has none.
    pub root: String,
    /// The features that are on.
    pub features: Vec<String>,
    /// The crates that its sources know: the name of each there, and its number.
    pub crates: Vec<(String, usize)>,
}

impl PackageCrate {
    /// The features that are on, as `cfg` asks for them: without one there is an empty name, which no feature has, so that
    /// they are known to be off. An error comes where a growth of memory was refused.
    #[tactic(auto, using(crate::proofs::FeatureNames::names_on, crate::proofs::FeatureNames::names_end))]
    pub fn features_on(&self, alloc: Global) -> Result<Vec<&str>, AllocError>
        ensures { IfOk result (λ on. map (λ name. name.now) on.items ≡ [] ∷ map string_bytes self.now.features.items) }
    {
        let mut on = Vec::new(alloc);
        on.push("")?;
        for feature in &self.features {
            on.push(feature.as_str())?;
        }
        Ok(on)
    }
}

/// The packages of a run under one target.
#[derive(Drop)]
pub struct PackageSet {
    /// Their crates, that of the package that is asked for first.
    pub crates: Vec<PackageCrate>,
    /// Lines for standard error.
    pub notes: Vec<String>,
}

/// The crates of a run under the target with this index; none where no manifest was read.
pub fn crates_under(sets: &[PackageSet], target: usize) -> &[PackageCrate]
    ensures { result.now ≡ crates_of (slice_get sets.now target) }
{
    match sets.get(target) {
        Some(set) => &set.crates,
        None => &[],
    }
}
