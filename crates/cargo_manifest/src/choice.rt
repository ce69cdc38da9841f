//! Which version of a package is chosen.

ghost use Rattle.std.specs.Prelude.{◌≡◌, option_map};
ghost use Rattle.cargo_manifest.specs.Choice.{IsGreatestMatch, is_above, next_choice, version_at};

use semver::{Version, VersionReq};
use std::cmp::Ordering;

/// Whether a version is greater than one that was chosen, where there is one.
fn is_above(version: &Version, chosen: Option<&Version>) -> bool
    ensures { result ≡ is_above version.now (option_map (λ v. v.now) chosen.entry) }
{
    match chosen {
        Some(chosen) => chosen.cmp_precedence(version) == Ordering::Less,
        None => true,
    }
}

/// The version that was chosen, by its index.
fn version_at(versions: &[Version], chosen: Option<usize>) -> Option<&Version>
    ensures { option_map (λ v. v.now) result ≡ version_at versions.now chosen }
{
    match chosen {
        Some(index) => versions.get(index),
        None => None,
    }
}

/// The choice between what was chosen and the version at an index.
fn next_choice(
    versions: &[Version],
    requirement: &VersionReq,
    chosen: Option<usize>,
    at: usize,
) -> Option<usize>
    ensures { result ≡ next_choice requirement.now.comparators.items versions.now chosen at }
{
    let Some(version) = versions.get(at) else {
        return chosen;
    };
    if requirement.matches(version) && is_above(version, version_at(versions, chosen)) {
        Some(at)
    } else {
        chosen
    }
}

/// The greatest of some versions that a requirement matches, by its index. None where it matches none (The Cargo Book,
/// "Dependency Resolution": the highest version that is compatible).
pub fn greatest_match(versions: &[Version], requirement: &VersionReq) -> Option<usize>
    ensures { IsGreatestMatch requirement.now.comparators.items versions.now result }
{
    let mut chosen: Option<usize> = None;
    for at in 0..versions.len() {
        chosen = next_choice(versions, requirement, chosen, at);
    }
    chosen
}
