//! Entries of features: what each turns on, as it's written.

ghost use Rattle.std.specs.Prelude.{◌≡◌, option_map};
ghost use Rattle.cargo_manifest.specs.Switches.{before_question_mark, of_dependency, switch_said, switch_view};

/// What a feature turns on (The Cargo Book, "Features").
#[derive(Clone, Copy, Debug)]
pub enum Switch<'a> {
    /// `name`: another feature of the package.
    Feature(&'a str),
    /// `dep:name`: an optional dependency.
    Dependency(&'a str),
    /// `name/feature`: a feature of a dependency, which is turned on with it.
    DependencyFeature(&'a str, &'a str),
    /// `name?/feature`: a feature of a dependency, where something else turns that on.
    WeakFeature(&'a str, &'a str),
}

/// What stands before a `?` at a text's end.
fn before_question_mark(text: &str) -> Option<&str>
    ensures { option_map (λ t. t.now) result ≡ before_question_mark text.now }
{
    if text.ends_with('?') {
        text.strip_suffix("?")
    } else {
        None
    }
}

/// A feature of a dependency, behind whose name a `?` may stand.
fn of_dependency<'a>(dependency: &'a str, feature: &'a str) -> Switch<'a>
    ensures { switch_view result ≡ of_dependency dependency.now feature.now }
{
    match before_question_mark(dependency) {
        Some(name) => Switch::WeakFeature(name, feature),
        None => Switch::DependencyFeature(dependency, feature),
    }
}

/// What an entry of a feature turns on.
pub(crate) fn switch_said(entry: &str) -> Switch<'_>
    ensures { switch_view result ≡ switch_said entry.now }
{
    if let Some((dependency, feature)) = entry.split_once('/') {
        return of_dependency(dependency, feature);
    }
    match entry.strip_prefix("dep:") {
        Some(name) => Switch::Dependency(name),
        None => Switch::Feature(entry),
    }
}
