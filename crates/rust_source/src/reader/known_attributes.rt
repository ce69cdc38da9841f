//! Attributes that the language and its tools have: another one may be a macro that rewrites what it stands at.

ghost use Rattle.std.specs.Prelude.{◌≡◌, map};
ghost use Rattle.rust_source.specs.KnownAttributes.{derived_names, is_among, is_other_trait, known_names, names_copy, names_other_trait};
ghost use Rattle.rust_source.specs.Names.{word_of};

use crate::reader::cursor::{Cursor, pass};
use crate::reader::naming::word_text;

/// The attributes of the language (Rust Reference, "Attributes"), and the tools that have some of their own.
static KNOWN: [&str; 65] = [
    "allow",
    "automatically_derived",
    "bench",
    "cfg",
    "cfg_attr",
    "clippy",
    "cold",
    "coverage",
    "crate_name",
    "crate_type",
    "debugger_visualizer",
    "deny",
    "deprecated",
    "derive",
    "diagnostic",
    "doc",
    "expect",
    "export_name",
    "feature",
    "forbid",
    "fundamental",
    "global_allocator",
    "ignore",
    "inline",
    "instruction_set",
    "lang",
    "link",
    "link_name",
    "link_ordinal",
    "link_section",
    "macro_export",
    "macro_use",
    "may_dangle",
    "miri",
    "must_use",
    "naked",
    "no_builtins",
    "no_implicit_prelude",
    "no_link",
    "no_main",
    "no_mangle",
    "no_std",
    "non_exhaustive",
    "optimize",
    "panic_handler",
    "path",
    "proc_macro",
    "proc_macro_attribute",
    "proc_macro_derive",
    "recursion_limit",
    "repr",
    "rust_analyzer",
    "rustc_layout_scalar_valid_range",
    "rustfmt",
    "should_panic",
    "stable",
    "target_feature",
    "test",
    "track_caller",
    "type_length_limit",
    "unsafe",
    "unstable",
    "used",
    "warn",
    "windows_subsystem",
];

/// The traits that the standard library derives (Rust Reference, "Derive").
static DERIVED: [&str; 9] = [
    "Clone",
    "Copy",
    "Debug",
    "Default",
    "Eq",
    "Hash",
    "Ord",
    "PartialEq",
    "PartialOrd",
];

/// Whether a name is among others.
fn is_among(names: &[&'static str], name: &str) -> bool
    ensures { result ≡ is_among (map word_of names.now) name.now }
{
    for other in names {
        if name == *other {
            return true;
        }
    }
    false
}

/// Whether an attribute of this name is the language's or a tool's.
#[tactic(auto, unfolding(crate::specs::KnownAttributes::known_names))]
pub(crate) fn is_known(name: &str) -> bool
    ensures { result ≡ is_among known_names name.now }
{
    is_among(&KNOWN, name)
}

/// Whether a word is the name of no trait that the standard library derives.
#[tactic(auto, unfolding(crate::specs::KnownAttributes::derived_names))]
fn is_other_trait(word: &str) -> bool
    ensures { result ≡ is_other_trait word.now }
{
    !word.is_empty() && !is_among(&DERIVED, word)
}

/// Whether a `derive` of these names another trait than those that the standard library derives: what derives it may
/// have attributes of its own.
#[tactic(auto, unfolding(crate::specs::KnownAttributes::names_other_trait), using(crate::proofs::ItemTurns::traits_more, crate::proofs::ItemTurns::traits_done))]
pub(crate) fn names_other_trait(inside: &Cursor<'_>) -> bool
    ensures { result ≡ names_other_trait inside.now }
{
    let mut left = *inside;
    let turns = inside.end.saturating_sub(inside.at);
    for turn in 0..turns {
        if is_other_trait(word_text(&left)) {
            return true;
        }
        pass(&mut left, 1);
    }
    false
}

/// Whether a `derive` of these names `Copy`.
#[tactic(auto, unfolding(crate::specs::KnownAttributes::names_copy), using(crate::proofs::ItemTurns::copy_more, crate::proofs::ItemTurns::copy_done))]
pub(crate) fn names_copy(inside: &Cursor<'_>) -> bool
    ensures { result ≡ names_copy inside.now }
{
    let mut left = *inside;
    let turns = inside.end.saturating_sub(inside.at);
    for turn in 0..turns {
        if word_text(&left) == "Copy" {
            return true;
        }
        pass(&mut left, 1);
    }
    false
}
