//! What a report is asked for.

ghost use Rattle.std.specs.Prelude.{◌≡◌, true, false, IfOk};
ghost use Rattle.type_reports.specs.Options.{SetsOne};

use crate::assertions::Assertion;
use crate::sorting::Selection;
use abi_rust::{Target, target_named};
use rust_source::CfgOption;
use std::alloc::{AllocError, Global};

/// The form of the report.
#[derive(Clone, Copy, PartialEq, Eq)]
pub enum Form {
    /// A line for each fact.
    Lines,
    /// One JSON document.
    Json,
    /// A declaration of Rust for each type, with comments.
    Pretty,
    /// A line for each run of bytes that the same parts have.
    Map,
}

/// What a report is asked for.
#[derive(Drop)]
pub struct ReportOptions<'a> {
    /// The targets, in the order in which they were named; one where none was.
    pub targets: Vec<Target>,
    /// The types that are asked for by name; all of the source where there is none.
    pub types: Vec<&'a str>,
    /// Whether it is asked if each value of the first of these is one of the second.
    pub transmutes: bool,
    /// Whether it is said what may be done with each type's bytes.
    pub with_bytes: bool,
    /// Whether it is said what could be saved of each type.
    pub with_savings: bool,
    /// Whether it is said what the parts of each type are called, and what the target's data layout is.
    pub with_parts: bool,
    /// Whether the trees of the types are kept.
    pub keeps_trees: bool,
    /// The form of the report.
    pub form: Form,
    /// Which types are listed, and in which order.
    pub selection: Selection,
    /// What is asserted of types.
    pub assertions: Vec<Assertion<'a>>,
    /// Whether nothing is noted but faults and what isn't as it is asserted.
    pub is_quiet: bool,
    /// What `cfg` finds set beside what a target has.
    pub cfg_options: Vec<CfgOption<'a>>,
    /// Whether the file of each type is said, since several were named.
    pub with_files: bool,
    /// Whether a fault of one type is a fault of its file, of which nothing is reported then.
    pub is_strict: bool,
}

/// Puts the features of a list, with commas or spaces between them, behind the others. An error comes where a growth of memory
/// was refused.
pub fn put_features<'a>(all: &mut Vec<&'a str>, list: &'a str) -> Result<(), AllocError> {
    for words in list.split(',') {
        for name in words.split_ascii_whitespace() {
            all.push(name)?;
        }
    }
    Ok(())
}

/// What stands between quotes. None where none stand around it, or one more between them.
fn unquoted(text: &str) -> Option<&str> {
    let inside = text.strip_prefix('"')?.strip_suffix('"')?;
    if inside.contains('"') {
        None
    } else {
        Some(inside)
    }
}

/// Whether a text is a name, as `cfg` has them.
fn is_name(text: &str) -> bool {
    let mut is_begun = false;
    for c in text.chars() {
        if !(c == '_' || c.is_ascii_alphabetic() || is_begun && c.is_ascii_digit()) {
            return false;
        }
        is_begun = true;
    }
    is_begun
}

/// What a text sets for `cfg`: a name, or a name and a value in quotes. None for any other text.
fn cfg_option_in(text: &str) -> Option<CfgOption<'_>> {
    let (name, value) = match text.split_once('=') {
        Some((name, value)) => (name, Some(unquoted(value.trim())?)),
        None => (text, None),
    };
    let name = name.trim();
    if is_name(name) {
        Some(CfgOption { name, value })
    } else {
        None
    }
}

/// Puts what a text sets for `cfg` behind the others; a feature behind the features. Whether it sets something: a name, alone or
/// with a value in quotes. An error comes where a growth of memory was refused.
pub fn put_cfg<'a>(
    all: &mut Vec<CfgOption<'a>>,
    features: &mut Vec<&'a str>,
    text: &'a str,
) -> Result<bool, AllocError>
    ensures nothing { IfOk result (λ is_set. is_set ≡ false →
        (all.new.items ≡ all.old.items) × (features.new.items ≡ features.old.items)) }
    ensures one { IfOk result (λ is_set. is_set ≡ true →
        SetsOne all.old.items all.new.items features.old.items features.new.items) }
{
    let Some(option) = cfg_option_in(text) else {
        return Ok(false);
    };
    match option.value {
        Some(feature) if option.name == "feature" => features.push(feature)?,
        _ => all.push(option)?,
    }
    Ok(true)
}

/// The target where none is named.
pub const DEFAULT_TARGET: &str = "x86_64-unknown-linux-gnu";

/// The one target that there is where none was named. An error comes where a growth of memory was refused.
pub fn default_targets(alloc: Global) -> Result<Vec<Target>, AllocError> {
    let mut targets = Vec::new(alloc);
    if let Some(known) = target_named(DEFAULT_TARGET) {
        targets.push(known)?;
    }
    Ok(targets)
}

/// The name of a file, without its folder.
pub fn file_name_of(path: &str) -> &str {
    match path.rsplit_once('/') {
        Some((_, name)) => name,
        None => path,
    }
}

/// Whether a file is the root of a crate by its name; standard input is one.
pub fn is_root(file: Option<&str>) -> bool {
    let Some(path) = file else {
        return true;
    };
    let name = file_name_of(path);
    name == "lib.rs" || name == "main.rs"
}
