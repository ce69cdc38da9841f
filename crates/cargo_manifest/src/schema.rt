//! The keys of a manifest that are read, and what each has to have.

ghost use Rattle.std.specs.Prelude.{◌≡◌, IfOk, map, not, option_to_list};
ghost use Rattle.std.specs.Option.{is_some};
ghost use Rattle.std.specs.List.{list_all};
ghost use Rattle.toml.specs.Data.{get};
ghost use Rattle.toml.specs.View.{view};
ghost use Rattle.cargo_manifest.specs.Schema.{below, fits, is_manifest, is_of_kind, rule_view, rules, step_view};
ghost use Rattle.cargo_manifest.specs.Values.{entries_in, items_in};

use crate::edition::edition_said;
use crate::values::{entries, items};
use std::alloc::{AllocError, Global};
use std::fmt;
use toml::Value;

/// What a key of a manifest has to have.
#[derive(Clone, Copy, PartialEq, Eq, Debug)]
pub enum KeyKind {
    String,
    Boolean,
    List,
    Table,
    /// A string or a table, as a dependency is.
    StringOrTable,
    /// The name of an edition, or `workspace = true`.
    Edition,
    /// A string, a boolean or a list, as `build` is.
    BuildScript,
}

impl fmt::Display for KeyKind {
    fn fmt<W: fmt::Write>(&self, f: &mut fmt::Formatter<W>) -> fmt::Result {
        f.write_str(match self {
            KeyKind::String => "a string",
            KeyKind::Boolean => "a boolean",
            KeyKind::List => "a list",
            KeyKind::Table => "a table",
            KeyKind::StringOrTable => "a string or a table",
            KeyKind::Edition => "the name of an edition",
            KeyKind::BuildScript => "a string, a boolean or a list",
        })
    }
}

/// A step on the way to a key.
#[derive(Clone, Copy)]
enum Step {
    /// To the value at a key.
    Key(&'static str),
    /// To the value at each key.
    EachKey,
    /// To each item of a list.
    EachItem,
}

/// What the values have to have that a way leads to, where there are any.
#[derive(Clone, Copy)]
struct Rule {
    way: &'static [Step],
    kind: KeyKind,
}

/// What is asked of a manifest. A key that no rule names may have anything (Cargo warns of some).
static RULES: [Rule; 66] = [
    Rule {
        way: &[Step::Key("package")],
        kind: KeyKind::Table,
    },
    Rule {
        way: &[Step::Key("package"), Step::Key("name")],
        kind: KeyKind::String,
    },
    Rule {
        way: &[Step::Key("package"), Step::Key("version")],
        kind: KeyKind::StringOrTable,
    },
    Rule {
        way: &[Step::Key("package"), Step::Key("workspace")],
        kind: KeyKind::String,
    },
    Rule {
        way: &[Step::Key("package"), Step::Key("edition")],
        kind: KeyKind::Edition,
    },
    Rule {
        way: &[Step::Key("package"), Step::Key("build")],
        kind: KeyKind::BuildScript,
    },
    Rule {
        way: &[Step::Key("lib")],
        kind: KeyKind::Table,
    },
    Rule {
        way: &[Step::Key("lib"), Step::Key("path")],
        kind: KeyKind::String,
    },
    Rule {
        way: &[Step::Key("lib"), Step::Key("name")],
        kind: KeyKind::String,
    },
    Rule {
        way: &[Step::Key("lib"), Step::Key("proc-macro")],
        kind: KeyKind::Boolean,
    },
    Rule {
        way: &[Step::Key("lib"), Step::Key("proc_macro")],
        kind: KeyKind::Boolean,
    },
    Rule {
        way: &[Step::Key("bin")],
        kind: KeyKind::List,
    },
    Rule {
        way: &[Step::Key("bin"), Step::EachItem],
        kind: KeyKind::Table,
    },
    Rule {
        way: &[Step::Key("bin"), Step::EachItem, Step::Key("path")],
        kind: KeyKind::String,
    },
    Rule {
        way: &[Step::Key("bin"), Step::EachItem, Step::Key("name")],
        kind: KeyKind::String,
    },
    Rule {
        way: &[Step::Key("features")],
        kind: KeyKind::Table,
    },
    Rule {
        way: &[Step::Key("features"), Step::EachKey],
        kind: KeyKind::List,
    },
    Rule {
        way: &[Step::Key("features"), Step::EachKey, Step::EachItem],
        kind: KeyKind::String,
    },
    Rule {
        way: &[Step::Key("dependencies")],
        kind: KeyKind::Table,
    },
    Rule {
        way: &[Step::Key("dependencies"), Step::EachKey],
        kind: KeyKind::StringOrTable,
    },
    Rule {
        way: &[
            Step::Key("dependencies"),
            Step::EachKey,
            Step::Key("package"),
        ],
        kind: KeyKind::String,
    },
    Rule {
        way: &[Step::Key("dependencies"), Step::EachKey, Step::Key("path")],
        kind: KeyKind::String,
    },
    Rule {
        way: &[
            Step::Key("dependencies"),
            Step::EachKey,
            Step::Key("version"),
        ],
        kind: KeyKind::String,
    },
    Rule {
        way: &[
            Step::Key("dependencies"),
            Step::EachKey,
            Step::Key("optional"),
        ],
        kind: KeyKind::Boolean,
    },
    Rule {
        way: &[
            Step::Key("dependencies"),
            Step::EachKey,
            Step::Key("default-features"),
        ],
        kind: KeyKind::Boolean,
    },
    Rule {
        way: &[
            Step::Key("dependencies"),
            Step::EachKey,
            Step::Key("default_features"),
        ],
        kind: KeyKind::Boolean,
    },
    Rule {
        way: &[
            Step::Key("dependencies"),
            Step::EachKey,
            Step::Key("workspace"),
        ],
        kind: KeyKind::Boolean,
    },
    Rule {
        way: &[
            Step::Key("dependencies"),
            Step::EachKey,
            Step::Key("features"),
        ],
        kind: KeyKind::List,
    },
    Rule {
        way: &[
            Step::Key("dependencies"),
            Step::EachKey,
            Step::Key("features"),
            Step::EachItem,
        ],
        kind: KeyKind::String,
    },
    Rule {
        way: &[Step::Key("build-dependencies")],
        kind: KeyKind::Table,
    },
    Rule {
        way: &[Step::Key("build-dependencies"), Step::EachKey],
        kind: KeyKind::StringOrTable,
    },
    Rule {
        way: &[
            Step::Key("build-dependencies"),
            Step::EachKey,
            Step::Key("optional"),
        ],
        kind: KeyKind::Boolean,
    },
    Rule {
        way: &[Step::Key("target")],
        kind: KeyKind::Table,
    },
    Rule {
        way: &[Step::Key("target"), Step::EachKey],
        kind: KeyKind::Table,
    },
    Rule {
        way: &[
            Step::Key("target"),
            Step::EachKey,
            Step::Key("dependencies"),
        ],
        kind: KeyKind::Table,
    },
    Rule {
        way: &[
            Step::Key("target"),
            Step::EachKey,
            Step::Key("dependencies"),
            Step::EachKey,
        ],
        kind: KeyKind::StringOrTable,
    },
    Rule {
        way: &[
            Step::Key("target"),
            Step::EachKey,
            Step::Key("dependencies"),
            Step::EachKey,
            Step::Key("package"),
        ],
        kind: KeyKind::String,
    },
    Rule {
        way: &[
            Step::Key("target"),
            Step::EachKey,
            Step::Key("dependencies"),
            Step::EachKey,
            Step::Key("path"),
        ],
        kind: KeyKind::String,
    },
    Rule {
        way: &[
            Step::Key("target"),
            Step::EachKey,
            Step::Key("dependencies"),
            Step::EachKey,
            Step::Key("version"),
        ],
        kind: KeyKind::String,
    },
    Rule {
        way: &[
            Step::Key("target"),
            Step::EachKey,
            Step::Key("dependencies"),
            Step::EachKey,
            Step::Key("optional"),
        ],
        kind: KeyKind::Boolean,
    },
    Rule {
        way: &[
            Step::Key("target"),
            Step::EachKey,
            Step::Key("dependencies"),
            Step::EachKey,
            Step::Key("default-features"),
        ],
        kind: KeyKind::Boolean,
    },
    Rule {
        way: &[
            Step::Key("target"),
            Step::EachKey,
            Step::Key("dependencies"),
            Step::EachKey,
            Step::Key("default_features"),
        ],
        kind: KeyKind::Boolean,
    },
    Rule {
        way: &[
            Step::Key("target"),
            Step::EachKey,
            Step::Key("dependencies"),
            Step::EachKey,
            Step::Key("workspace"),
        ],
        kind: KeyKind::Boolean,
    },
    Rule {
        way: &[
            Step::Key("target"),
            Step::EachKey,
            Step::Key("dependencies"),
            Step::EachKey,
            Step::Key("features"),
        ],
        kind: KeyKind::List,
    },
    Rule {
        way: &[
            Step::Key("target"),
            Step::EachKey,
            Step::Key("dependencies"),
            Step::EachKey,
            Step::Key("features"),
            Step::EachItem,
        ],
        kind: KeyKind::String,
    },
    Rule {
        way: &[
            Step::Key("target"),
            Step::EachKey,
            Step::Key("build-dependencies"),
        ],
        kind: KeyKind::Table,
    },
    Rule {
        way: &[
            Step::Key("target"),
            Step::EachKey,
            Step::Key("build-dependencies"),
            Step::EachKey,
        ],
        kind: KeyKind::StringOrTable,
    },
    Rule {
        way: &[
            Step::Key("target"),
            Step::EachKey,
            Step::Key("build-dependencies"),
            Step::EachKey,
            Step::Key("optional"),
        ],
        kind: KeyKind::Boolean,
    },
    Rule {
        way: &[Step::Key("workspace")],
        kind: KeyKind::Table,
    },
    Rule {
        way: &[Step::Key("workspace"), Step::Key("members")],
        kind: KeyKind::List,
    },
    Rule {
        way: &[Step::Key("workspace"), Step::Key("members"), Step::EachItem],
        kind: KeyKind::String,
    },
    Rule {
        way: &[Step::Key("workspace"), Step::Key("exclude")],
        kind: KeyKind::List,
    },
    Rule {
        way: &[Step::Key("workspace"), Step::Key("exclude"), Step::EachItem],
        kind: KeyKind::String,
    },
    Rule {
        way: &[Step::Key("workspace"), Step::Key("package")],
        kind: KeyKind::Table,
    },
    Rule {
        way: &[
            Step::Key("workspace"),
            Step::Key("package"),
            Step::Key("edition"),
        ],
        kind: KeyKind::Edition,
    },
    Rule {
        way: &[Step::Key("workspace"), Step::Key("dependencies")],
        kind: KeyKind::Table,
    },
    Rule {
        way: &[
            Step::Key("workspace"),
            Step::Key("dependencies"),
            Step::EachKey,
        ],
        kind: KeyKind::StringOrTable,
    },
    Rule {
        way: &[
            Step::Key("workspace"),
            Step::Key("dependencies"),
            Step::EachKey,
            Step::Key("package"),
        ],
        kind: KeyKind::String,
    },
    Rule {
        way: &[
            Step::Key("workspace"),
            Step::Key("dependencies"),
            Step::EachKey,
            Step::Key("path"),
        ],
        kind: KeyKind::String,
    },
    Rule {
        way: &[
            Step::Key("workspace"),
            Step::Key("dependencies"),
            Step::EachKey,
            Step::Key("version"),
        ],
        kind: KeyKind::String,
    },
    Rule {
        way: &[
            Step::Key("workspace"),
            Step::Key("dependencies"),
            Step::EachKey,
            Step::Key("optional"),
        ],
        kind: KeyKind::Boolean,
    },
    Rule {
        way: &[
            Step::Key("workspace"),
            Step::Key("dependencies"),
            Step::EachKey,
            Step::Key("default-features"),
        ],
        kind: KeyKind::Boolean,
    },
    Rule {
        way: &[
            Step::Key("workspace"),
            Step::Key("dependencies"),
            Step::EachKey,
            Step::Key("default_features"),
        ],
        kind: KeyKind::Boolean,
    },
    Rule {
        way: &[
            Step::Key("workspace"),
            Step::Key("dependencies"),
            Step::EachKey,
            Step::Key("workspace"),
        ],
        kind: KeyKind::Boolean,
    },
    Rule {
        way: &[
            Step::Key("workspace"),
            Step::Key("dependencies"),
            Step::EachKey,
            Step::Key("features"),
        ],
        kind: KeyKind::List,
    },
    Rule {
        way: &[
            Step::Key("workspace"),
            Step::Key("dependencies"),
            Step::EachKey,
            Step::Key("features"),
            Step::EachItem,
        ],
        kind: KeyKind::String,
    },
];

/// The rules of a manifest.
fn rules() -> &'static [Rule]
    ensures { map rule_view result.now ≡ rules }
{
    &RULES
}

/// A fault of a manifest: a key, by its name, that hasn't what it has to have.
#[derive(Debug, Drop)]
pub struct WrongType {
    pub key: String,
    pub kind: KeyKind,
}

/// Whether a value is of a kind.
fn is_of_kind(value: &Value, kind: KeyKind) -> bool
    ensures { result ≡ is_of_kind kind (view value.now) }
{
    match kind {
        KeyKind::String => value.is_str(),
        KeyKind::Boolean => value.is_bool(),
        KeyKind::List => value.is_array(),
        KeyKind::Table => value.is_table(),
        KeyKind::StringOrTable => value.is_str() || value.is_table(),
        KeyKind::Edition => edition_said(value).is_some(),
        KeyKind::BuildScript => value.is_str() || value.is_bool() || value.is_array(),
    }
}

/// A key's name behind that of the table that it stands in.
fn joined(alloc: Global, table: &str, key: String) -> Result<String, AllocError> {
    if table.is_empty() {
        return Ok(key);
    }
    if key.is_empty() {
        return String::from_str(alloc, table);
    }
    let mut name = String::from_str(alloc, table)?;
    name.push_str(".")?;
    name.push_str(key.as_str())?;
    Ok(name)
}

/// The values that a step leads to from a value, each behind its key, where it has one.
fn values_below<'a>(
    alloc: Global,
    value: &'a Value,
    step: Step,
) -> Result<Vec<(&'a str, &'a Value)>, AllocError>
    ensures { IfOk result (λ all. map (λ e. view e.1.now) all.items ≡ below (step_view step) (view value.now)) }
{
    match step {
        Step::Key(key) => one_at(alloc, value, key),
        Step::EachKey => entries_below(alloc, value),
        Step::EachItem => items_below(alloc, value),
    }
}

/// The value at a key, behind that.
fn one_at<'a>(
    alloc: Global,
    value: &'a Value,
    key: &'static str,
) -> Result<Vec<(&'a str, &'a Value)>, AllocError>
    ensures { IfOk result (λ all. map (λ e. view e.1.now) all.items ≡ option_to_list (get key.now (view value.now))) }
{
    let mut all = Vec::new(alloc);
    if let Some(found) = value.get(key) {
        all.push((key, found))?;
    }
    Ok(all)
}

/// The values of a table, behind their keys.
fn entries_below<'a>(
    alloc: Global,
    value: &'a Value,
) -> Result<Vec<(&'a str, &'a Value)>, AllocError>
    ensures { IfOk result (λ all. map (λ e. view e.1.now) all.items ≡ map (λ e. e.1) (entries_in (view value.now))) }
{
    let all = entries(alloc, value)?;
    Ok(all)
}

/// The items of a list, behind no key.
fn items_below<'a>(alloc: Global, value: &'a Value) -> Result<Vec<(&'a str, &'a Value)>, AllocError>
    ensures { IfOk result (λ all. map (λ e. view e.1.now) all.items ≡ items_in (view value.now)) }
{
    let found = items(alloc, value)?;
    let mut all = Vec::with_capacity(alloc, found.len())?;
    for item in &found {
        all.push(("", *item))?;
    }
    Ok(all)
}

/// The name of the first key on the way from a value that isn't of a kind. None where each is.
#[cycle(ways)]
fn wrong_key(
    alloc: Global,
    value: &Value,
    way: &[Step],
    kind: KeyKind,
) -> Result<Option<String>, AllocError>
    ensures { IfOk result (λ wrong. is_some wrong ≡ not (fits (map step_view way.now) kind (view value.now))) }
{
    let Some((step, rest)) = way.split_first() else {
        return if is_of_kind(value, kind) {
            Ok(None)
        } else {
            Ok(Some(String::new(alloc)))
        };
    };
    let below = values_below(alloc, value, *step)?;
    wrong_among(alloc, &below, rest, kind)
}

/// The name of the first key on the ways from some values that isn't of a kind. None where each is.
#[cycle(ways)]
fn wrong_among(
    alloc: Global,
    values: &[(&str, &Value)],
    way: &[Step],
    kind: KeyKind,
) -> Result<Option<String>, AllocError>
    ensures { IfOk result (λ wrong. is_some wrong ≡ not (list_all (fits (map step_view way.now) kind) (map (λ e. view e.1.now) values.now))) }
{
    for (key, value) in values {
        if let Some(wrong) = wrong_key(alloc, *value, way, kind)? {
            return Ok(Some(joined(alloc, *key, wrong)?));
        }
    }
    Ok(None)
}

/// The first key of a manifest that hasn't what it has to have. None where each has.
pub(crate) fn first_wrong(alloc: Global, value: &Value) -> Result<Option<WrongType>, AllocError>
    ensures { IfOk result (λ wrong. is_some wrong ≡ not (is_manifest (view value.now))) }
{
    for rule in rules() {
        if let Some(key) = wrong_key(alloc, value, rule.way, rule.kind)? {
            return Ok(Some(WrongType {
                key,
                kind: rule.kind,
            }));
        }
    }
    Ok(None)
}
