//! The features that are on: those asked for, and those that they turn on.

ghost use Rattle.std.specs.Prelude.{◌≡◌, ◌↔◌, ◌≤◌, ◌+◌, IfOk, OnOk, Contains, filter, length, map};
ghost use Rattle.cargo_manifest.specs.Enabled.{IsEnabled, IsIn, followed, link_view, other_links, put_feature};
ghost use Rattle.cargo_manifest.specs.Switches.{switch_view};
ghost use Rattle.cargo_manifest.specs.Values.{Text, texts};

use crate::entry::Switch;
use crate::values::is_one_of;
use std::alloc::{AllocError, Global};

/// A feature, and what it turns on.
#[derive(Clone, Copy, Debug)]
pub struct Link<'a> {
    /// The feature's name.
    pub feature: &'a str,
    /// What it turns on.
    pub to: Switch<'a>,
}

/// Puts a feature behind those that are on, unless it is among them.
fn put_feature<'a>(on: &mut Vec<&'a str>, to: Switch<'a>) -> Result<(), AllocError>
    ensures { OnOk result (texts on.new.items ≡ put_feature (texts on.old.items) (switch_view to.entry)) }
{
    if let Switch::Feature(name) = to {
        if !is_one_of(on, name) {
            on.push(name)?;
        }
    }
    Ok(())
}

/// Puts what a feature turns on behind the features that are on, and answers the links of the others.
fn follow<'a>(
    alloc: Global,
    on: &mut Vec<&'a str>,
    left: &[Link<'a>],
    feature: &str,
) -> Result<Vec<Link<'a>>, AllocError>
    ensures on { OnOk result (texts on.new.items ≡ followed feature.now (map link_view left.now) (texts on.old.items)) }
    ensures left { IfOk result (λ others. map link_view others.items ≡ other_links feature.now (map link_view left.now)) }
{
    let mut others = Vec::new(alloc);
    for link in left {
        if link.feature == feature {
            put_feature(on, link.to)?;
        } else {
            others.push(*link)?;
        }
    }
    Ok(others)
}

/// The links, in a list of their own.
fn copy_links<'a>(alloc: Global, links: &[Link<'a>]) -> Result<Vec<Link<'a>>, AllocError>
    ensures { IfOk result (λ copies. copies.items ≡ links.now) }
{
    let mut copies = Vec::with_capacity(alloc, links.len())?;
    for link in links {
        copies.push(*link)?;
    }
    Ok(copies)
}

/// The features that are on: those asked for, and those that these links lead to from one that is on.
pub(crate) fn enabled<'a>(
    alloc: Global,
    links: &[Link<'a>],
    asked: Vec<&'a str>,
) -> Result<Vec<&'a str>, AllocError>
    ensures { IfOk result (λ on. (name : Text) → IsIn (texts on.items) name
        ↔ IsEnabled (map link_view links.now) (texts asked.entry.items) name) }
{
    let mut on = asked;
    let mut left = copy_links(alloc, links)?;
    let mut at = 0usize;
    while at < on.len() {
        let feature = on[at];
        left = follow(alloc, &mut on, &left, feature)?;
        at += 1;
    }
    Ok(on)
}
