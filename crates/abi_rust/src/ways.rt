//! Ways of globs, by which a module gets the names of others.

ghost use Rattle.std.specs.Prelude.{◌≡◌};
ghost use Rattle.abi_rust.specs.Ways.{is_way_visible, leads_on, way_at};

use crate::visible::is_visible;
use rust_source::Items;

/// A glob: `use target::*`.
#[derive(Clone, Copy)]
pub(crate) struct Glob {
    /// The module that it stands in.
    pub(crate) inside: u32,
    /// The module that it brings all names of.
    pub(crate) target: u32,
    /// The module in which, with all that stand inside it, what it brings in may be used; none where it may be used
    /// everywhere.
    pub(crate) visible_in: Option<u32>,
}

/// A way of globs, each of which stands in the module that the one before it leads to.
#[derive(Clone, Copy)]
pub(crate) struct Way {
    /// The last of them.
    pub(crate) glob: Glob,
    /// The way of those before, by its place among the module's ways.
    pub(crate) before: Option<u32>,
}

/// The way at a place, if there is one.
pub(crate) fn way_at(ways: &[Way], at: Option<u32>) -> Option<Way>
    ensures { result ≡ way_at ways.now at }
{
    ways.get(at? as usize).copied()
}

/// Whether what each glob of a way brings in may be used in a module.
#[tactic(auto, using(crate::proofs::WayLemmas::on_next, crate::proofs::WayLemmas::on_not, crate::proofs::WayLemmas::on_end, crate::proofs::WayLemmas::on_done))]
pub(crate) fn is_way_visible(items: &Items, ways: &[Way], way: Way, from: u32) -> bool
    ensures { result ≡ is_way_visible items.now ways.now from way }
{
    let mut last = Some(way);
    for turn in 0..ways.len() {
        let Some(way) = last else {
            break;
        };
        if !is_visible(items, way.glob.visible_in, from) {
            return false;
        }
        last = way_at(ways, way.before);
    }
    true
}

/// Whether a way goes on by a glob: it doesn't lead back, and each module on the way sees what it brings in.
#[tactic(auto, using(crate::proofs::WayLemmas::on_next, crate::proofs::WayLemmas::on_not, crate::proofs::WayLemmas::on_end, crate::proofs::WayLemmas::on_done))]
pub(crate) fn leads_on(items: &Items, ways: &[Way], before: Option<u32>, glob: Glob) -> bool
    ensures { result ≡ leads_on items.now ways.now before glob }
{
    let mut last = way_at(ways, before);
    for turn in 0..ways.len() {
        let Some(way) = last else {
            break;
        };
        if way.glob.inside == glob.target {
            return false;
        }
        if !is_visible(items, glob.visible_in, way.glob.inside) {
            return false;
        }
        last = way_at(ways, way.before);
    }
    true
}
