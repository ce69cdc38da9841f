//! In which modules a name may be used.

ghost use Rattle.std.specs.Prelude.{◌≡◌};
ghost use Rattle.abi_rust.specs.Visible.{is_inside, is_visible, most_modules, parent};

use rust_source::Items;

/// How many modules a module may be in.
const MOST_MODULES: u32 = 256;

/// How many modules a module may be in.
#[tactic(auto, unfolding(crate::specs::Visible::most_modules))]
pub(crate) fn most_modules() -> u32
    ensures { result ≡ most_modules }
{
    MOST_MODULES
}

/// The module that a module is in.
pub(crate) fn parent_of(items: &Items, module: u32) -> Option<u32>
    ensures { result ≡ parent items.now «module» }
{
    items.modules.get(module as usize)?.parent
}

/// Whether a name may be used in a module that may be used in another one, with all that stand inside that, or
/// everywhere.
pub(crate) fn is_visible(items: &Items, visible_in: Option<u32>, module: u32) -> bool
    ensures { result ≡ is_visible items.now visible_in «module» }
{
    match visible_in {
        Some(outer) => is_inside(items, outer, module),
        None => true,
    }
}

/// Whether a module is another one, or stands inside it. Modules stand in at most 200 others.
#[tactic(auto, unfolding(crate::specs::Visible::is_inside), using(crate::proofs::WayLemmas::inside_more, crate::proofs::WayLemmas::inside_done))]
fn is_inside(items: &Items, outer: u32, module: u32) -> bool
    ensures { result ≡ is_inside items.now outer «module» }
{
    let mut inside = module;
    let turns = most_modules();
    for turn in 0..turns {
        if inside == outer {
            return true;
        }
        match parent_of(items, inside) {
            Some(parent) => inside = parent,
            None => return false,
        }
    }
    false
}
