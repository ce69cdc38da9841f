//! The layouts that nodes have: one that equals one of the newest is kept once.

ghost use Rattle.std.specs.Prelude.{◌≡◌, ◌<◌, IfOk, IfSome, OnOk, get_or, length, vec_capacity, vec_len};
ghost use Rattle.abi_scalar.specs.Scalar.{IsWellFormed};
ghost use Rattle.abi_scalar.specs.Simple.{scalar_layout};
ghost use Rattle.abi_types.specs.Ty.Typed.{no_layout};
ghost use Rattle.abi_tree.specs.Entries.{KeepsLayouts};

use crate::same_layout::is_same_layout;
use abi_base::TargetDataLayout;
use abi_index::{FieldIdx, VariantIdx};
use abi_scalar::{LayoutData, Scalar};
use std::alloc::AllocError;

/// How many layouts, the newest ones, a further one is compared with.
const RECENT: usize = 8;

/// For how many layouts room is asked for at the first, where a number is put.
const FIRST_LAYOUTS: usize = 8;

/// The place of an equal layout among the newest of these, if there is one.
fn recent_place(
    layouts: &[LayoutData<FieldIdx, VariantIdx>],
    layout: &LayoutData<FieldIdx, VariantIdx>,
) -> Option<usize>
    ensures there { IfSome result (λ at. at < length layouts.now) }
    ensures same { IfSome result (λ at. get_or layouts.now at no_layout ≡ layout.now) }
{
    let count = layouts.len();
    for at in (count.saturating_sub(RECENT)..count).rev() {
        if is_same_layout(&layouts[at], layout) {
            return Some(at);
        }
    }
    None
}

/// The place of the layout among these, behind which it is put, unless one of the newest is equal.
#[inline(always)]
pub(crate) fn place_of(
    layouts: &mut Vec<LayoutData<FieldIdx, VariantIdx>>,
    layout: LayoutData<FieldIdx, VariantIdx>,
) -> Result<usize, AllocError>
    ensures there { IfOk result (λ at. at < length layouts.new.items) }
    ensures same { IfOk result (λ at. get_or layouts.new.items at no_layout ≡ layout) }
    ensures more { KeepsLayouts layouts.old.items layouts.new.items }
{
    if let Some(at) = recent_place(layouts, &layout) {
        return Ok(at);
    }
    let at = layouts.len();
    layouts.push(layout)?;
    Ok(at)
}

/// Asks for room for one more layout, and at the first for some.
fn make_room(layouts: &mut Vec<LayoutData<FieldIdx, VariantIdx>>) -> Result<(), AllocError>
    ensures same { layouts.new.items ≡ layouts.old.items }
    ensures room { OnOk result (vec_len layouts.new < vec_capacity layouts.new) }
{
    let more = if layouts.is_empty() { FIRST_LAYOUTS } else { 1 };
    layouts.reserve(more)
}

/// The place of a number's layout among these, behind which it is put, unless one of the newest is equal. It is compared
/// where it is put, so that it is copied but once.
pub(crate) fn scalar_place(
    layouts: &mut Vec<LayoutData<FieldIdx, VariantIdx>>,
    dl: &TargetDataLayout,
    value: Scalar,
) -> Result<usize, AllocError>
    requires { IsWellFormed dl.now value }
    ensures there { IfOk result (λ at. at < length layouts.new.items) }
    ensures same { IfOk result (λ at. get_or layouts.new.items at no_layout ≡ scalar_layout 0 dl.now value) }
    ensures more { KeepsLayouts layouts.old.items layouts.new.items }
{
    make_room(layouts)?;
    let last = layouts.len();
    layouts.push_reserved(LayoutData::scalar(&dl, value));
    match recent_place(&layouts[..last], &layouts[last]) {
        Some(at) => {
            layouts.truncate(last);
            Ok(at)
        }
        None => Ok(last),
    }
}
