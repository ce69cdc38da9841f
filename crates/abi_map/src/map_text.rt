//! The map of a type as text.

ghost use Rattle.std.specs.Prelude.{◌≡◌, IfOk, string_bytes};
ghost use Rattle.abi_tree.specs.Laid.{placed_of};
ghost use Rattle.abi_text.specs.LaidOut.{IsLaidOut};
ghost use Rattle.abi_map.specs.Map.{map_text};

use crate::called::{ByIndex, Called};
use crate::print::{write_bytes, write_niche};
use abi_base::TargetDataLayout;
use abi_text::{Report, write_size};
use abi_tree::Laid;
use std::alloc::{AllocError, Global};

/// A type is told by a map of its bytes.
pub struct MapText;

impl Report for MapText {
    ghost use Rattle.abi_map.specs.Map.{ReportsMap};

    ghost reports = { ReportsMap };

    fn report_text(
        alloc: Global,
        dl: &TargetDataLayout,
        laid: &Laid,
    ) -> Result<String, AllocError> {
        map_of(alloc, dl, &ByIndex, laid)
    }
}

/// The lines that tell what each byte of a type holds: its size and its alignment, the runs of bytes that the same parts
/// have, and the largest niche, all in bytes. What it asks holds of each type that `lay_out` answers under the data
/// layout. `AllocError` where memory is refused.
pub fn map_of<C: Called>(
    alloc: Global,
    dl: &TargetDataLayout,
    called: &C,
    laid: &Laid,
) -> Result<String, AllocError>
    requires { IsLaidOut dl.now laid.now }
    ensures { IfOk result (λ text.
        string_bytes text ≡ map_text (C.called called.now) dl.now (placed_of laid.now)) }
{
    let layout = laid.layout();
    let mut text = String::new(alloc);
    write_size(&mut text, layout)?;
    write_bytes(alloc, &mut text, called, laid)?;
    write_niche(&mut text, dl, layout.largest_niche)?;
    Ok(text)
}
