//! How many bytes of a type no value covers.

ghost use Rattle.std.specs.Prelude.{◌≡◌, ◌≤◌, IfOk, IfSome, IsSome, sum_by};
ghost use Rattle.abi_index.specs.RangeSet.{AreMaximalRuns};
ghost use Rattle.abi_tree.specs.Laid.{placed_of};
ghost use Rattle.abi_tree.specs.Placed.{layout_of};
ghost use Rattle.abi_tree.specs.Runs.{is_padding_of};
ghost use Rattle.type_reports.specs.Waste.{IsCountOf};

use crate::data_runs::most_runs;
use abi_tree::Laid;
use std::alloc::{AllocError, Global};

/// The padding isn't counted of a type that is larger, in bytes, and makes more runs of bytes.
const MOST_COUNTED: u64 = 1_048_576;

/// How many bytes runs have that stand apart.
fn length_of_runs(runs: &[(u64, u64)]) -> u64
    requires { AreMaximalRuns 0 runs.now }
    ensures { result ≡ sum_by (λ run. run.1) runs.now }
{
    let mut length = 0;
    for run in runs {
        length += run.1;
    }
    length
}

/// How many bytes of a laid-out type no value covers: its padding, that of each element of an array too. None of a type of
/// more than 1,048,576 bytes where there may be more runs of other bytes than that, as in a large array of elements with padding.
pub(crate) fn waste_of(alloc: Global, laid: &Laid) -> Result<Option<u64>, AllocError>
    ensures count { IfOk result (λ waste. IfSome waste (IsCountOf (is_padding_of (placed_of laid.now)))) }
    ensures counted { IfOk result (λ waste. (layout_of (placed_of laid.now)).size ≤ 1_048_576 → IsSome waste) }
{
    if laid.layout().size.bytes() > MOST_COUNTED && most_runs(alloc, laid)? > MOST_COUNTED {
        return Ok(None);
    }
    let (bytes, _visits) = laid.padding(alloc)?;
    Ok(Some(length_of_runs(bytes.as_slice())))
}
