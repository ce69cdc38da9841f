//! What programs tell of types that were laid out.

use abi_base::TargetDataLayout;
use abi_tree::Laid;
use std::alloc::{AllocError, Global};

/// What a program tells of a type that was laid out. `run` reads the type and lays it out.
pub trait Report {
    ghost use Rattle.std.specs.Prelude.{◌≡◌, ℕ, List, IfOk, string_bytes};
    ghost use Rattle.abi_base.specs.declared.data_layout.TargetDataLayout.{TargetDataLayout};
    ghost use Rattle.abi_tree.specs.Laid.{placed_of};
    ghost use Rattle.abi_tree.specs.Placed.{Placed};
    ghost use Rattle.abi_text.specs.LaidOut.{IsLaidOut};

    /// The text tells of the type under the data layout.
    ghost reports: { TargetDataLayout → Placed → List ℕ → Type 0 };

    /// A text that tells of the type. `AllocError` where memory is refused.
    fn report_text(alloc: Global, dl: &TargetDataLayout, laid: &Laid) -> Result<String, AllocError>
        requires { IsLaidOut dl.now laid.now }
        ensures { IfOk result (λ text. reports dl.now (placed_of laid.now) (string_bytes text)) };
}
