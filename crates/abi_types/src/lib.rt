//! Types beside their layouts, walks over them, registers and calling conventions.
#![tactic(auto)]

// Types beside their layouts, and walks over them.
mod homogeneous;
mod ty;

// Registers, and calling conventions.
mod c_variadic;
mod canon_abi;
mod extern_abi;
mod reg;

pub use c_variadic::CVariadicStatus;
pub use canon_abi::{ArmCall, CanonAbi, InterruptKind, X86Call};
pub use extern_abi::{ExternAbi, all_names};
pub use homogeneous::{Heterogeneous, HomogeneousAggregate};
pub use reg::Reg;
pub use ty::{Layout, TyAbiInterface, TyAndLayout};
