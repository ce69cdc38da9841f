//! What calling conventions are fit for.

ghost use Rattle.std.specs.Prelude.{◌≡◌};
ghost use Rattle.abi_types.specs.Predicates.{is_rustic, c_variadic_status, keeps_tail_calls, implements_fn};

use crate::c_variadic::CVariadicStatus;
use crate::extern_abi::ExternAbi;

impl ExternAbi {
    /// Whether it is one of Rust's own, which no other language has a say in.
    pub fn is_rustic_abi(self) -> bool
        ensures { result ≡ is_rustic self }
    {
        matches!(
            self,
            ExternAbi::Rust
                | ExternAbi::RustCall
                | ExternAbi::RustCold
                | ExternAbi::RustPreserveNone
                | ExternAbi::RustTail
        )
    }

    /// Whether a function of it that is declared, and not defined, may take a list of arguments
    /// that doesn't end, as C's `printf`.
    pub fn supports_c_variadic(self) -> CVariadicStatus
        ensures { result ≡ c_variadic_status self }
    {
        match self {
            ExternAbi::C { .. }
            | ExternAbi::Cdecl { .. }
            | ExternAbi::System { .. }
            | ExternAbi::Aapcs { .. }
            | ExternAbi::SysV64 { .. }
            | ExternAbi::Win64 { .. }
            | ExternAbi::EfiApi => CVariadicStatus::Stable,
            _ => CVariadicStatus::NotSupported,
        }
    }

    /// Whether a call of it in tail position can always be made a jump.
    pub fn supports_guaranteed_tail_call(self) -> bool
        ensures { result ≡ keeps_tail_calls self }
    {
        match self {
            ExternAbi::CmseNonSecureCall
            | ExternAbi::CmseNonSecureEntry
            | ExternAbi::AvrInterrupt
            | ExternAbi::AvrNonBlockingInterrupt
            | ExternAbi::Msp430Interrupt
            | ExternAbi::RiscvInterruptM
            | ExternAbi::RiscvInterruptS
            | ExternAbi::X86Interrupt
            | ExternAbi::GpuKernel
            | ExternAbi::PtxKernel
            | ExternAbi::Custom
            | ExternAbi::RustCall => false,
            _ => true,
        }
    }

    /// Whether safe functions of it implement the traits `Fn`: those that no code may call, and
    /// those for the compiler's own use, don't.
    pub fn is_fn_trait_compatible(self) -> bool
        ensures { result ≡ implements_fn self }
    {
        match self {
            ExternAbi::RustCall
            | ExternAbi::RustInvalid
            | ExternAbi::LlvmIntrinsic
            | ExternAbi::Custom
            | ExternAbi::GpuKernel
            | ExternAbi::PtxKernel
            | ExternAbi::AvrInterrupt
            | ExternAbi::AvrNonBlockingInterrupt
            | ExternAbi::Msp430Interrupt
            | ExternAbi::RiscvInterruptM
            | ExternAbi::RiscvInterruptS
            | ExternAbi::X86Interrupt => false,
            _ => true,
        }
    }
}
