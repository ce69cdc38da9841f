//! Calling conventions as a code generator distinguishes them on one target.

ghost use Rattle.std.specs.Prelude.{◌≡◌, Some};
ghost use Rattle.std.specs.Fmt.{styled_text};
ghost use Rattle.abi_types.specs.CanonAbi.{canon_text, is_rustic_canon, same_name};

use crate::extern_abi::ExternAbi;
use abi_base::prove_ascending;
use std::fmt;
use std::fmt::Display;

/// A calling convention as a code generator distinguishes it from others on one target. Where two names
/// mean one convention there, they are one here.
#[derive(Clone, Copy, PartialEq, Eq, PartialOrd, Ord, Hash, Debug)]
pub enum CanonAbi {
    /// C's.
    C,
    /// Rust's own.
    Rust,
    /// Rust's, for functions that are seldom called.
    RustCold,
    /// Rust's, in which the callee keeps no register.
    RustPreserveNone,
    /// Rust's, in which each call in tail position becomes a jump.
    RustTail,
    /// One that the compiler doesn't know.
    Custom,
    /// Swift's.
    Swift,
    /// One of 32-bit Arm.
    Arm(ArmCall),
    /// The entry of a kernel, which a GPU's host calls.
    GpuKernel,
    /// A handler of interrupts.
    Interrupt(InterruptKind),
    /// One of x86 or x86-64.
    X86(X86Call),
}

/// The conventions of 32-bit Arm.
#[derive(Clone, Copy, PartialEq, Eq, PartialOrd, Ord, Hash, Debug)]
pub enum ArmCall {
    /// The procedure call standard.
    Aapcs,
    /// A call out of the secure world.
    CCmseNonSecureCall,
    /// An entry into the secure world.
    CCmseNonSecureEntry,
}

// The order in which they are compared.
const _: () = prove_ascending!(ArmCall: Aapcs, CCmseNonSecureCall, CCmseNonSecureEntry);

/// The targets whose handlers of interrupts have conventions of their own. No code calls them.
#[derive(Clone, Copy, PartialEq, Eq, PartialOrd, Ord, Hash, Debug)]
pub enum InterruptKind {
    /// AVR.
    Avr,
    /// AVR, where the handler may be interrupted itself.
    AvrNonBlocking,
    /// MSP430.
    Msp430,
    /// RISC-V, in machine mode.
    RiscvMachine,
    /// RISC-V, in supervisor mode.
    RiscvSupervisor,
    /// x86.
    X86,
}

// The order in which they are compared.
const _: () =
    prove_ascending!(InterruptKind: Avr, AvrNonBlocking, Msp430, RiscvMachine, RiscvSupervisor, X86);

/// The conventions of x86 and x86-64.
#[derive(Clone, Copy, PartialEq, Eq, PartialOrd, Ord, Hash, Debug)]
pub enum X86Call {
    /// `fastcall`.
    Fastcall,
    /// `stdcall`.
    Stdcall,
    /// The System V convention of x86-64.
    SysV64,
    /// `thiscall`: that of C++ methods on Windows.
    Thiscall,
    /// `vectorcall`, which passes vectors in registers.
    Vectorcall,
    /// The convention of 64-bit Windows.
    Win64,
}

// The order in which they are compared.
const _: () = prove_ascending!(X86Call: Fastcall, Stdcall, SysV64, Thiscall, Vectorcall, Win64);

impl CanonAbi {
    /// Whether it is one of Rust's own, which no other language has a say in.
    pub fn is_rustic_abi(self) -> bool
        ensures { result ≡ is_rustic_canon self }
    {
        matches!(
            self,
            CanonAbi::Rust | CanonAbi::RustCold | CanonAbi::RustPreserveNone | CanonAbi::RustTail
        )
    }

    /// The convention that has its name.
    fn extern_abi(self) -> ExternAbi
        ensures { result ≡ same_name self }
    {
        match self {
            CanonAbi::C => ExternAbi::C { unwind: false },
            CanonAbi::Rust => ExternAbi::Rust,
            CanonAbi::RustCold => ExternAbi::RustCold,
            CanonAbi::RustPreserveNone => ExternAbi::RustPreserveNone,
            CanonAbi::RustTail => ExternAbi::RustTail,
            CanonAbi::Custom => ExternAbi::Custom,
            CanonAbi::Swift => ExternAbi::Swift,
            CanonAbi::Arm(ArmCall::Aapcs) => ExternAbi::Aapcs { unwind: false },
            CanonAbi::Arm(ArmCall::CCmseNonSecureCall) => ExternAbi::CmseNonSecureCall,
            CanonAbi::Arm(ArmCall::CCmseNonSecureEntry) => ExternAbi::CmseNonSecureEntry,
            CanonAbi::GpuKernel => ExternAbi::GpuKernel,
            CanonAbi::Interrupt(InterruptKind::Avr) => ExternAbi::AvrInterrupt,
            CanonAbi::Interrupt(InterruptKind::AvrNonBlocking) =>
                ExternAbi::AvrNonBlockingInterrupt,
            CanonAbi::Interrupt(InterruptKind::Msp430) => ExternAbi::Msp430Interrupt,
            CanonAbi::Interrupt(InterruptKind::RiscvMachine) => ExternAbi::RiscvInterruptM,
            CanonAbi::Interrupt(InterruptKind::RiscvSupervisor) => ExternAbi::RiscvInterruptS,
            CanonAbi::Interrupt(InterruptKind::X86) => ExternAbi::X86Interrupt,
            CanonAbi::X86(X86Call::Fastcall) => ExternAbi::Fastcall { unwind: false },
            CanonAbi::X86(X86Call::Stdcall) => ExternAbi::Stdcall { unwind: false },
            CanonAbi::X86(X86Call::SysV64) => ExternAbi::SysV64 { unwind: false },
            CanonAbi::X86(X86Call::Thiscall) => ExternAbi::Thiscall { unwind: false },
            CanonAbi::X86(X86Call::Vectorcall) => ExternAbi::Vectorcall { unwind: false },
            CanonAbi::X86(X86Call::Win64) => ExternAbi::Win64 { unwind: false },
        }
    }
}

impl Display for CanonAbi {
    ghost output = { λ abi. Some (canon_text abi) };

    ghost styled_output = { λ abi spec. Some (styled_text spec (canon_text abi)) };

    /// Its name, padded to a width as a text is.
    fn fmt<W: fmt::Write>(&self, f: &mut fmt::Formatter<W>) -> fmt::Result {
        f.pad(self.extern_abi().as_str())
    }
}
