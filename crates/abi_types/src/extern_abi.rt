//! Calling conventions, by their names and numbers.

mod order;
mod predicates;
mod text;

ghost use Rattle.std.specs.Prelude.{◌≡◌, ◌+◌, ◌<◌, IfOk, Some, length, map, slice_get, vec_len, if◌then◌else◌};
ghost use Rattle.abi_types.specs.declared.extern_abi.ExternAbi.{ExternAbi};
ghost use Rattle.abi_types.specs.ExternAbi.{abi_name, abi_number};

use std::alloc::{AllocError, Global};

/// A calling convention, as `extern "name"` says it.
#[derive(Clone, Copy, Debug)]
pub enum ExternAbi {
    /// The C convention of the platform.
    C {
        /// Whether a panic may unwind through the call.
        unwind: bool,
    },
    /// The convention of the system's interface: that of C, or another on Windows.
    System {
        /// Whether a panic may unwind through the call.
        unwind: bool,
    },
    /// Rust's own.
    Rust,
    /// That of closures' calls, whose arguments come as a tuple.
    RustCall,
    /// Rust's, for functions that are seldom called.
    RustCold,
    /// One that no target has, for tests.
    RustInvalid,
    /// Rust's, in which the callee keeps no register.
    RustPreserveNone,
    /// Rust's, in which each call in tail position becomes a jump.
    RustTail,
    /// That of LLVM's intrinsics.
    LlvmIntrinsic,
    /// One that the compiler doesn't know: such functions are called from assembly alone.
    Custom,
    /// UEFI's.
    EfiApi,
    /// Swift's.
    Swift,
    /// The procedure call standard of Arm.
    Aapcs {
        /// Whether a panic may unwind through the call.
        unwind: bool,
    },
    /// A call out of Arm's secure world.
    CmseNonSecureCall,
    /// An entry into Arm's secure world.
    CmseNonSecureEntry,
    /// The entry of a kernel, which a GPU's host calls.
    GpuKernel,
    /// The same, for PTX alone.
    PtxKernel,
    /// A handler of interrupts on AVR.
    AvrInterrupt,
    /// A handler of interrupts on AVR that may be interrupted itself.
    AvrNonBlockingInterrupt,
    /// A handler of interrupts on MSP430.
    Msp430Interrupt,
    /// A handler of interrupts in RISC-V's machine mode.
    RiscvInterruptM,
    /// A handler of interrupts in RISC-V's supervisor mode.
    RiscvInterruptS,
    /// A handler of interrupts on x86.
    X86Interrupt,
    /// C's on x86, by its old name.
    Cdecl {
        /// Whether a panic may unwind through the call.
        unwind: bool,
    },
    /// `stdcall` of x86.
    Stdcall {
        /// Whether a panic may unwind through the call.
        unwind: bool,
    },
    /// `fastcall` of x86.
    Fastcall {
        /// Whether a panic may unwind through the call.
        unwind: bool,
    },
    /// `thiscall` of x86: that of C++ methods on Windows.
    Thiscall {
        /// Whether a panic may unwind through the call.
        unwind: bool,
    },
    /// `vectorcall` of x86, which passes vectors in registers.
    Vectorcall {
        /// Whether a panic may unwind through the call.
        unwind: bool,
    },
    /// The System V convention of x86-64.
    SysV64 {
        /// Whether a panic may unwind through the call.
        unwind: bool,
    },
    /// The convention of 64-bit Windows.
    Win64 {
        /// Whether a panic may unwind through the call.
        unwind: bool,
    },
}

impl ExternAbi {
    /// Every convention, each at the place of its number. Their names ascend.
    pub const ALL_VARIANTS: &'static [ExternAbi] = &[
        ExternAbi::C { unwind: false },
        ExternAbi::C { unwind: true },
        ExternAbi::Rust,
        ExternAbi::Swift,
        ExternAbi::Aapcs { unwind: false },
        ExternAbi::Aapcs { unwind: true },
        ExternAbi::AvrInterrupt,
        ExternAbi::AvrNonBlockingInterrupt,
        ExternAbi::Cdecl { unwind: false },
        ExternAbi::Cdecl { unwind: true },
        ExternAbi::CmseNonSecureCall,
        ExternAbi::CmseNonSecureEntry,
        ExternAbi::Custom,
        ExternAbi::EfiApi,
        ExternAbi::Fastcall { unwind: false },
        ExternAbi::Fastcall { unwind: true },
        ExternAbi::GpuKernel,
        ExternAbi::LlvmIntrinsic,
        ExternAbi::Msp430Interrupt,
        ExternAbi::PtxKernel,
        ExternAbi::RiscvInterruptM,
        ExternAbi::RiscvInterruptS,
        ExternAbi::RustCall,
        ExternAbi::RustCold,
        ExternAbi::RustInvalid,
        ExternAbi::RustPreserveNone,
        ExternAbi::Stdcall { unwind: false },
        ExternAbi::Stdcall { unwind: true },
        ExternAbi::System { unwind: false },
        ExternAbi::System { unwind: true },
        ExternAbi::SysV64 { unwind: false },
        ExternAbi::SysV64 { unwind: true },
        ExternAbi::RustTail,
        ExternAbi::Thiscall { unwind: false },
        ExternAbi::Thiscall { unwind: true },
        ExternAbi::Vectorcall { unwind: false },
        ExternAbi::Vectorcall { unwind: true },
        ExternAbi::Win64 { unwind: false },
        ExternAbi::Win64 { unwind: true },
        ExternAbi::X86Interrupt,
    ];

    /// The convention of an `extern` that names none.
    pub const FALLBACK: ExternAbi = ExternAbi::C { unwind: false };

    /// Its number and its name.
    fn row(self) -> (u8, &'static str)
        ensures number { result.0 ≡ abi_number self }
        ensures name { result.1.now ≡ abi_name self }
    {
        match self {
            Self::C { unwind } => row_by(unwind, 0, "C", "C-unwind"),
            Self::Rust => (2, "Rust"),
            Self::Swift => (3, "Swift"),
            Self::Aapcs { unwind } => row_by(unwind, 4, "aapcs", "aapcs-unwind"),
            Self::AvrInterrupt => (6, "avr-interrupt"),
            Self::AvrNonBlockingInterrupt => (7, "avr-non-blocking-interrupt"),
            Self::Cdecl { unwind } => row_by(unwind, 8, "cdecl", "cdecl-unwind"),
            Self::CmseNonSecureCall => (10, "cmse-nonsecure-call"),
            Self::CmseNonSecureEntry => (11, "cmse-nonsecure-entry"),
            Self::Custom => (12, "custom"),
            Self::EfiApi => (13, "efiapi"),
            Self::Fastcall { unwind } => row_by(unwind, 14, "fastcall", "fastcall-unwind"),
            Self::GpuKernel => (16, "gpu-kernel"),
            Self::LlvmIntrinsic => (17, "llvm-intrinsic"),
            Self::Msp430Interrupt => (18, "msp430-interrupt"),
            Self::PtxKernel => (19, "ptx-kernel"),
            Self::RiscvInterruptM => (20, "riscv-interrupt-m"),
            Self::RiscvInterruptS => (21, "riscv-interrupt-s"),
            Self::RustCall => (22, "rust-call"),
            Self::RustCold => (23, "rust-cold"),
            Self::RustInvalid => (24, "rust-invalid"),
            Self::RustPreserveNone => (25, "rust-preserve-none"),
            Self::Stdcall { unwind } => row_by(unwind, 26, "stdcall", "stdcall-unwind"),
            Self::System { unwind } => row_by(unwind, 28, "system", "system-unwind"),
            Self::SysV64 { unwind } => row_by(unwind, 30, "sysv64", "sysv64-unwind"),
            Self::RustTail => (32, "tail"),
            Self::Thiscall { unwind } => row_by(unwind, 33, "thiscall", "thiscall-unwind"),
            Self::Vectorcall { unwind } => row_by(unwind, 35, "vectorcall", "vectorcall-unwind"),
            Self::Win64 { unwind } => row_by(unwind, 37, "win64", "win64-unwind"),
            Self::X86Interrupt => (39, "x86-interrupt"),
        }
    }

    /// Its name, which no other convention has.
    pub fn as_str(&self) -> &'static str
        ensures name { result.now ≡ abi_name self.now }
        ensures own { (abi : ExternAbi) → abi_name abi ≡ result.now → abi ≡ self.now }
    {
        self.row().1
    }

    /// Its name, as it stands in `extern ".."`, and as `from_str` reads it.
    pub fn name(self) -> &'static str
        ensures { result.now ≡ abi_name self }
    {
        self.as_str()
    }

    /// Its number, which is its place in `ALL_VARIANTS`.
    #[tactic(auto, using(crate::proofs::ConventionLemmas::at_number))]
    pub fn as_packed(&self) -> u8
        ensures number { result ≡ abi_number self.now }
        ensures place { slice_get ExternAbi.ALL_VARIANTS.now result ≡ Some self.now }
    {
        self.row().0
    }

    /// The convention of the number, which has to be below 40.
    #[tactic(auto, using(crate::proofs::ConventionLemmas::only_numbered))]
    pub fn from_packed(index: u8) -> ExternAbi
        requires { index < 40 }
        ensures number { abi_number result ≡ index }
        ensures place { slice_get ExternAbi.ALL_VARIANTS.now index ≡ Some result }
        ensures only { (abi : ExternAbi) → abi_number abi ≡ index → result ≡ abi }
        ensures fallback { index ≡ 0 → result ≡ ExternAbi.FALLBACK }
    {
        item_at(ExternAbi::ALL_VARIANTS, usize::from(index))
    }
}

/// The row of a convention that may unwind: the number where it doesn't, and both names. Where it
/// unwinds, the number is the next.
fn row_by(
    unwind: bool,
    number: u8,
    name: &'static str,
    unwinding: &'static str,
) -> (u8, &'static str)
    requires { number < 40 }
    ensures number { result.0 ≡ (if unwind then number + 1 else number) }
    ensures name { result.1.now ≡ (if unwind then unwinding.entry.now else name.entry.now) }
{
    if unwind {
        (number + 1, unwinding)
    } else {
        (number, name)
    }
}

/// The names of all conventions, in the order of `ALL_VARIANTS`. `AllocError` where there is no
/// memory for the list.
pub fn all_names(alloc: Global) -> Result<Vec<&'static str>, AllocError>
    ensures names { IfOk result (λ names.
        map (λ name. name.now) names.items ≡ map abi_name ExternAbi.ALL_VARIANTS.now) }
    ensures count { IfOk result (λ names. vec_len names ≡ 40) }
{
    names_of(alloc, ExternAbi::ALL_VARIANTS)
}

/// The names of the conventions. `AllocError` where there is no memory for the list.
fn names_of(alloc: Global, abis: &[ExternAbi]) -> Result<Vec<&'static str>, AllocError>
    ensures names { IfOk result (λ names.
        map (λ name. name.now) names.items ≡ map abi_name abis.now) }
    ensures count { IfOk result (λ names. vec_len names ≡ length abis.now) }
{
    let mut names = Vec::with_capacity(alloc, abis.len())?;
    for abi in abis {
        names.push(abi.as_str())?;
    }
    Ok(names)
}

/// The convention at the place, at which there has to be one.
fn item_at(abis: &[ExternAbi], place: usize) -> ExternAbi
    requires { place < length abis.now }
    ensures { slice_get abis.now place ≡ Some result }
{
    abis[place]
}
