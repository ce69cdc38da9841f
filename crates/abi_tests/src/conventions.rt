//! Calling conventions: their numbers, names, order and hashes.

use abi_base::AbiFromStrErr;
use abi_types::{ArmCall, CanonAbi, ExternAbi, InterruptKind, X86Call};
use std::hash::{DefaultHasher, Hash, Hasher};

/// Each convention's number, name and variant.
static CONVENTIONS: [(u8, &str, ExternAbi); 40] = [
    (0, "C", ExternAbi::C { unwind: false }),
    (1, "C-unwind", ExternAbi::C { unwind: true }),
    (2, "Rust", ExternAbi::Rust),
    (3, "Swift", ExternAbi::Swift),
    (4, "aapcs", ExternAbi::Aapcs { unwind: false }),
    (5, "aapcs-unwind", ExternAbi::Aapcs { unwind: true }),
    (6, "avr-interrupt", ExternAbi::AvrInterrupt),
    (
        7,
        "avr-non-blocking-interrupt",
        ExternAbi::AvrNonBlockingInterrupt,
    ),
    (8, "cdecl", ExternAbi::Cdecl { unwind: false }),
    (9, "cdecl-unwind", ExternAbi::Cdecl { unwind: true }),
    (10, "cmse-nonsecure-call", ExternAbi::CmseNonSecureCall),
    (11, "cmse-nonsecure-entry", ExternAbi::CmseNonSecureEntry),
    (12, "custom", ExternAbi::Custom),
    (13, "efiapi", ExternAbi::EfiApi),
    (14, "fastcall", ExternAbi::Fastcall { unwind: false }),
    (15, "fastcall-unwind", ExternAbi::Fastcall { unwind: true }),
    (16, "gpu-kernel", ExternAbi::GpuKernel),
    (17, "llvm-intrinsic", ExternAbi::LlvmIntrinsic),
    (18, "msp430-interrupt", ExternAbi::Msp430Interrupt),
    (19, "ptx-kernel", ExternAbi::PtxKernel),
    (20, "riscv-interrupt-m", ExternAbi::RiscvInterruptM),
    (21, "riscv-interrupt-s", ExternAbi::RiscvInterruptS),
    (22, "rust-call", ExternAbi::RustCall),
    (23, "rust-cold", ExternAbi::RustCold),
    (24, "rust-invalid", ExternAbi::RustInvalid),
    (25, "rust-preserve-none", ExternAbi::RustPreserveNone),
    (26, "stdcall", ExternAbi::Stdcall { unwind: false }),
    (27, "stdcall-unwind", ExternAbi::Stdcall { unwind: true }),
    (28, "system", ExternAbi::System { unwind: false }),
    (29, "system-unwind", ExternAbi::System { unwind: true }),
    (30, "sysv64", ExternAbi::SysV64 { unwind: false }),
    (31, "sysv64-unwind", ExternAbi::SysV64 { unwind: true }),
    (32, "tail", ExternAbi::RustTail),
    (33, "thiscall", ExternAbi::Thiscall { unwind: false }),
    (34, "thiscall-unwind", ExternAbi::Thiscall { unwind: true }),
    (35, "vectorcall", ExternAbi::Vectorcall { unwind: false }),
    (
        36,
        "vectorcall-unwind",
        ExternAbi::Vectorcall { unwind: true },
    ),
    (37, "win64", ExternAbi::Win64 { unwind: false }),
    (38, "win64-unwind", ExternAbi::Win64 { unwind: true }),
    (39, "x86-interrupt", ExternAbi::X86Interrupt),
];

/// Whether the number is that of the convention, and so is the name, both ways.
fn is_convention(number: u8, name: &str, abi: ExternAbi) -> bool {
    number < 40
        && abi.as_packed() == number
        && ExternAbi::from_packed(number) == abi
        && abi.as_str() == name
        && abi.name() == name
        && name.parse() == Ok(abi)
}

/// The canonical conventions, as they ascend.
static CANONICAL: [CanonAbi; 23] = [
    CanonAbi::C,
    CanonAbi::Rust,
    CanonAbi::RustCold,
    CanonAbi::RustPreserveNone,
    CanonAbi::RustTail,
    CanonAbi::Custom,
    CanonAbi::Swift,
    CanonAbi::Arm(ArmCall::Aapcs),
    CanonAbi::Arm(ArmCall::CCmseNonSecureCall),
    CanonAbi::Arm(ArmCall::CCmseNonSecureEntry),
    CanonAbi::GpuKernel,
    CanonAbi::Interrupt(InterruptKind::Avr),
    CanonAbi::Interrupt(InterruptKind::AvrNonBlocking),
    CanonAbi::Interrupt(InterruptKind::Msp430),
    CanonAbi::Interrupt(InterruptKind::RiscvMachine),
    CanonAbi::Interrupt(InterruptKind::RiscvSupervisor),
    CanonAbi::Interrupt(InterruptKind::X86),
    CanonAbi::X86(X86Call::Fastcall),
    CanonAbi::X86(X86Call::Stdcall),
    CanonAbi::X86(X86Call::SysV64),
    CanonAbi::X86(X86Call::Thiscall),
    CanonAbi::X86(X86Call::Vectorcall),
    CanonAbi::X86(X86Call::Win64),
];

/// Texts that are no convention's name, and no words.
static OTHER_TEXTS: [&str; 3] = ["", "C-unwind ", " C"];

/// Whether the text is no convention's name.
fn is_no_convention(text: &str) -> bool {
    text.parse::<ExternAbi>() == Err(AbiFromStrErr::Unknown)
}

#[test]
fn conventions_have_numbers_and_names(rt: HostRuntime) {
    for &(number, name, abi) in &CONVENTIONS {
        assert!(rt; is_convention(number, name, abi), "{name}");
    }
    for &text in &OTHER_TEXTS {
        assert!(rt; is_no_convention(text), "{text}");
    }
}

/// Whether conventions ascend by their names, Rust's among all and the canonical ones among theirs.
fn do_ascend(abis: &[ExternAbi], canonical: &[CanonAbi]) -> bool {
    for i in 1..abis.len() {
        if abis[i - 1] >= abis[i] {
            return false;
        }
    }
    for i in 1..canonical.len() {
        if canonical[i - 1] >= canonical[i] {
            return false;
        }
    }
    true
}

/// What a hasher makes of the value.
fn hash_of<T: Hash>(value: &T) -> u64 {
    let mut state = DefaultHasher::new();
    value.hash(&mut state);
    state.finish()
}

/// What a hasher makes of the name, and then of the bytes `ABI` and a 0, the first the greatest.
fn hash_of_name(name: &str) -> u64 {
    let mut state = DefaultHasher::new();
    name.hash(&mut state);
    u32::from_be_bytes([0x41, 0x42, 0x49, 0]).hash(&mut state);
    state.finish()
}

#[test]
fn conventions_go_by_their_names(rt: HostRuntime) {
    assert!(rt; do_ascend(&ExternAbi::ALL_VARIANTS, &CANONICAL));
    for unwind in [false, true] {
        let abi = ExternAbi::C { unwind };
        assert!(rt; hash_of(&abi) == hash_of_name(abi.name()));
    }
}
