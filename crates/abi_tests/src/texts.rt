//! What is written of sizes, scalars, conventions, flags and errors.

use abi_base::{
    AbiAlign, AddressSpace, Align, AlignFromBytesError, Endian, Float, Integer, NoSuchInteger,
    Primitive, Size, TargetDataLayout, TargetDataLayoutError, UnknownEndian, UnknownEndianText,
};
use abi_scalar::{LayoutCalculatorError, ReprFlags, Scalar, WrappingRange};
use abi_types::{ArmCall, CanonAbi, InterruptKind, X86Call};
use bitflags::Flags;
use std::alloc::{AllocError, Global};
use std::test::Fail;

/// Whether this is what is written.
pub(crate) fn is_text(written: Result<String, AllocError>, text: &str) -> Result<bool, AllocError> {
    Ok(written?.as_str() == text)
}

/// What is written.
#[derive(Clone, Copy)]
enum Sample {
    Refusal(LayoutCalculatorError<u8>),
    /// A scalar of this primitive, with a range between these.
    Scalar(Primitive, u128, u128),
    /// A primitive, in a union and alone.
    Union(Primitive),
    /// A calling convention: as it is, at the right of eight places, and in the middle of nine, between dashes.
    Convention(CanonAbi),
    ConventionAtTheRight(CanonAbi),
    ConventionInTheMiddle(CanonAbi),
    /// A size and alignments.
    Sizes,
    /// A range, and one that wraps round.
    Ranges,
    /// Bytes that are no alignments.
    Alignments,
    /// Byte orders, texts that are none, and a size that no integer has.
    ByteOrders,
    /// Errors of the target's, which the parser never answers.
    Target,
}

/// The text of it.
fn text_of(alloc: Global, sample: Sample) -> Result<String, AllocError> {
    match sample {
        Sample::Refusal(refusal) => format!(in alloc; "{refusal}"),
        Sample::Scalar(value, start, end) => {
            let valid_range = WrappingRange { start, end };
            format!(in alloc; "{:?}", Scalar::Initialized { value, valid_range })
        }
        Sample::Union(value) => format!(in alloc; "{:?}, {value:?}", Scalar::Union { value }),
        Sample::Convention(abi) => format!(in alloc; "{abi}"),
        Sample::ConventionAtTheRight(abi) => format!(in alloc; "{abi:>8}"),
        Sample::ConventionInTheMiddle(abi) => format!(in alloc; "{abi:-^9}"),
        Sample::Sizes => {
            let (size, align) = (Size::from_bytes(4), AbiAlign::new(Align::EIGHT));
            format!(in alloc; "{size:?} {:?} {align:?}", Align::FOUR)
        }
        Sample::Ranges => {
            let plain = WrappingRange { start: 0, end: 1 };
            let wrapping = WrappingRange { start: 255, end: 1 };
            format!(in alloc; "{plain:?}, {wrapping:?}")
        }
        Sample::Alignments => {
            let not_power = AlignFromBytesError::NotPowerOfTwo(3);
            let too_large = AlignFromBytesError::TooLarge(1 << 30);
            format!(in alloc; "{not_power}, {not_power:?}, {too_large}")
        }
        Sample::ByteOrders => text_of_byte_orders(alloc),
        Sample::Target => text_of_target(alloc),
    }
}

/// Byte orders, texts that are none, and a size that no integer has.
fn text_of_byte_orders(alloc: Global) -> Result<String, AllocError> {
    format!(in alloc;
        "{:?} {:?} {}: {}; {}",
        Endian::Little,
        Endian::Big,
        UnknownEndian,
        UnknownEndianText { text: "x" },
        NoSuchInteger(24)
    )
}

/// Errors of the target's, which the parser never answers.
fn text_of_target(alloc: Global) -> Result<String, AllocError> {
    let order = TargetDataLayoutError::InconsistentTargetArchitecture {
        dl: "big",
        target: "little",
    };
    let width = TargetDataLayoutError::InconsistentTargetPointerWidth {
        pointer_size: 64,
        target: 32,
    };
    format!(in alloc; "{order}; {width}; {}", TargetDataLayoutError::OutOfMemory)
}

const SIMD: &str = "invalid simd type definition";

const UNSIGNED: Primitive = Primitive::Int(Integer::I8, false);

const SIGNED: Primitive = Primitive::Int(Integer::I8, true);

const POINTER: Primitive = Primitive::Pointer(AddressSpace::ZERO);

const FLOAT: Primitive = Primitive::Float(Float::F32);

/// Each of them, as it is written.
static TEXTS: [(Sample, &str); 53] = [
    (
        Sample::Refusal(LayoutCalculatorError::UnexpectedUnsized(1)),
        "an unsized type was found where a sized type was expected",
    ),
    (
        Sample::Refusal(LayoutCalculatorError::SizeOverflow),
        "size overflow",
    ),
    (
        Sample::Refusal(LayoutCalculatorError::EmptyUnion),
        "type is a union with no fields",
    ),
    (
        Sample::Refusal(LayoutCalculatorError::ReprConflict),
        "type has an invalid repr",
    ),
    (
        Sample::Refusal(LayoutCalculatorError::ZeroLengthSimdType),
        SIMD,
    ),
    (
        Sample::Refusal(LayoutCalculatorError::OversizedSimdType { max_lanes: 32_768 }),
        SIMD,
    ),
    (
        Sample::Refusal(LayoutCalculatorError::NonPrimitiveSimdType(1)),
        SIMD,
    ),
    (
        Sample::Refusal(LayoutCalculatorError::OutOfMemory),
        "out of memory",
    ),
    (Sample::Scalar(UNSIGNED, 0, 1), "u8 is 0..=1"),
    (Sample::Scalar(UNSIGNED, 0, 255), "u8 is .."),
    (Sample::Scalar(UNSIGNED, 1, 0), "u8 is (..=0) | (1..)"),
    (Sample::Scalar(SIGNED, 0, 255), "i8 is .."),
    (Sample::Scalar(SIGNED, 255, 1), "i8 is -1..=1"),
    (Sample::Scalar(SIGNED, 100, 200), "i8 is (..=-56) | (100..)"),
    (Sample::Scalar(POINTER, 0, u128::MAX), "pointer is .."),
    (Sample::Scalar(POINTER, 0, 65_535), "pointer is 0..=65535"),
    (Sample::Scalar(FLOAT, 0, 0xFFFF_FFFF), "f32 is .."),
    (Sample::Union(UNSIGNED), "union u8, u8"),
    (
        Sample::Union(Primitive::Int(Integer::I64, true)),
        "union i64, i64",
    ),
    (Sample::Union(FLOAT), "union f32, f32"),
    (
        Sample::Union(Primitive::Float(Float::PpcF128)),
        "union ppcf128, ppcf128",
    ),
    (Sample::Union(POINTER), "union pointer, pointer"),
    (
        Sample::Union(Primitive::Pointer(AddressSpace(5))),
        "union pointer(AddressSpace(5)), pointer(AddressSpace(5))",
    ),
    (Sample::Sizes, "Size(4 bytes) Align(4 bytes) Align(8 bytes)"),
    (Sample::Ranges, "0..=1, (..=1) | (255..)"),
    (
        Sample::Alignments,
        "3 is not a power of 2, 3 is not a power of 2, 1073741824 is too large",
    ),
    (
        Sample::Target,
        "byte order big, not little; pointers of 64, not 32 bits; out of memory",
    ),
    (Sample::Convention(CanonAbi::C), "C"),
    (Sample::Convention(CanonAbi::Rust), "Rust"),
    (Sample::Convention(CanonAbi::RustCold), "rust-cold"),
    (
        Sample::Convention(CanonAbi::RustPreserveNone),
        "rust-preserve-none",
    ),
    (Sample::Convention(CanonAbi::RustTail), "tail"),
    (Sample::Convention(CanonAbi::Custom), "custom"),
    (Sample::Convention(CanonAbi::Swift), "Swift"),
    (Sample::Convention(CanonAbi::Arm(ArmCall::Aapcs)), "aapcs"),
    (
        Sample::Convention(CanonAbi::Arm(ArmCall::CCmseNonSecureCall)),
        "cmse-nonsecure-call",
    ),
    (
        Sample::Convention(CanonAbi::Arm(ArmCall::CCmseNonSecureEntry)),
        "cmse-nonsecure-entry",
    ),
    (Sample::Convention(CanonAbi::GpuKernel), "gpu-kernel"),
    (
        Sample::Convention(CanonAbi::Interrupt(InterruptKind::Avr)),
        "avr-interrupt",
    ),
    (
        Sample::Convention(CanonAbi::Interrupt(InterruptKind::AvrNonBlocking)),
        "avr-non-blocking-interrupt",
    ),
    (
        Sample::Convention(CanonAbi::Interrupt(InterruptKind::Msp430)),
        "msp430-interrupt",
    ),
    (
        Sample::Convention(CanonAbi::Interrupt(InterruptKind::RiscvMachine)),
        "riscv-interrupt-m",
    ),
    (
        Sample::Convention(CanonAbi::Interrupt(InterruptKind::RiscvSupervisor)),
        "riscv-interrupt-s",
    ),
    (
        Sample::Convention(CanonAbi::Interrupt(InterruptKind::X86)),
        "x86-interrupt",
    ),
    (
        Sample::Convention(CanonAbi::X86(X86Call::Fastcall)),
        "fastcall",
    ),
    (
        Sample::Convention(CanonAbi::X86(X86Call::Stdcall)),
        "stdcall",
    ),
    (Sample::Convention(CanonAbi::X86(X86Call::SysV64)), "sysv64"),
    (
        Sample::Convention(CanonAbi::X86(X86Call::Thiscall)),
        "thiscall",
    ),
    (
        Sample::Convention(CanonAbi::X86(X86Call::Vectorcall)),
        "vectorcall",
    ),
    (Sample::Convention(CanonAbi::X86(X86Call::Win64)), "win64"),
    (Sample::ConventionAtTheRight(CanonAbi::Swift), "   Swift"),
    (
        Sample::ConventionAtTheRight(CanonAbi::RustCold),
        "rust-cold",
    ),
    (
        Sample::ConventionInTheMiddle(CanonAbi::RustTail),
        "--tail---",
    ),
];

#[test]
fn values_and_errors_have_texts(rt: HostRuntime) -> Result<(), Fail> {
    for &(sample, text) in &TEXTS {
        assert!(rt; is_text(text_of(rt.alloc(), sample), text)?, "{text}");
    }
    Ok(())
}

/// The flags, as they are written.
fn text_of_flags(alloc: Global, bits: u8) -> Result<String, AllocError> {
    format!(in alloc; "{:?}", ReprFlags::from_bits_retain(bits))
}

/// Flags, and how they are written.
static FLAGS: [(u8, &str); 6] = [
    (0, ""),
    (1, "IS_C"),
    (3, "IS_C | IS_SIMD"),
    (75, "IS_C | IS_SIMD | IS_LINEAR | IS_SCALABLE"),
    (
        52,
        "IS_TRANSPARENT | RANDOMIZE_LAYOUT | PASS_INDIRECTLY_IN_NON_RUSTIC_ABIS",
    ),
    (128, "0x80"),
];

#[test]
fn flags_are_written(rt: HostRuntime) -> Result<(), Fail> {
    for &(bits, text) in &FLAGS {
        assert!(rt; is_text(text_of_flags(rt.alloc(), bits), text)?, "{text}");
    }
    Ok(())
}

/// What is said of a text that is no data layout string; nothing of one that is.
fn text_of_refusal(alloc: Global, text: &str) -> Result<String, AllocError> {
    match TargetDataLayout::parse_from_llvm_datalayout_string(alloc, text, AddressSpace::ZERO) {
        Ok(_) => Ok(String::new(alloc)),
        Err(error) => format!(in alloc; "{error}"),
    }
}

/// Each text, and what is said of it.
static DATA_LAYOUTS: [(&str, &str); 6] = [
    ("P", "address space \"\" of \"P\": no number"),
    ("ix:32", "size \"x\" of \"i\": not a decimal number"),
    ("i64", "no alignment of \"i64\""),
    ("a:24", "alignment of \"a\": 3 is not a power of 2"),
    ("px:64:64", "unknown kind of pointers \"x\""),
    ("e", ""),
];

#[test]
fn refused_data_layouts_have_texts(rt: HostRuntime) -> Result<(), Fail> {
    for &(text, wanted) in &DATA_LAYOUTS {
        assert!(rt;
            is_text(text_of_refusal(rt.alloc(), text), wanted)?,
            "{text}"
        );
    }
    Ok(())
}
