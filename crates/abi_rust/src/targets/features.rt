//! The features that a target's processors have without asking, as `cfg(target_feature)` tells of them.

/// x86: what Linux, the BSDs and 32-bit Windows rely on.
pub(super) const SSE2: &[&str] = &["fxsr", "sse", "sse2"];

/// x86: what 64-bit Windows relies on.
pub(super) const SSE3: &[&str] = &["cmpxchg16b", "fxsr", "sse", "sse2", "sse3"];

/// x86: what Apple's have.
pub(super) const SSE4: &[&str] = &[
    "cmpxchg16b",
    "fxsr",
    "sse",
    "sse2",
    "sse3",
    "sse4.1",
    "ssse3",
];

/// 64-bit Arm.
pub(super) const NEON: &[&str] = &["neon"];

/// Arm: what Apple's Macs have.
pub(super) const APPLE_M1: &[&str] = &[
    "aes", "crc", "dit", "dotprod", "dpb", "dpb2", "fcma", "fhm", "flagm", "fp16", "frintts",
    "jsconv", "lor", "lse", "neon", "paca", "pacg", "pan", "pmuv3", "ras", "rcpc", "rcpc2", "rdm",
    "sb", "sha2", "sha3", "ssbs", "vh",
];

/// None that `cfg` tells of.
pub(super) const NO_FEATURES: &[&str] = &[];

/// RISC-V: the extensions that `imac` names.
pub(super) const RISCV_IMAC: &[&str] = &["a", "c", "m", "zaamo", "zalrsc", "zca"];

/// RISC-V: the extensions that `gc` names, as far as `cfg` tells of them.
pub(super) const RISCV_GC: &[&str] = &[
    "a", "c", "m", "zaamo", "zalrsc", "zca", "zicsr", "zifencei",
];

/// LoongArch.
pub(super) const LSX: &[&str] = &["d", "f", "lsx"];

/// WebAssembly: what a module may use.
pub(super) const WASM: &[&str] = &[
    "bulk-memory",
    "multivalue",
    "mutable-globals",
    "nontrapping-fptoint",
    "reference-types",
    "sign-ext",
];

/// x86: `SSE2` where the C library is linked statically.
pub(super) const STATIC_SSE2: &[&str] = &["crt-static", "fxsr", "sse", "sse2"];

/// Arm: `NEON` where the C library is linked statically.
pub(super) const STATIC_NEON: &[&str] = &["crt-static", "neon"];

/// The C library is linked statically.
pub(super) const STATIC: &[&str] = &["crt-static"];

/// x86: what 64-bit Android relies on.
pub(super) const SSE4_POPCNT: &[&str] = &[
    "fxsr", "popcnt", "sse", "sse2", "sse3", "sse4.1", "sse4.2", "ssse3",
];

/// x86: what 32-bit Android relies on.
pub(super) const SSSE3: &[&str] = &["fxsr", "sse", "sse2", "sse3", "ssse3"];

/// Arm: what Apple's telephones have.
pub(super) const APPLE_A7: &[&str] = &["aes", "neon", "pmuv3", "sha2"];

/// Arm: what the simulator of Apple's telephones has.
pub(super) const APPLE_A12: &[&str] = &[
    "aes", "crc", "dpb", "fcma", "fp16", "jsconv", "lor", "lse", "neon", "paca", "pacg", "pan",
    "pmuv3", "ras", "rcpc", "rdm", "sha2", "vh",
];

/// x86: what Fuchsia relies on.
pub(super) const SSE4_CX16: &[&str] = &[
    "cmpxchg16b",
    "fxsr",
    "popcnt",
    "sse",
    "sse2",
    "sse3",
    "sse4.1",
    "sse4.2",
    "ssse3",
];

/// Arm: what Fuchsia relies on.
pub(super) const NEON_CRYPTO: &[&str] = &["aes", "crc", "neon", "sha2"];

/// WebAssembly: `WASM` where WASI's C library is linked statically.
pub(super) const WASI: &[&str] = &[
    "bulk-memory",
    "crt-static",
    "multivalue",
    "mutable-globals",
    "nontrapping-fptoint",
    "reference-types",
    "sign-ext",
];

/// x86 without vectors.
pub(super) const FXSR: &[&str] = &["fxsr"];
