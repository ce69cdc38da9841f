//! Operating systems, and what stands in place of one, as `cfg` tells of them.

use rust_source::Family;
use rust_source::Family::{Neither, Unix, Wasm, Windows};

/// The system, its environment, the ABI, the vendor, the family, and what a panic does.
#[derive(Clone, Copy)]
pub(super) struct System(
    pub(super) &'static str,
    pub(super) &'static str,
    pub(super) &'static str,
    pub(super) &'static str,
    pub(super) Family,
    pub(super) &'static str,
);

pub(super) const LINUX_GNU: System = System("linux", "gnu", "", "unknown", Unix, "unwind");

pub(super) const WINDOWS_MSVC: System = System("windows", "msvc", "", "pc", Windows, "unwind");

pub(super) const MACOS: System = System("macos", "", "", "apple", Unix, "unwind");

pub(super) const LINUX_GNU_EABIHF: System = System(
    "linux", "gnu", "eabihf", "unknown", Unix, "unwind",
);

pub(super) const NO_SYSTEM_EABIHF: System = System(
    "none", "", "eabihf", "unknown", Neither, "abort",
);

pub(super) const NO_SYSTEM_EABI: System = System("none", "", "eabi", "unknown", Neither, "abort");

pub(super) const NO_SYSTEM: System = System("none", "", "", "unknown", Neither, "abort");

pub(super) const LINUX_GNU_ELFV1: System = System(
    "linux", "gnu", "elfv1", "unknown", Unix, "unwind",
);

pub(super) const LINUX_GNU_ELFV2: System = System(
    "linux", "gnu", "elfv2", "unknown", Unix, "unwind",
);

pub(super) const AIX: System = System("aix", "", "vec-extabi", "ibm", Unix, "unwind");

pub(super) const LINUX_GNU_ABI64: System = System(
    "linux", "gnu", "abi64", "unknown", Unix, "unwind",
);

pub(super) const LINUX_GNU_ABIV2: System = System(
    "linux", "gnu", "abiv2", "unknown", Unix, "unwind",
);

pub(super) const LINUX_MUSL: System = System("linux", "musl", "", "unknown", Unix, "unwind");

pub(super) const WASM_UNKNOWN: System = System("unknown", "", "", "unknown", Wasm, "abort");

pub(super) const CUDA: System = System("cuda", "", "", "nvidia", Neither, "abort");

pub(super) const AMDHSA: System = System("amdhsa", "", "", "amd", Neither, "abort");

pub(super) const NO_SYSTEM_UNWIND: System = System("none", "", "", "unknown", Neither, "unwind");

pub(super) const NO_SYSTEM_ESPRESSIF: System = System(
    "none",
    "",
    "",
    "espressif",
    Neither,
    "abort",
);

pub(super) const LINUX_MUSL_EABIHF: System = System(
    "linux", "musl", "eabihf", "unknown", Unix, "unwind",
);

pub(super) const WINDOWS_GNU: System = System("windows", "gnu", "", "pc", Windows, "unwind");

pub(super) const WINDOWS_GNULLVM: System = System(
    "windows", "gnu", "llvm", "pc", Windows, "unwind",
);

pub(super) const ANDROID: System = System("android", "", "", "unknown", Unix, "unwind");

pub(super) const ANDROID_EABI: System = System("android", "", "eabi", "unknown", Unix, "unwind");

pub(super) const IOS: System = System("ios", "", "", "apple", Unix, "unwind");

pub(super) const IOS_SIMULATOR: System = System("ios", "sim", "sim", "apple", Unix, "unwind");

pub(super) const FREEBSD: System = System("freebsd", "", "", "unknown", Unix, "unwind");

pub(super) const NETBSD: System = System("netbsd", "", "", "unknown", Unix, "unwind");

pub(super) const OPENBSD: System = System("openbsd", "", "", "unknown", Unix, "unwind");

pub(super) const SOLARIS_PC: System = System("solaris", "", "", "pc", Unix, "unwind");

pub(super) const SOLARIS_SUN: System = System("solaris", "", "", "sun", Unix, "unwind");

pub(super) const ILLUMOS: System = System("illumos", "", "", "unknown", Unix, "unwind");

pub(super) const FUCHSIA: System = System("fuchsia", "", "", "unknown", Unix, "unwind");

pub(super) const WASI_P1: System = System("wasi", "p1", "", "unknown", Wasm, "abort");
