//! Whether a calling convention takes argument lists without an end.

/// Whether functions of a calling convention may take argument lists without an end, as C's do.
#[derive(PartialEq, Eq, Debug, Drop)]
pub enum CVariadicStatus {
    /// No function of the convention takes variable arguments.
    NotSupported,
    /// Functions of the convention may take them, in stable Rust.
    Stable,
    /// They may where a feature of the compiler is on.
    Unstable {
        /// The feature's name.
        feature: &'static str,
    },
}
