//! What the parts of a type are called.

use abi_tree::PartName;
use std::alloc::AllocError;

/// What the parts of a type are called in a map.
pub trait Called {
    ghost use Rattle.std.specs.Prelude.{◌≡◌, ◌++◌, ℕ, List, OnOk, string_bytes};
    ghost use Rattle.abi_tree.specs.declared.parts.PartName.{PartName};

    /// What a part is called, as text.
    ghost called: { Self → PartName → List ℕ };

    /// Writes what a part is called. An error comes where a growth of memory was refused.
    fn write_name(&self, out: &mut String, name: PartName) -> Result<(), AllocError>
        ensures { OnOk result (string_bytes out.new ≡ string_bytes out.old ++ called self.now name) };
}

/// Fields and variants are called by their indices, as `field 0` and `variant 1 field 0`.
#[derive(Clone, Copy)]
pub struct ByIndex;

impl Called for ByIndex {
    ghost use Rattle.abi_map.specs.Map.{called_text};

    ghost called = { λ _ name. called_text name };

    fn write_name(&self, out: &mut String, name: PartName) -> Result<(), AllocError> {
        match name {
            PartName::Number => out.push_str("number"),
            PartName::Elements => out.push_str("elements"),
            PartName::Lanes => out.push_str("lanes"),
            PartName::Field(i) => write!(out, "field {i}"),
            PartName::Tag => out.push_str("tag"),
            PartName::VariantField(v, i) => write!(out, "variant {v} field {i}"),
        }
    }
}
