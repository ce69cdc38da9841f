//! Values as numbers.

ghost use Rattle.std.specs.Prelude.{◌≡◌, ◌++◌, ◌∷◌, IfOk, OnOk, length};
ghost use Rattle.abi_tree.specs.Value.{value_of, values_of};
ghost use Rattle.abi_c.specs.Numbers.FlatValue.{flat_value, flat_values, values_count};

use crate::numbers::layout::write_wide;
use abi_tree::Value;
use std::alloc::{AllocError, Global};

/// Adds bytes behind their count.
pub(crate) fn write_bytes(out: &mut Vec<u64>, bytes: &[u8]) -> Result<(), AllocError>
    ensures { OnOk result (out.new.items ≡ out.old.items ++ (length bytes.now ∷ bytes.now)) }
{
    out.push(bytes.len() as u64)?;
    for byte in bytes {
        out.push(u64::from(*byte))?;
    }
    Ok(())
}

/// Adds a value.
#[cycle(write)]
fn write_one(out: &mut Vec<u64>, value: &Value) -> Result<(), AllocError>
    ensures { OnOk result (out.new.items ≡ out.old.items ++ flat_value (value_of value.now)) }
{
    match value {
        Value::Num(number) => {
            out.push(0)?;
            write_wide(out, *number)
        }
        Value::Pair(first, second) => {
            out.push(1)?;
            write_wide(out, *first)?;
            write_wide(out, *second)
        }
        Value::List(values) => {
            out.push(2)?;
            write_each(out, values)
        }
        Value::Variant(index, values) => {
            out.extend_from_slice(&[3, *index as u64])?;
            write_each(out, values)
        }
        Value::State {
            state,
            prefix,
            locals,
        } => {
            out.extend_from_slice(&[4, *state as u64])?;
            write_each(out, prefix)?;
            write_each(out, locals)
        }
        Value::Union(bytes) => {
            out.push(5)?;
            write_bytes(out, bytes)
        }
    }
}

/// Adds values behind their count.
#[cycle(write)]
fn write_each(out: &mut Vec<u64>, values: &[Value]) -> Result<(), AllocError>
    ensures { OnOk result (out.new.items ≡ out.old.items ++
        (values_count (values_of values.now) ∷ flat_values (values_of values.now))) }
{
    out.push(values.len() as u64)?;
    for value in values {
        write_one(out, value)?;
    }
    Ok(())
}

/// The numbers of a value, as `docs/NUMBERS.md` has them. `AllocError` where a growth of memory was refused.
pub(crate) fn write_flat_value(alloc: Global, value: &Value) -> Result<Vec<u64>, AllocError>
    ensures { IfOk result (λ numbers. numbers.items ≡ flat_value (value_of value.now)) }
{
    let mut out = Vec::new(alloc);
    write_one(&mut out, value)?;
    Ok(out)
}
