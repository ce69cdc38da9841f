//! How the map of a type is written.

ghost use Rattle.std.specs.Prelude.{◌≡◌, ℕ, ◌<◌, ◌++◌, ◌^◌, IfSome, List, OnOk, length, string_bytes};
ghost use Rattle.abi_tree.specs.Laid.{placed_of};
ghost use Rattle.abi_tree.specs.Parts.{Part};
ghost use Rattle.abi_scalar.specs.Lawful.{IsLawfulNiche};
ghost use Rattle.abi_map.specs.Covering.{HaveNames};
ghost use Rattle.abi_map.specs.Map.{bytes_text, names_text, niche_text, run_lines};

use crate::called::Called;
use crate::covering::names_at;
use crate::starts::starts_of;
use abi_base::TargetDataLayout;
use abi_scalar::Niche;
use abi_tree::{Laid, PartName};
use std::alloc::{AllocError, Global};

/// The bytes of a larger type aren't drawn. In bytes.
const MOST_DRAWN: u64 = 65_536;

/// Writes names in a row.
fn write_names<C: Called>(
    out: &mut String,
    called: &C,
    names: &[PartName],
) -> Result<(), AllocError>
    ensures { OnOk result (string_bytes out.new
        ≡ string_bytes out.old ++ names_text (C.called called.now) names.now) }
{
    let Some((first, rest)) = names.split_first() else {
        return out.push_str("padding");
    };
    called.write_name(out, *first)?;
    for name in rest {
        out.push_str(" | ")?;
        called.write_name(out, *name)?;
    }
    Ok(())
}

/// Writes the run that begins at each of these bytes, with the names of the parts that have it.
fn write_runs<C: Called>(
    out: &mut String,
    called: &C,
    starts: &[u64],
    names: &[Vec<PartName>],
    size: u64,
) -> Result<(), AllocError>
    requires { length names.now ≡ length starts.now }
    ensures { OnOk result ((parts : List Part) → HaveNames parts starts.now names.now →
        string_bytes out.new ≡ string_bytes out.old
        ++ run_lines (C.called called.now) parts size starts.now) }
{
    for s in 0..starts.len() {
        let start = starts[s];
        let end = starts.get(s + 1).copied().unwrap_or(size);
        write!(out, "{start}..{end} ")?;
        write_names(out, called, &names[s])?;
        out.push_str("\n")?;
    }
    Ok(())
}

/// Writes the runs of bytes that the same parts have, or that the type has too many bytes.
pub(crate) fn write_bytes<C: Called>(
    alloc: Global,
    out: &mut String,
    called: &C,
    laid: &Laid,
) -> Result<(), AllocError>
    ensures { OnOk result (string_bytes out.new
        ≡ string_bytes out.old ++ bytes_text (C.called called.now) (placed_of laid.now)) }
{
    let size = laid.layout().size.bytes();
    if size > MOST_DRAWN {
        return out.push_str("not drawn\n");
    }
    let (parts, _visits) = laid.parts(alloc)?;
    let starts = starts_of(alloc, &parts, size)?;
    let names = names_at(alloc, &parts, &starts)?;
    write_runs(out, called, &starts, &names, size)
}

/// Writes the bytes of a niche, and how many numbers it has free.
pub(crate) fn write_niche(
    out: &mut String,
    dl: &TargetDataLayout,
    niche: Option<Niche>,
) -> Result<(), AllocError>
    requires { IfSome niche (λ n. (size : ℕ) × (size < 2 ^ 64) × IsLawfulNiche dl.now size n) }
    ensures { OnOk result (string_bytes out.new ≡ string_bytes out.old ++ niche_text dl.now niche) }
{
    let Some(niche) = niche else {
        return out.push_str("niche none\n");
    };
    let start = niche.offset.bytes();
    let end = start + niche.value.size(dl).bytes();
    let free = niche.available(dl);
    write!(out, "niche {start}..{end} {free} free\n")
}
