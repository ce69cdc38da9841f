//! Times calls of the libraries: `CALL SIZE MICROSECONDS ANSWER`, the fastest of nine runs, a line each, with the sum of
//! the sizes that are answered. Standard input has the names of the calls that are asked for, or `all`, and sizes, if
//! not each is wanted; for nothing asked nothing is printed.
#![tactic(auto)]

ghost use Rattle.std.specs.Prelude.{◌≡◌, length};
ghost use Rattle.abi_base.specs.DataLayout.{IsLawfulDataLayout};

mod calculator;
mod inputs;
mod report;
mod trees;
mod values;

use crate::calculator::{
    c_repr, enum_of, one_list, small_lists, time_coroutine, time_enum, time_lists, time_union,
};
use crate::inputs::{Leaf, leaves};
use crate::report::{LINES, Line, Outcome, are_known, is_asked_for};
use crate::trees::{deep_tree, enum_in_turn, struct_of_words, time_layout, time_walk, wide_tree};
use crate::values::{time_least_range, time_parse};
use abi_base::TargetDataLayout;
use abi_scalar::ReprOptions;
use std::io;

/// Times the call of a line, of at most so many fields, variants, locals, specs or values.
fn time_line(rt: &HostRuntime, dl: &TargetDataLayout, leaves: &[Leaf], line: Line) -> Outcome
    requires data_layout { IsLawfulDataLayout dl.now }
    requires leaves { length leaves.now ≡ 5 }
{
    let (alloc, name, size) = (rt.alloc(), line.name, line.size);
    if size > 1_000_000 {
        return Err(io::Error::other("the size is too great"));
    }
    let repr = ReprOptions::default();
    match name {
        "univariant_free" => time_lists(rt, dl, line, one_list(alloc, leaves, size)?, repr),
        "univariant_c" => time_lists(rt, dl, line, one_list(alloc, leaves, size)?, c_repr()),
        "univariant_small_1000_times" => {
            time_lists(rt, dl, line, small_lists(alloc, leaves)?, repr)
        }
        "small_c_1000_times" => time_lists(rt, dl, line, small_lists(alloc, leaves)?, c_repr()),
        "union" => time_union(rt, dl, line, one_list(alloc, leaves, size)?),
        "coroutine" if size > 8 && size <= 1000 => time_coroutine(rt, dl, leaves, line),
        "coroutine" => Err(io::Error::other("a coroutine has 9 to 1000 locals")),
        "parse" => time_parse(rt, line),
        "smallest_range_containing" => time_least_range(rt, line, 1),
        "smallest_range_spread" => time_least_range(rt, line, 2),
        "lay_out_wide" => time_layout(rt, dl, line, wide_tree(alloc, size)?),
        "lay_out_deep" => time_layout(rt, dl, line, deep_tree(alloc, size)?),
        "padding_wide" | "padding_walk_wide" => time_walk(rt, dl, line, wide_tree(alloc, size)?),
        "variant_dependent_padding_ranges" => time_walk(rt, dl, line, enum_in_turn(alloc, size)?),
        "homogeneous_aggregate" => time_walk(rt, dl, line, struct_of_words(alloc, size)?),
        _ => time_enum(rt, dl, line, enum_of(alloc, leaves, name, size)?),
    }
}

/// Times what the words ask for.
fn time_all(rt: &HostRuntime, words: &str) -> io::Result<()> {
    let dl = TargetDataLayout::default_in(rt.alloc())?;
    let leaves = leaves(rt.alloc(), &dl)?;
    for &(name, sizes) in &LINES {
        for &size in sizes {
            if is_asked_for(words, name, size) {
                time_line(rt, &dl, &leaves, Line { name, size })?;
            }
        }
    }
    Ok(())
}

fn main(rt: HostRuntime) -> io::Result<()> {
    let words = io::read_to_string(rt.alloc(), rt.reader())?;
    if !are_known(&words) {
        return Err(io::Error::other("some word is no call, no size and not `all`"));
    }
    time_all(&rt, &words)
}
