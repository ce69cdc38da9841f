//! The lines of the report: which are asked for, and how long the call of one takes.

use std::alloc::Global;
use std::io;
use std::time::{Duration, Instant};

/// That a line is printed, or why it isn't.
pub(crate) type Outcome = io::Result<()>;

/// A line: the name of its call, and the size of what that is given.
#[derive(Clone, Copy)]
pub(crate) struct Line {
    pub(crate) name: &'static str,
    pub(crate) size: u64,
}

const TO_A_MILLION: &[u64] = &[1000, 10_000, 100_000, 1_000_000];

const TWO: &[u64] = &[1000, 100_000];

/// Each call by its name, and its sizes. Small lists are a thousand short ones; enums are of units, of ten fields a variant,
/// of one field beside the niche of the first variant, and of one field without a niche; values of a range are in half of
/// all numbers, or spread over all.
pub(crate) static LINES: [(&str, &[u64]); 19] = [
    ("univariant_free", TO_A_MILLION),
    ("univariant_c", TO_A_MILLION),
    ("union", TO_A_MILLION),
    ("univariant_small_1000_times", &[1000]),
    ("small_c_1000_times", &[1000]),
    ("enum_units", &[1000, 10_000, 100_000]),
    ("enum_ten_fields", &[100, 1000, 10_000]),
    ("enum_niche", &[1000, 10_000, 100_000]),
    ("enum_no_niche", &[1000, 10_000, 100_000]),
    ("coroutine", &[100, 200, 400]),
    ("parse", &[10_000, 100_000, 1_000_000]),
    ("smallest_range_containing", TWO),
    ("smallest_range_spread", TWO),
    ("lay_out_wide", &[100_000]),
    ("lay_out_deep", &[200]),
    ("padding_wide", &[100_000]),
    ("padding_walk_wide", &[100_000]),
    ("variant_dependent_padding_ranges", TWO),
    ("homogeneous_aggregate", TWO),
];

/// Whether each word is a call that can be timed, `all`, or a size.
pub(crate) fn are_known(words: &str) -> bool {
    for word in words.split_ascii_whitespace() {
        let mut is_known = word == "all" || word.parse::<u64>().is_ok();
        for &(name, _sizes) in &LINES {
            is_known = is_known || word == name;
        }
        if !is_known {
            return false;
        }
    }
    true
}

/// Whether the words ask for a call at a size: some word is the call's name, or `all`, and some is the size, or none is
/// a size.
pub(crate) fn is_asked_for(words: &str, name: &str, size: u64) -> bool {
    let (mut is_named, mut is_sized, mut is_any_size) = (false, false, true);
    for word in words.split_ascii_whitespace() {
        is_named = is_named || word == name || word == "all";
        if let Ok(wanted) = word.parse::<u64>() {
            is_any_size = false;
            is_sized = is_sized || wanted == size;
        }
    }
    is_named && (is_sized || is_any_size)
}

/// How often each call is made.
const RUNS: u32 = 9;

/// How long a call takes, and what it answers.
fn run_once<F: Fn(Global) -> u64>(rt: &HostRuntime, call: &F) -> io::Result<(Duration, u64)>
    requires { F.IsAlwaysCallable call.now }
{
    let start = Instant::now(rt)?;
    let answer = call(rt.alloc());
    let took = start.elapsed(rt)?;
    Ok((took, answer))
}

/// Prints a line: its name and size, the microseconds of the fastest run of its call, and what that answers: a size, or a
/// sum of sizes. What answers 0 was refused, which is an error.
pub(crate) fn time<F: Fn(Global) -> u64>(rt: &HostRuntime, line: Line, call: &F) -> Outcome
    requires { F.IsAlwaysCallable call.now }
{
    let Line { name, size } = line;
    let mut fastest = Duration::MAX;
    let mut answer = 0;
    for _ in 0..RUNS {
        let (took, answered) = run_once(rt, call)?;
        fastest = fastest.min(took);
        answer = answered;
    }
    if answer == 0 {
        let text = format!(in rt.alloc(); "{name} {size} is refused")?;
        return Err(io::Error::other(&text));
    }
    let microseconds = fastest.as_nanos().saturating_add(500) / 1000;
    println!(rt; "{name} {size} {microseconds} {answer}")
}
