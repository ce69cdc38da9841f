//! How many runs the bytes of a type make that decide which value it holds: what its padding costs to count.

use abi_tree::{Laid, Nodes, Shape};
use std::alloc::{AllocError, Global};

/// What is known of the bytes of a node that decide its value, before they are made into a set.
#[derive(Clone, Copy)]
struct DataRuns {
    /// They make at most so many runs.
    count: u64,
    /// In bytes, the node's size.
    size: u64,
    /// They are all its bytes. Some nodes of which that isn't said have all, too.
    is_whole: bool,
}

/// The runs of some bytes, which decide all of a value.
fn one_run(size: u64) -> DataRuns {
    DataRuns {
        count: 1,
        size,
        is_whole: true,
    }
}

/// The runs of a part: those of a node before, or none.
fn runs_at(done: &[DataRuns], child: usize) -> DataRuns {
    match done.get(child) {
        Some(runs) => *runs,
        None => one_run(0),
    }
}

/// The runs of parts that lie apart.
fn runs_of_parts(done: &[DataRuns], children: &[usize], size: u64) -> DataRuns {
    let mut count = 0u64;
    let mut covered = 0u64;
    for child in children {
        let part = runs_at(done, *child);
        count = count.saturating_add(part.count);
        if part.is_whole {
            covered = covered.saturating_add(part.size);
        }
    }
    DataRuns {
        count,
        size,
        is_whole: covered == size,
    }
}

/// The runs of fields that lie at one place.
fn runs_of_union(done: &[DataRuns], children: &[usize], size: u64) -> DataRuns {
    let mut runs = runs_of_parts(done, children, size);
    runs.is_whole = false;
    for child in children {
        let part = runs_at(done, *child);
        runs.is_whole |= part.is_whole && part.size == size;
    }
    runs
}

/// The runs of a tag, and of variants beside it.
fn runs_of_variants(
    done: &[DataRuns],
    tag: usize,
    variants: &[(u128, usize)],
    size: u64,
) -> DataRuns {
    let tag = runs_at(done, tag);
    let mut count = tag.count;
    for (_, variant) in variants {
        count = count.saturating_add(runs_at(done, *variant).count);
    }
    DataRuns {
        count,
        size,
        is_whole: tag.size == size,
    }
}

/// The runs of elements: one where each has all its bytes.
fn runs_of_elements(element: DataRuns, count: u64, size: u64) -> DataRuns {
    DataRuns {
        count: if element.is_whole {
            1
        } else {
            element.count.saturating_mul(count)
        },
        size,
        is_whole: element.is_whole,
    }
}

/// The runs of a node, by those of the nodes before it.
fn runs_of_shape(done: &[DataRuns], shape: &Shape, size: u64) -> DataRuns {
    match shape {
        Shape::Scalar(_) => one_run(size),
        Shape::Never(_) => one_run(size),
        Shape::Pair { first, second } => runs_of_parts(done, &[*first, *second], size),
        Shape::Elements { count, element } => {
            runs_of_elements(runs_at(done, *element), *count, size)
        }
        Shape::Fields(_, children) => runs_of_parts(done, children, size),
        Shape::Union(_, children) => runs_of_union(done, children, size),
        Shape::Vector(lanes) => runs_of_parts(done, &[*lanes], size),
        Shape::Single(_, children) => runs_of_parts(done, children, size),
        Shape::Tagged {
            mark: _,
            tag,
            variants,
        } => runs_of_variants(done, *tag, variants, size),
        Shape::States {
            prefix,
            tag,
            states,
        } => {
            let mut runs = runs_of_variants(done, *tag, states, size);
            let before = runs_of_parts(done, prefix, size);
            runs.count = runs.count.saturating_add(before.count);
            runs
        }
    }
}

/// At most how many runs of bytes are made where the padding of a laid-out type is listed.
pub(crate) fn most_runs(alloc: Global, laid: &Laid) -> Result<u64, AllocError> {
    let nodes: &Nodes = laid.nodes();
    let mut done = Vec::with_capacity(alloc, nodes.len())?;
    let mut total = 0u64;
    for at in 0..nodes.len() {
        let node = nodes.node(at);
        let runs = runs_of_shape(&done, node.shape, node.layout.size.bytes());
        total = total.saturating_add(runs.count);
        done.push(runs)?;
    }
    Ok(total)
}
