//! Formulas as they are kept.

/// A formula, whose parts are named by their places among earlier ones.
#[derive(Clone, Copy, PartialEq, Eq)]
pub(crate) enum FormulaNode {
    /// Any cells.
    Any,
    /// None.
    Never,
    /// A first cell whose letter lies from the start to below the end, and another formula behind it.
    Run {
        start: u16,
        end: u16,
        next: usize,
    },
    /// What both read.
    Both(usize, usize),
    /// What one of the two reads.
    Either(usize, usize),
    /// So many cells of any kind, and the formula behind them.
    Gap(u64, usize),
    /// So often the formula, each time so many cells further on.
    Each {
        count: u64,
        size: u64,
        element: usize,
    },
}

/// A number that is made of a node's, for looking it up.
pub(crate) fn number_of(node: FormulaNode) -> u64 {
    let (kind, first, second, third) = match node {
        FormulaNode::Any => (1, 0, 0, 0),
        FormulaNode::Never => (2, 0, 0, 0),
        FormulaNode::Run { start, end, next } => (3, start as u64, end as u64, next as u64),
        FormulaNode::Both(f, g) => (4, f as u64, g as u64, 0),
        FormulaNode::Either(f, g) => (5, f as u64, g as u64, 0),
        FormulaNode::Gap(count, f) => (6, count, f as u64, 0),
        FormulaNode::Each {
            count,
            size,
            element,
        } => (7, count, size, element as u64),
    };
    mix(mix(mix(mix(kind, first), second), third), 0)
}

/// Two numbers mixed to one.
pub(crate) fn mix(number: u64, other: u64) -> u64 {
    let mixed = (number ^ other).wrapping_mul(0x9E37_79B9_7F4A_7C15);
    mixed ^ (mixed >> 29)
}
