//! Types as trees.

use abi_scalar::{ReprOptions, Scalar};

/// A type, as far as its layout depends on it.
#[derive(Drop, Debug, PartialEq, Eq)]
pub enum TypeTree {
    /// A number of a primitive type, with the range of those that it may be.
    Scalar(Scalar),
    /// Two numbers, as a wide pointer has them.
    Pair(Scalar, Scalar),
    /// The type without a value, of no bytes.
    Never,
    /// A type with one value, which takes no bytes.
    Unit,
    /// An array: how many elements there are, and their type.
    Array(u64, Box<TypeTree>),
    /// A vector: its lanes lie one after another, and it has an alignment of its own.
    Vector {
        /// How many lanes there are.
        lanes: u64,
        /// Whether it has no bytes after its lanes.
        packed: bool,
        /// What each lane is, which has to be a scalar.
        element: Box<TypeTree>,
    },
    /// Fields in source order. Where it isn't always sized, the last field may lose its size by coercion.
    Struct {
        /// What its `repr` asks for.
        repr: ReprOptions,
        /// Whether it is always sized: no coercion takes the size of its last field.
        always_sized: bool,
        /// The fields, in source order.
        fields: Vec<TypeTree>,
    },
    /// Fields in an order that is handed in. Where it isn't always sized, the last field may lose its size by coercion,
    /// and the order keeps it last.
    Ordered {
        /// What its `repr` asks for, beside that the order may be any (`ReprFlags::RANDOMIZE_LAYOUT`).
        repr: ReprOptions,
        /// Whether it is always sized: no coercion takes the size of its last field.
        always_sized: bool,
        /// The indices of the fields, as they are to lie in memory.
        order: Vec<u64>,
        /// The fields, in source order.
        fields: Vec<TypeTree>,
    },
    /// A union: its fields all lie at offset 0.
    Union {
        /// What its `repr` asks for.
        repr: ReprOptions,
        /// The fields, in source order.
        fields: Vec<TypeTree>,
    },
    /// An enum: a value is one of its variants, each with fields of its own.
    Enum {
        /// What its `repr` asks for.
        repr: ReprOptions,
        /// Each variant's discriminant, a 128-bit two's complement number, and its fields, both in source order.
        variants: Vec<(u128, Vec<TypeTree>)>,
    },
    /// A coroutine: a value is in one of its states, each of which keeps some of the locals.
    Coroutine {
        /// The fields that every state has.
        prefix: Vec<TypeTree>,
        /// The locals.
        locals: Vec<TypeTree>,
        /// For each state the indices of the locals that it keeps.
        states: Vec<Vec<u64>>,
        /// Pairs of indices of locals that may not share bytes.
        conflicts: Vec<(u64, u64)>,
    },
}
