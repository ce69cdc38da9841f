//! What follows from the public clauses of the libraries alone: what those do who call them, a debugger, a code generator,
//! a binding generator and a fuzzer, a theorem at each function; and the rules of the Rust Reference.
#![tactic(auto)]

// The four users.
mod binding_generator;
mod code_generator;
mod debugger;
mod fuzzer;

// What they share, and that what they ask can be met.
mod each_call;
mod slice;

// The Rust Reference's chapter on type layout.
mod reference;

pub use binding_generator::{
    CExtent, CFault, CRefusal, CStruct, c_enum, c_offsets, c_struct, c_struct_with, c_union,
};
pub use code_generator::{Loaded, LoadedPair, load, load_at, load_pair, store, variant_named};
pub use debugger::{
    ReadBack, field_of, field_of_variant, local_of_state, numbers_of, put_field, read_back,
    slice_of_field,
};
pub use fuzzer::{Flipped, flip, ignore, vary, vary_unused};
pub use reference::lay_out_as_documented;
