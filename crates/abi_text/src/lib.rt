//! Data layouts and types read from text, laid-out types printed, and the way from an input to its answer: what
//! programs over text share. `docs/FORMATS.md` has the format.
#![tactic(auto)]

// Words, numbers, lines.
mod lines;
mod number;
mod pieces;
mod words;

// Data layouts and types read, and why one isn't.
mod data_layout;
mod fault;
mod reader;

// Laid-out types printed, and the names of refusals.
mod layout_text;
mod names;
mod numbered;
mod print;
mod print_variants;

// The answer to an input, and programs over any reader and writer.
mod answers;
mod report;
mod running;

pub use answers::{Answer, answer_input};
pub use data_layout::read_data_layout;
pub use fault::Fault;
pub use layout_text::{LayoutText, run_layout};
pub use names::{data_layout_error_name, error_name};
pub use number::{decimal, discriminant, number_u32, number_u128};
pub use pieces::split_at_byte;
pub use print::{
    write_niche, write_padding, write_primitive, write_ranges, write_size, write_type,
    write_uninhabited,
};
pub use print_variants::{listed_unused, runs_of, write_scalar};
pub use reader::read_type;
pub use reader::repr_text::{StructRepr, struct_repr};
pub use report::Report;
pub use running::run;
pub use words::next_word;
