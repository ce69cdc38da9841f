//! Layouts as the Rust Reference documents them: each rule of its chapter on type layout is a clause of one call, or a
//! departure, in the chapter's own words.

mod documented;

pub use documented::lay_out_as_documented;
