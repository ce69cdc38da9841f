//! Reports on the types that Rust source defines: as lines, as declarations, as maps and as JSON, with the faults of what can't
//! be read. No file is opened here: who asks says how the files of a crate are found, or gives them.
#![tactic(auto)]

// What is asked for, and where a fault lies.
mod assertions;
mod options;
mod place;
mod sorting;

// The files of a crate, and the crates that it depends on.
mod crate_files;
mod file_source;
mod module_files;
mod package_crates;
mod text_files;

// Types as lines, as maps and as JSON, and the answer to a source.
mod answer;
mod bytes;
mod entries;
mod json;
mod labels;
mod lines;
mod mapped;
mod notes;
mod parts;
mod pretty;
mod reasons;

// The answers to files that are handed in.
mod documents;
mod line_options;

// What an object says of a type.
mod facts;

// What could be saved of types.
mod data_runs;
mod least;
mod savings;
mod savings_text;
mod waste;

pub use answer::{FileFailure, FileReport, Outcome, answer_source};
pub use assertions::{Assertion, assertion_in};
pub use crate_files::{SourceFile, folder_of};
pub use documents::{FileBytes, FilesDocument, FilesTrees, document_of_files, trees_of_files};
pub use facts::{FieldFact, TypeFacts, list_in, number_in, text_in};
pub use file_source::FileSource;
pub use json::{JsonLists, document_text};
pub use options::{
    Form, ReportOptions, default_targets, file_name_of, is_root, put_cfg, put_features,
};
pub use package_crates::{PackageCrate, PackageSet, crates_under};
pub use place::write_fault;
pub use sorting::{Selection, TypeOrder};
