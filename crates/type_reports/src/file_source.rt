//! How the files of a crate are found, and who hears how far a report is.

use std::alloc::AllocError;

/// Where the files of a crate are found, and who hears how far the report on them is. An error comes where a growth of memory
/// was refused.
pub trait FileSource {
    /// Whether there is a file of this path.
    fn is_there(&self, path: &str) -> Result<bool, AllocError>;

    /// How many bytes the file of this path has; 0 where that can't be told.
    fn size_of_file(&self, path: &str) -> Result<u64, AllocError>;

    /// The text of the file of this path, or why it can't be read.
    fn read_file(&self, path: &str) -> Result<Result<String, String>, AllocError>;

    /// Hears that so many of all items were looked at. Who hears it may do nothing.
    fn report_progress(&self, done: usize, all: usize);
}
