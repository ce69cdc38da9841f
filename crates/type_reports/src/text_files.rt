//! The files of a crate that are handed in, and none on a disk.

use crate::crate_files::whole_path;
use crate::file_source::FileSource;
use std::alloc::{AllocError, Global};
use std::collections::HashMap;

/// A file that is handed in.
#[derive(Clone, Copy)]
pub(crate) struct TextFile<'a> {
    /// Its path; empty where the file has none.
    pub(crate) path: &'a str,
    /// Its text.
    pub(crate) text: &'a str,
}

/// The files of a crate that are handed in.
#[derive(Drop)]
pub(crate) struct TextFiles<'a> {
    alloc: Global,
    /// The text of each, by its path.
    texts: HashMap<String, &'a str>,
}

impl<'a> TextFiles<'a> {
    /// No files yet.
    pub(crate) fn new(alloc: Global) -> TextFiles<'a> {
        TextFiles {
            alloc,
            texts: HashMap::new(alloc),
        }
    }

    /// Puts a file to the others, unless one of its path is there. Whether none was. An error comes where a growth of memory
    /// was refused.
    pub(crate) fn put_file(&mut self, file: TextFile<'a>) -> Result<bool, AllocError> {
        let path = whole_path(self.alloc, file.path)?;
        if self.texts.contains_key(path.as_str()) {
            return Ok(false);
        }
        let _ = self.texts.insert(path, file.text)?;
        Ok(true)
    }

    /// The text of the file of this path, where it is handed in.
    fn text_of(&self, path: &str) -> Result<Option<&'a str>, AllocError> {
        let path = whole_path(self.alloc, path)?;
        Ok(self.texts.get(path.as_str()).copied())
    }
}

impl FileSource for TextFiles<'_> {
    fn is_there(&self, path: &str) -> Result<bool, AllocError> {
        Ok(self.text_of(path)?.is_some())
    }

    fn size_of_file(&self, path: &str) -> Result<u64, AllocError> {
        match self.text_of(path)? {
            Some(text) => Ok(text.len() as u64),
            None => Ok(0),
        }
    }

    fn read_file(&self, path: &str) -> Result<Result<String, String>, AllocError> {
        match self.text_of(path)? {
            Some(text) => Ok(Ok(String::from_str(self.alloc, text)?)),
            None => Ok(Err(String::from_str(self.alloc, "it isn't handed in")?)),
        }
    }

    fn report_progress(&self, _done: usize, _all: usize) {}
}
