//! The files of a crate on the disk, and a terminal that shows how far the report on them is.

use std::alloc::AllocError;
use std::fs;
use std::io::IsTerminal;
use std::time::Instant;
use type_reports::FileSource;

/// A faster report shows nothing. In seconds.
const QUIET_SECONDS: u64 = 1;

/// After so many items it is shown once how far the report is.
const ITEMS_SHOWN_ONCE: usize = 64;

/// The files on the disk.
#[derive(Clone, Copy)]
pub(crate) struct DiskFiles<'a> {
    rt: &'a HostRuntime,
    /// When the report was begun, where standard error is to show how far it is.
    begun: Option<Instant>,
}

impl<'a> DiskFiles<'a> {
    /// The files on the disk. How far the report is shows on standard error, where that is a terminal and nobody asked for
    /// quiet.
    pub(crate) fn new(rt: &'a HostRuntime, is_quiet: bool) -> DiskFiles<'a> {
        let begun = if !is_quiet && rt.stderr().is_terminal() {
            Instant::now(rt).ok()
        } else {
            None
        };
        DiskFiles { rt, begun }
    }

    /// Whether the report takes so long that it shows how far it is.
    fn is_shown(&self) -> bool {
        match self.begun {
            Some(begun) => match begun.elapsed(self.rt) {
                Ok(taken) => taken.as_secs() >= QUIET_SECONDS,
                Err(_) => false,
            },
            None => false,
        }
    }
}

/// Whether there is such a file.
pub(crate) fn is_there(rt: &HostRuntime, path: &str) -> bool {
    fs::exists(rt, path).unwrap_or(false)
}

impl FileSource for DiskFiles<'_> {
    fn is_there(&self, path: &str) -> Result<bool, AllocError> {
        Ok(is_there(self.rt, path))
    }

    fn size_of_file(&self, path: &str) -> Result<u64, AllocError> {
        match fs::metadata(self.rt, path) {
            Ok(found) => Ok(found.len()),
            Err(_) => Ok(0),
        }
    }

    fn read_file(&self, path: &str) -> Result<Result<String, String>, AllocError> {
        match fs::read_to_string(self.rt, path) {
            Ok(text) => Ok(Ok(text)),
            Err(error) => Ok(Err(format!(in self.rt.alloc(); "{error}")?)),
        }
    }

    fn report_progress(&self, done: usize, all: usize) {
        if done == all && self.is_shown() {
            let _ = self.rt.eprint("\r\x1b[K");
        } else if done % ITEMS_SHOWN_ONCE == 0 && self.is_shown() {
            let _ = eprint!(self.rt; "\r\x1b[Ktypes: {done} of {all} items");
        }
    }
}
