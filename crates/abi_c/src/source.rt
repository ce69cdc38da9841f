//! Rust source, and what is answered of its types.

ghost use Rattle.std.specs.Prelude.{◌≤◌, IfOk};
ghost use Rattle.abi_c.specs.Flat.{reply_of};
ghost use Rattle.abi_c.specs.Source.{IsReplyOfTrees};

use crate::flat::{FlatAnswer, one_number};
use crate::numbers::{ReadError, write_flat_trees};
use abi_tree::TypeTree;
use std::alloc::{AllocError, Global};
use type_reports::{FileBytes, trees_of_files};

/// The document that says that memory was wanting.
pub(crate) const MEMORY_DOCUMENT: &[u8] =
    b"{\n  \"faults\": [\n    {\n      \"text\": \"out of memory\"\n    }\n  ],\n  \"skipped\": [],\n  \"types\": [],\n  \"version\": 1\n}\n";

/// A status, and the numbers of types behind their count; none of any, and the status of a refusal, where one has no numbers.
fn numbers_of(alloc: Global, status: u8, trees: &[TypeTree]) -> Result<FlatAnswer, AllocError>
    requires { status ≤ 3 }
    ensures { IfOk result (λ a. IsReplyOfTrees (reply_of a)) }
{
    match write_flat_trees(alloc, trees) {
        Ok(numbers) => Ok(FlatAnswer { status, numbers }),
        Err(ReadError::Unreadable) => one_number(alloc, 1, 0),
        Err(ReadError::OutOfMemory) => Err(AllocError),
    }
}

/// The numbers of the types of files, by what lines ask for. `AllocError` where a growth of memory was refused.
pub(crate) fn answer_trees(
    alloc: Global,
    files: &[FileBytes<'_>],
    asked: &[u8],
) -> Result<FlatAnswer, AllocError>
    ensures { IfOk result (λ a. IsReplyOfTrees (reply_of a)) }
{
    let given = trees_of_files(alloc, files, asked)?;
    numbers_of(alloc, given.outcome.status(), given.trees.as_slice())
}
