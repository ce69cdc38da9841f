//! Relations between indices.

ghost use Rattle.std.specs.Prelude.{◌≡◌, ℕ, ◌≤◌, ◌<◌, ◌+◌, ◌==◌, ◌||◌, ◌&&◌, not, false, true, length, map, OnOk, OnErr, IfOk, IsOk, [], replicate, All};
ghost use Rattle.std.specs.List.{range_with_len};
ghost use Rattle.abi_index.specs.Relation.{row_count, column_count, is_entry, columns_of};
ghost use Rattle.abi_index.specs.BitRow.{columns_left};
ghost use Rattle.abi_index.specs.Indices.{indices_left};

use crate::ascending_list::AscendingList;
use crate::bit_row_iter::BitRowIter;
use crate::idx::Idx;
use crate::indices::Indices;
use std::alloc::{AllocError, Global};
use std::fmt;
use std::fmt::Debug;
use std::marker::{Model, PhantomData};

/// A relation between rows and columns, for relations in which a row is related to few columns.
#[derive(Drop)]
pub struct BitMatrix<R: Idx, C: Idx> {
    rows: Vec<AscendingList>,
    columns: usize,
    of: PhantomData<(R, C)>,
}

impl<R: Idx, C: Idx> Model for BitMatrix<R, C> {
    ghost use Rattle.std.specs.Prelude.{◌+◌, ◌≤◌, length};
    ghost use Rattle.abi_index.specs.Relation.{Relation, HasColumnsInRange};

    ghost Value = { Relation };

    ghost view = { λ a. record { rows = a.rows.items; columns = a.columns } };

    ghost invariant = { λ a. (length a.rows.items ≤ R.MAX_INDEX + 1) × (a.columns ≤ C.MAX_INDEX + 1)
        × HasColumnsInRange (record { rows = a.rows.items; columns = a.columns }) };
}

impl<R: Idx, C: Idx> PartialEq for BitMatrix<R, C> {
    ghost use Rattle.std.specs.Prelude.{◌==◌, ◌&&◌};
    ghost use Rattle.std.specs.Cmp.{on_per, and_per};
    ghost use Rattle.std.specs.Cmp.Lexicographic.{pointwise, lists_per};
    ghost use Rattle.std.specs.Cmp.Rules.{comparing};

    ghost eq = { λ x y. (x.columns == y.columns) && pointwise (pointwise ⟦<u32 as PartialEq>⟧.eq) x.rows y.rows };

    ghost laws = { and_per (on_per (λ m. m.columns) (Prim.search comparing)) (on_per (λ m. m.rows) (lists_per (lists_per (Prim.search comparing)))) };

    fn eq(&self, other: &Self) -> bool {
        self.columns == other.columns && self.rows == other.rows
    }
}

impl<R: Idx, C: Idx> Eq for BitMatrix<R, C> {
    ghost use Rattle.std.specs.Cmp.{on_equiv, and_equiv};
    ghost use Rattle.std.specs.Cmp.Lexicographic.{lists_equiv};
    ghost use Rattle.std.specs.Cmp.Rules.{comparing};

    ghost laws = { and_equiv (on_equiv (λ m. m.columns) (Prim.search comparing))
        (on_equiv (λ m. m.rows) (lists_equiv (lists_equiv (Prim.search comparing)))) };
}

impl<R: Idx, C: Idx> Debug for BitMatrix<R, C> {
    fn fmt<W: fmt::Write>(&self, f: &mut fmt::Formatter<W>) -> fmt::Result {
        self.rows.fmt(f)
    }
}

impl<R: Idx, C: Idx> BitMatrix<R, C> {
    /// The empty relation between `rows` rows and columns: no more than the index types can name.
    pub fn new(alloc: Global, rows: usize, columns: usize) -> Result<Self, AllocError>
        requires rows { rows ≤ R.MAX_INDEX + 1 }
        requires columns { columns ≤ C.MAX_INDEX + 1 }
        ensures rows { IfOk result (λ m. row_count m ≡ rows) }
        ensures columns { IfOk result (λ m. column_count m ≡ columns) }
        ensures empty { IfOk result (λ m. (row column : ℕ) → is_entry m row column ≡ false) }
    {
        Ok(BitMatrix {
            rows: empty_rows(alloc, rows)?,
            columns,
            of: PhantomData,
        })
    }

    /// Relates a row and a column, and answers whether that is new. A refused growth leaves the relation as it was; what is
    /// related already asks for none.
    pub fn insert(&mut self, row: R, column: C) -> Result<bool, AllocError>
        requires row { R.number row < row_count self.old }
        requires column { C.number column < column_count self.old }
        ensures is_new { IfOk result (λ is_new.
            is_new ≡ not (is_entry self.old (R.number row) (C.number column))) }
        ensures entries { OnOk result ((r c : ℕ) → is_entry self.new r c
            ≡ ((r == R.number row && c == C.number column) || is_entry self.old r c)) }
        ensures rows { row_count self.new ≡ row_count self.old }
        ensures columns { column_count self.new ≡ column_count self.old }
        ensures there { is_entry self.old (R.number row) (C.number column) ≡ true → IsOk result }
        ensures err { OnErr result (self.new ≡ self.old) }
    {
        let number = column.index() as u32;
        let columns = &mut self.rows[row.index()];
        columns.insert(number)
    }

    /// Whether a row and a column are related.
    pub fn contains(&self, row: R, column: C) -> bool
        requires row { R.number row < row_count self.now }
        requires column { C.number column < column_count self.now }
        ensures { result ≡ is_entry self.now (R.number row) (C.number column) }
    {
        let columns = &self.rows[row.index()];
        columns.contains(column.index() as u32)
    }

    /// How many columns are related to a row.
    pub fn count(&self, row: R) -> usize
        requires { R.number row < row_count self.now }
        ensures { result ≡ length (columns_of self.now (R.number row)) }
    {
        self.columns(row).len()
    }

    /// The indices of all rows, ascending, be they empty or not.
    pub fn rows(&self) -> Indices<R>
        ensures { indices_left R.at result ≡ map R.at (range_with_len 0 (row_count self.now)) }
    {
        Indices::with_count(self.rows.len())
    }

    /// The columns that are related to a row, ascending.
    pub fn iter(&self, row: R) -> BitRowIter<'_, C>
        requires { R.number row < row_count self.now }
        ensures { columns_left C.at result ≡ map C.at (columns_of self.now (R.number row)) }
    {
        BitRowIter::new(self.columns(row))
    }

    /// The columns that are related to a row, ascending.
    fn columns(&self, row: R) -> &[u32]
        requires { R.number row < row_count self.now }
        ensures columns { result.now ≡ columns_of self.now (R.number row) }
        ensures within { All (λ c. c ≤ C.MAX_INDEX) result.now }
    {
        let columns = &self.rows[row.index()];
        columns.as_slice()
    }
}

/// `count` rows without columns.
fn empty_rows(alloc: Global, count: usize) -> Result<Vec<AscendingList>, AllocError>
    ensures { IfOk result (λ rows. rows.items ≡ replicate count []) }
{
    let mut rows = Vec::with_capacity(alloc, count)?;
    for _row in 0..count {
        rows.push(AscendingList::new(alloc))?;
    }
    Ok(rows)
}
