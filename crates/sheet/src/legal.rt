// Whether the sheet that a list hands over is in the ranges.
ghost use Rattle.std.specs.Prelude.{◌≡◌, ◌≤◌, length};
ghost use Rattle.basis.specs.Limits.{most_processors, most_rows};
ghost use Rattle.basis.specs.Words.{both, within, all_of};
ghost use Rattle.sheet.specs.Legal.{legal_row, legal};
ghost use Rattle.sheet.specs.Lists.{sheet_in, sheet_long, legal_rows};

use crate::fields::{count, processors, row_inside};
use crate::row::Row;
use basis::{MOST_PROCESSORS, MOST_ROWS, MOST_SEPARATION};

// Whether a row is in the ranges, on so many processors.
fn is_legal_row(processors: u64, row: Row) -> bool
    ensures { result ≡ legal_row processors row }
{
    (1..=processors).contains(&row.threads)
        && (1..=MOST_SEPARATION).contains(&row.separation)
        && (1..=row.separation).contains(&row.deadline)
        && (1..=row.deadline).contains(&row.budget)
}

// Whether a sheet may have so many processors and so many rows.
fn is_legal_head(processors: u64, count: u64) -> bool
    ensures { result ≡ both (within 1 most_processors processors) (within 1 most_rows count) }
{
    (1..=MOST_PROCESSORS).contains(&processors) && (1..=MOST_ROWS as u64).contains(&count)
}

// Whether each of the first n rows is in the ranges.
fn rows_are_legal(list: &[u64], processors: u64, n: usize) -> bool
    requires { (n ≤ most_rows) × (sheet_long n ≤ length list.now) }
    ensures { result ≡ all_of n (legal_rows processors (sheet_in list.now)) }
{
    for i in 0..n {
        if !is_legal_row(processors, row_inside(list, i)) {
            return false;
        }
    }
    true
}

// Whether m, n and each of the n rows of the sheet that a list hands over are in the ranges: a list that ends before its last row is not.
pub fn is_legal(list: &[u64]) -> bool
    ensures { result ≡ legal (sheet_in list.now) }
{
    let m = processors(list);
    let rows = count(list);
    if !is_legal_head(m, rows) {
        return false;
    }
    let n = rows as usize;
    n * 4 + 2 <= list.len() && rows_are_legal(list, m, n)
}
