// The parts of the sheet that a list hands over.
ghost use Rattle.std.specs.Prelude.{◌≡◌, ◌+◌, ◌≤◌, ◌<◌, length};
ghost use Rattle.basis.specs.Limits.{most_rows};
ghost use Rattle.sheet.specs.Legal.{row_at};
ghost use Rattle.sheet.specs.Lists.{sheet_in, sheet_long};

use crate::reading::{number_at, row_in};
use crate::row::{NO_ROW, Row};
use basis::MOST_ROWS;

// The processors of the sheet that a list hands over.
#[tactic(auto, unfolding(crate::specs::Lists::sheet_in))]
pub fn processors(list: &[u64]) -> u64
    ensures { result ≡ (sheet_in list.now).processors }
{
    number_at(list, 0)
}

// How many rows it has.
#[tactic(auto, unfolding(crate::specs::Lists::sheet_in))]
pub fn count(list: &[u64]) -> u64
    ensures { result ≡ (sheet_in list.now).count }
{
    number_at(list, 1)
}

// Its row k; all zero where no sheet has such a row. The list's end is looked at once where the whole row is there.
pub fn row_at(list: &[u64], k: usize) -> Row
    ensures { result ≡ row_at (sheet_in list.now) k }
{
    if k >= MOST_ROWS {
        NO_ROW
    } else if k * 4 + 5 < list.len() {
        row_inside(list, k)
    } else {
        row_in(list, k)
    }
}

// Its row k, where the list has room for it. It stands beside `row_in` for speed: it is read without a look at the list's end.
pub(crate) fn row_inside(list: &[u64], k: usize) -> Row
    requires { (k < most_rows) × (sheet_long (k + 1) ≤ length list.now) }
    ensures { result ≡ row_at (sheet_in list.now) k }
{
    Row {
        threads: list[k * 4 + 2],
        separation: list[k * 4 + 3],
        deadline: list[k * 4 + 4],
        budget: list[k * 4 + 5],
    }
}
