// What a list of plain numbers hands over: a number, a row, a sheet.
ghost use Rattle.std.specs.Prelude.{◌≡◌, ◌<◌};
ghost use Rattle.basis.specs.Limits.{most_rows};
ghost use Rattle.sheet.specs.Lists.{number_at, row_in, sheet_in};

use crate::row::{NO_ROW, Row, Sheet};
use basis::MOST_ROWS;

// The number at a place, and zero past the end.
pub fn number_at(list: &[u64], at: usize) -> u64
    ensures { result ≡ number_at list.now at }
{
    list.get(at).copied().unwrap_or(0)
}

// Row k of a list, where there is room for one.
pub(crate) fn row_in(list: &[u64], k: usize) -> Row
    requires { k < most_rows }
    ensures { result ≡ row_in list.now k }
{
    Row {
        threads: number_at(list, k * 4 + 2),
        separation: number_at(list, k * 4 + 3),
        deadline: number_at(list, k * 4 + 4),
        budget: number_at(list, k * 4 + 5),
    }
}

// The sheet that a list hands over.
pub fn sheet_in(list: &[u64]) -> Sheet
    ensures { result ≡ sheet_in list.now }
{
    let mut rows = [NO_ROW; MOST_ROWS];
    for (i, row) in rows.iter_mut().enumerate() {
        *row = row_in(list, i);
    }
    Sheet {
        processors: number_at(list, 0),
        count: number_at(list, 1),
        rows,
    }
}
