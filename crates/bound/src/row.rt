// A row of a sheet's list that has room for it.
ghost use Rattle.std.specs.Prelude.{◌≡◌, ◌+◌, ◌≤◌, ◌<◌, length};
ghost use Rattle.basis.specs.Limits.{most_rows};
ghost use Rattle.sheet.specs.Legal.{row_at};
ghost use Rattle.sheet.specs.Lists.{sheet_in, sheet_long};

use sheet::Row;

// Row `k`, read without a look at the list's end. It stands beside that of `sheet`: shared, it would be public, and so would have to look.
pub(crate) fn row_inside(sheet: &[u64], k: usize) -> Row
    requires { (k < most_rows) × (sheet_long (k + 1) ≤ length sheet.now) }
    ensures { result ≡ row_at (sheet_in sheet.now) k }
{
    Row {
        threads: sheet[k * 4 + 2],
        separation: sheet[k * 4 + 3],
        deadline: sheet[k * 4 + 4],
        budget: sheet[k * 4 + 5],
    }
}
