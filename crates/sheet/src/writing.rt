// A sheet written into a list, and a list made zero from a place on.
ghost use Rattle.std.specs.Prelude.{◌≡◌, replicate};
ghost use Rattle.basis.specs.Limits.{most_rows};
ghost use Rattle.basis.specs.Upto.{upto};
ghost use Rattle.sheet.specs.Lists.{filled, sheet_cell, sheet_long, cleared_cell};

use crate::row::Sheet;
use basis::MOST_ROWS;

// The places of a list that has room for every row.
pub const SHEET_LONG: usize = MOST_ROWS * 4 + 2;

// The numbers of a sheet in their places, every row as it stands.
fn cells_of(sheet: &Sheet) -> [u64; SHEET_LONG]
    ensures { result ≡ upto (sheet_long most_rows) (sheet_cell sheet.now) (replicate (sheet_long most_rows) 0) }
{
    let mut cells = [0; SHEET_LONG];
    cells[0] = sheet.processors;
    cells[1] = sheet.count;
    for k in 0..MOST_ROWS {
        let row = sheet.rows[k];
        cells[k * 4 + 2] = row.threads;
        cells[k * 4 + 3] = row.separation;
        cells[k * 4 + 4] = row.deadline;
        cells[k * 4 + 5] = row.budget;
    }
    cells
}

// Writes a sheet into a list, every row that there is room for as it stands; places past those are made zero.
pub fn put_sheet(list: &mut [u64], sheet: Sheet)
    ensures { list.new ≡ filled (sheet_cell sheet) list.old }
{
    let cells = cells_of(&sheet);
    let n = list.len().min(SHEET_LONG);
    list[..n].copy_from_slice(&cells[..n]);
    clear_from(list, n);
}

// Makes every place of a list zero from a place on: the kit's `fill`, under a promise that holds of a place past the end too.
pub fn clear_from(list: &mut [u64], from: usize)
    ensures { list.new ≡ filled (cleared_cell from list.old) list.old }
{
    if from < list.len() {
        list[from..].fill(0);
    }
}
