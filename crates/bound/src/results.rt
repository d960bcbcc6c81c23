// The result of each row, and whether the sheet holds: in a lent list, and by value.
ghost use Rattle.std.specs.Prelude.{◌≡◌, ◌+◌, ◌<◌, ◌≤◌, length, map};
ghost use Rattle.basis.specs.Limits.{most_rows};
ghost use Rattle.basis.specs.Upto.{upto};
ghost use Rattle.basis.specs.Refusals.{outcome};
ghost use Rattle.bound.specs.Bound.{word, all_unreached, answer, bounds_of};
ghost use Rattle.bound.specs.Lists.{holding, results_long, word_at, bounds_on};

use crate::judge::judge_rows;
use basis::{MOST_ROWS, Refusal};
use sheet::{SHEET_LONG, Sheet};

// The result of a row. It has three cases, and so is no `Option`.
#[derive(Clone, Copy, Debug, PartialEq, Eq)]
pub enum RowResult {
    Unreached,
    // The bound, in slots.
    Bound(u64),
    NoBound,
}

// Whether a sheet holds, and a result for each row that it may have: the results mean something where it does not hold too, so it is no `Option`.
#[derive(Clone, Copy)]
pub struct Results {
    pub holds: bool,
    pub rows: [RowResult; MOST_ROWS],
}

// The places of a list that has room for the results of every row.
pub const RESULTS_LONG: usize = MOST_ROWS * 2;

// The bounds of the sheet in a list, put into a list of results: of each row its word as a number and its bound, and zeros past the rows. The answer is whether the sheet holds.
pub fn bounds_on(sheet: &[u64], results: &mut [u64]) -> Result<bool, Refusal>
    ensures { (outcome result, (holding result, results.new)) ≡ bounds_on sheet.now results.old }
{
    if !sheet::is_legal(sheet) {
        return Err(Refusal::Sheet);
    }
    let n = sheet::count(sheet) as usize;
    if results.len() < n * 2 {
        return Err(Refusal::Room);
    }
    let holds = judge_rows(sheet, results, n);
    sheet::clear_from(results, n * 2);
    Ok(holds)
}

// Result `k` of a list of results, which has room for it: its word is a number there, since lists are lent by C.
fn result_at(results: &[u64], k: usize) -> RowResult
    requires { (k < most_rows) × (results_long (k + 1) ≤ length results.now) }
    ensures { word result ≡ word_at results.now k }
{
    match results[k * 2] {
        0 => RowResult::Unreached,
        1 => RowResult::Bound(results[k * 2 + 1]),
        _ => RowResult::NoBound,
    }
}

// The result of every row, in a list with room for them.
fn rows_of(results: &[u64]) -> [RowResult; MOST_ROWS]
    requires { results_long most_rows ≤ length results.now }
    ensures { map word result ≡ upto most_rows (word_at results.now) all_unreached }
{
    let mut rows = [RowResult::Unreached; MOST_ROWS];
    for i in 0..MOST_ROWS {
        rows[i] = result_at(results, i);
    }
    rows
}

// The result of every row of a sheet that is handed over, and whether it holds.
pub fn bounds(sheet: Sheet) -> Result<Results, Refusal>
    ensures { answer result ≡ bounds_of sheet }
{
    let mut list = [0u64; SHEET_LONG];
    sheet::put_sheet(&mut list, sheet);
    let mut results = [0u64; RESULTS_LONG];
    let holds = bounds_on(&list, &mut results)?;
    let rows = rows_of(&results);
    Ok(Results { holds, rows })
}
