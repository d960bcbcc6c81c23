// The rows of a legal sheet judged from the top, each by the results above it, which stand in the list that its own is put into.
ghost use Rattle.std.specs.Prelude.{◌≡◌, true, ◌+◌, ◌<◌, ◌≤◌, length};
ghost use Rattle.basis.specs.Limits.{most_rows};
ghost use Rattle.basis.specs.Upto.{upto};
ghost use Rattle.sheet.specs.Legal.{legal, Legal};
ghost use Rattle.sheet.specs.Lists.{sheet_in};
ghost use Rattle.bound.specs.Test.{passes};
ghost use Rattle.bound.specs.Bound.{word, is_bound, result_of, holds};
ghost use Rattle.bound.specs.Lists.{results_long, result_cell, words, put_result};
ghost use Rattle.bound.specs.Inside.Ready.{Lent, RowsAbove};

use crate::results::RowResult;
use crate::search::bound_of;
use crate::turn::Turn;

// Whether a result is a bound: a match, under the promise that the rows' loop goes by.
fn is_bound(res: RowResult) -> bool
    ensures { result ≡ is_bound (word res) }
{
    matches!(res, RowResult::Bound(_))
}

// Puts result `k` into a list of results, which has room for it: its word, 0 unreached, 1 bound, 2 none, and its bound, zero where there is none. The word is a number, since lists are lent by C.
fn put_result(results: &mut [u64], k: usize, res: RowResult)
    requires { (k < most_rows) × (results_long (k + 1) ≤ length results.old) }
    ensures { results.new ≡ put_result results.old k (word res) }
{
    let (word, bound) = match res {
        RowResult::Unreached => (0, 0),
        RowResult::Bound(bound) => (1, bound),
        RowResult::NoBound => (2, 0),
    };
    results[k * 2] = word;
    results[k * 2 + 1] = bound;
}

// The result of row `k`, by the results above, and whether each of them is a bound.
fn judge_row(sheet: &[u64], results: &[u64], k: usize, reached: bool) -> RowResult
    requires { (Lent sheet.now results.now) × (Legal (sheet_in sheet.now)) × (k < (sheet_in sheet.now).count) × (RowsAbove (sheet_in sheet.now) results.now reached k) }
    ensures { word result ≡ result_of passes (sheet_in sheet.now) k }
{
    if reached {
        return bound_of(&Turn { sheet, results, k });
    }
    RowResult::Unreached
}

// Judges the n rows of a legal sheet: puts the result of each into the list, and tells whether the sheet holds.
pub(crate) fn judge_rows(sheet: &[u64], results: &mut [u64], n: usize) -> bool
    requires { (n ≡ (sheet_in sheet.now).count) × (legal (sheet_in sheet.now) ≡ true) × (results_long n ≤ length results.old) }
    ensures { (result ≡ holds passes (sheet_in sheet.now))
        × (results.new ≡ upto (results_long n) (result_cell (words (sheet_in sheet.now))) results.old) }
{
    let mut reached = true;
    for i in 0..n {
        let result = judge_row(sheet, results, i, reached);
        put_result(results, i, result);
        reached = is_bound(result);
    }
    reached
}
