// The rows of a sheet in the ranges.
ghost use Rattle.std.specs.Prelude.{◌≡◌, ◌≤◌, ◌<◌, true, false, length, MatchResult};
ghost use Rattle.basis.specs.Limits.{most_rows};
ghost use Rattle.sheet.specs.Legal.{legal};
ghost use Rattle.sheet.specs.Lists.{sheet_in, sheet_long};
ghost use Rattle.scenario.specs.Form.{budget_at};

use basis::Refusal;

// A sheet in the ranges, and how many rows it has. It stands beside `LegalSheet` of `machine`: shared, it would be public, and reading a row would look at the list's end.
#[derive(Clone, Copy)]
pub(crate) struct Rows<'a> {
    sheet: &'a [u64],
    pub(crate) count: usize,
    ghost counted: { count ≡ (sheet_in sheet.now).count },
    ghost some: { 1 ≤ count },
    ghost few: { count ≤ most_rows },
    ghost whole: { sheet_long count ≤ length sheet.now },
}

impl<'a> Rows<'a> {
    ghost use Rattle.basis.specs.declared.refusal.Refusal.TheVariants as refusals;

    // The rows of a sheet; 10 where it is not in the ranges.
    pub(crate) fn of(sheet: &'a [u64]) -> Result<Rows<'a>, Refusal>
        ensures { MatchResult result
            (λ rows. (rows.sheet.now ≡ sheet.now) × (legal (sheet_in sheet.now) ≡ true))
            (λ refusal. (refusal ≡ refusals.Sheet) × (legal (sheet_in sheet.now) ≡ false)) }
    {
        if !sheet::is_legal(sheet) {
            return Err(Refusal::Sheet);
        }
        let count = sheet::count(sheet) as usize;
        Ok(Rows { sheet, count })
    }

    // The budget of a row. It is no call of `sheet::row_at`, which looks at the end of the list: an entry of a slot would do it each time.
    pub(crate) fn budget(&self, row: usize) -> u64
        requires { row < self.now.count }
        ensures { result ≡ budget_at (sheet_in self.now.sheet.now) row }
    {
        self.sheet[row * 4 + 5]
    }
}
