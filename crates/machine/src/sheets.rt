// A legal sheet in a list of plain numbers: its check, and what is read of it.
ghost use Rattle.std.specs.Prelude.{◌≡◌, true, ◌<◌, ◌≤◌, length, IfOk};
ghost use Rattle.basis.specs.Limits.{most_rows};
ghost use Rattle.basis.specs.Refusals.{outcome, needed};
ghost use Rattle.sheet.specs.Legal.{row_at, legal};
ghost use Rattle.sheet.specs.Lists.{sheet_in, sheet_long};

use basis::Refusal;
use sheet::Row;

// The list of a sheet that is legal, and the number of its rows. What is known of a state's list is no part of it: a slot changes that list row by row. It stands beside `Rows` of `scenario`: shared, it would be public, and reading a row would look at the list's end.
#[derive(Clone, Copy)]
pub(crate) struct LegalSheet<'a> {
    list: &'a [u64],
    pub(crate) rows: usize,
    ghost fine: { legal (sheet_in list.now) ≡ true },
    ghost counted: { rows ≡ (sheet_in list.now).count },
    ghost some: { 1 ≤ rows },
    ghost few: { rows ≤ most_rows },
    ghost whole: { sheet_long rows ≤ length list.now },
}

impl<'a> LegalSheet<'a> {
    // 10.
    pub(crate) fn checked(list: &'a [u64]) -> Result<LegalSheet<'a>, Refusal>
        ensures told { outcome result ≡ needed (legal (sheet_in list.now)) 10 }
        ensures own { IfOk result (λ s. s.list.now ≡ list.now) }
    {
        if sheet::is_legal(list) {
            Ok(LegalSheet {
                list,
                rows: sheet::count(list) as usize,
            })
        } else {
            Err(Refusal::Sheet)
        }
    }

    // Its processors.
    #[tactic(auto, unfolding(sheet::specs::Lists::sheet_in))]
    pub(crate) fn processors(self) -> u64
        ensures { result ≡ (sheet_in self.entry.list.now).processors }
    {
        self.list[0]
    }

    // Its row k. It is no call of `sheet::row_at`, and its processors none of `sheet::processors`: these look at the end of the list, which a slot would do for each row.
    #[tactic(auto, using(sheet::proofs::Inside::ListRows::numbers_handed))]
    pub(crate) fn row(self, k: usize) -> Row
        requires { k < self.rows }
        ensures { result ≡ row_at (sheet_in self.entry.list.now) k }
    {
        let at = k * 4;
        Row {
            threads: self.list[at + 2],
            separation: self.list[at + 3],
            deadline: self.list[at + 4],
            budget: self.list[at + 5],
        }
    }
}
