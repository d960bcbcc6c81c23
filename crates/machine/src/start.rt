// The fresh state of a sheet, in a list.
ghost use Rattle.std.specs.Prelude.{◌≡◌, ◌≤◌, length};
ghost use Rattle.basis.specs.Refusals.{outcome};
ghost use Rattle.sheet.specs.Lists.{sheet_in};
ghost use Rattle.machine.specs.States.{fresh_at};
ghost use Rattle.machine.specs.Answers.{fresh_answer};
ghost use Rattle.machine.specs.Lists.{state_long, put_to, fresh_on};

use crate::places::{RECORD_WIDE, put_record};
use crate::sheets::LegalSheet;
use basis::Refusal;
use records::{Job, RowState};

// Makes the records of a sheet's rows fresh: each without a job, T slots since release.
fn put_fresh(sheet: LegalSheet<'_>, list: &mut [u64])
    requires { state_long sheet.rows ≤ length list.old }
    ensures { list.new ≡ put_to sheet.entry.rows (fresh_at (sheet_in sheet.entry.list.now)) list.old }
{
    for i in 0..sheet.rows {
        let job = Job {
            remaining: 0,
            since: sheet.row(i).separation,
        };
        put_record(list, i, RowState { job });
    }
}

// The fresh state of a sheet in a list: 10, then 15 where there is no room for it; a refusal leaves the list as found.
pub fn fresh_on(sheet: &[u64], list: &mut [u64]) -> Result<(), Refusal>
    ensures { fresh_answer (outcome result) list.new ≡ fresh_on (sheet_in sheet.now) list.old }
{
    let sheet = LegalSheet::checked(sheet)?;
    if list.len() < sheet.rows * RECORD_WIDE {
        return Err(Refusal::Room);
    }
    sheet::clear_from(list, 0);
    put_fresh(sheet, list);
    Ok(())
}
