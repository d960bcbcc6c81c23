// The margin of a row.
ghost use Rattle.std.specs.Prelude.{◌≡◌, ◌≤◌, Ok};
ghost use Rattle.basis.specs.Limits.{most_separation};
ghost use Rattle.sheet.specs.Lists.{sheet_in};
ghost use Rattle.machine.specs.Lists.{state_in};
ghost use Rattle.machine.specs.Answers.{margin_answer, margin_at, margin};

use crate::inplace::checked_state;
use crate::places::record_in;
use basis::Refusal;
use records::Job;
use sheet::Row;

// The margin of a row by its job; a row without a job has none.
#[tactic(auto, using(crate::proofs::Inside::MarginAnswers::margin_none, crate::proofs::Inside::MarginAnswers::margin_some))]
fn margin_of(row: Row, job: Job) -> Option<i64>
    requires { (row.deadline ≤ most_separation) × (job.since ≤ most_separation) × (job.remaining ≤ most_separation) }
    ensures { margin_answer (Ok result) ≡ margin_at row job }
{
    if job.remaining == 0 {
        None
    } else {
        Some(row.deadline as i64 - (job.since + job.remaining) as i64)
    }
}

// The margin of a row of the state in a list: 10, 16, 14.
pub fn margin_on(sheet: &[u64], list: &[u64], row: usize) -> Result<Option<i64>, Refusal>
    ensures { margin_answer result ≡ margin (sheet_in sheet.now) (state_in list.now) row }
{
    let sheet = checked_state(sheet, list)?;
    if sheet.rows <= row {
        return Err(Refusal::Row(0));
    }
    Ok(margin_of(sheet.row(row), record_in(list, row).job))
}
