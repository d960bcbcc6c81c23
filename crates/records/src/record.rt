// The record of a row, and the check that it is legal for its row.
ghost use Rattle.std.specs.Prelude.{◌≡◌};
ghost use Rattle.records.specs.Records.{legal_record};

use sheet::Row;

// What a row has to do: the slots that remain of its job, and the slots since its release.
#[derive(Clone, Copy)]
pub struct Job {
    pub remaining: u64,
    pub since: u64,
}

// The record of a row: its job.
#[derive(Clone, Copy)]
pub struct RowState {
    pub job: Job,
}

// Whether a record is legal for its row.
#[tactic(auto, unfolding(crate::specs::Records::legal_job))]
pub fn is_legal_record(row: Row, s: RowState) -> bool
    ensures { result ≡ legal_record row s }
{
    (1..=row.separation).contains(&s.job.since)
        && s.job.remaining <= row.budget
        && (s.job.remaining == 0 || s.job.since < row.deadline)
}
