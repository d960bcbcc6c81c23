// The state in a lent list of plain numbers: of each row remaining and since.
ghost use Rattle.std.specs.Prelude.{◌≡◌, ◌+◌, ◌*◌, ◌<◌, ◌≤◌, ◌↔◌, length, slice_index, EachIndex, IsTrue};
ghost use Rattle.basis.specs.Limits.{most_rows};
ghost use Rattle.sheet.specs.Lists.{sheet_in};
ghost use Rattle.machine.specs.States.{legal_state};
ghost use Rattle.machine.specs.Lists.{record_in, put_record, state_long, state_in};

use crate::sheets::LegalSheet;
use basis::{MOST_ROWS, Refusal};
use records::{Job, RowState, is_legal_record};

// The numbers of a record.
pub const RECORD_WIDE: usize = 2;

// The places of a list that has room for every record.
pub const STATE_LONG: usize = MOST_ROWS * RECORD_WIDE;

// What a run in place answers: the slots done, and the refusal that ended it if there is one. It is no `Result`, since the slots done mean something beside a refusal too.
#[derive(Clone, Copy)]
pub struct Done {
    pub done: u64,
    pub ended: Result<(), Refusal>,
}

// Record k of a list, which has room for it.
#[tactic(auto, unfolding(crate::specs::Lists::record_in))]
pub(crate) fn record_in(list: &[u64], k: usize) -> RowState
    requires { (k < most_rows) × (state_long (k + 1) ≤ length list.now) }
    ensures { result ≡ record_in list.now k }
{
    let at = k * RECORD_WIDE;
    RowState {
        job: Job {
            remaining: list[at],
            since: list[at + 1],
        },
    }
}

// Makes record k of a list, which has room for it.
#[tactic(auto, unfolding(crate::specs::Lists::put_record))]
pub(crate) fn put_record(list: &mut [u64], k: usize, s: RowState)
    requires { (k < most_rows) × (state_long (k + 1) ≤ length list.old) }
    ensures { list.new ≡ put_record list.old k s }
{
    let at = k * RECORD_WIDE;
    list[at] = s.job.remaining;
    list[at + 1] = s.job.since;
}

// Whether every number of a part of a list is zero. It is no `all`: without a test in each turn the numbers are taken several at a time, and a slot by itself is faster by a tenth where rows are few.
fn is_blank(part: &[u64]) -> bool
    ensures { IsTrue result ↔ EachIndex part.now (λ k. slice_index part.now k ≡ 0) }
{
    let mut bits = 0;
    for x in part {
        bits |= *x;
    }
    bits == 0
}

// Whether every number of a list is zero: part after part, so that a long list is left soon after its first number that is not.
fn is_zero(list: &[u64]) -> bool
    ensures { IsTrue result ↔ EachIndex list.now (λ k. slice_index list.now k ≡ 0) }
{
    for part in list.chunks(STATE_LONG) {
        if !is_blank(part) {
            return false;
        }
    }
    true
}

// Whether the state in a list is legal for a sheet: a list that ends before its last record is not.
pub(crate) fn is_legal_in(sheet: LegalSheet<'_>, list: &[u64]) -> bool
    ensures { result ≡ legal_state (sheet_in sheet.entry.list.now) (state_in list.now) }
{
    let long = sheet.rows * RECORD_WIDE;
    if list.len() < long {
        return false;
    }
    for i in 0..sheet.rows {
        if !is_legal_record(sheet.row(i), record_in(list, i)) {
            return false;
        }
    }
    is_zero(&list[long..])
}
