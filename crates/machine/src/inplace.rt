// Slots in place: the state stands in a lent list, which a slot changes; nothing is copied, and a run makes its checks once.
ghost use Rattle.std.specs.Prelude.{◌≡◌, true, ◌+◌, ◌*◌, ◌<◌, ◌≤◌, length, IfOk};
ghost use Rattle.basis.specs.Refusals.{accepted, outcome};
ghost use Rattle.sheet.specs.Legal.{row_at};
ghost use Rattle.sheet.specs.Lists.{sheet_in};
ghost use Rattle.machine.specs.States.{legal_state};
ghost use Rattle.machine.specs.Slot.{next};
ghost use Rattle.records.specs.Records.{record_of};
ghost use Rattle.records.specs.Checks.{check_row};
ghost use Rattle.machine.specs.Checks.{check_releases, check_state, check_slot, check_run};
ghost use Rattle.machine.specs.Answers.{slot_answer, run_answer, given, next_codes, slot_at, course};
ghost use Rattle.records.specs.Methods.{stepped_row};
ghost use Rattle.machine.specs.Lists.{state_long, record_in, state_in, put_record, put_to, slot_in, run_in, ran_in};

use crate::places::{Done, is_legal_in, put_record, record_in};
use crate::sheets::LegalSheet;
use basis::Refusal;
use records::{Placed, RowState, check_row};

// Whether a row may be released for so many slots; a row without a release is not looked at.
#[tactic(auto, unfolding(records::specs::Checks::check_row))]
fn check_in(sheet: LegalSheet<'_>, list: &[u64], release: u64, place: usize) -> Result<(), Refusal>
    requires { (place < sheet.rows) × (state_long (place + 1) ≤ length list.now) }
    ensures { outcome result ≡ check_row (row_at (sheet_in sheet.entry.list.now) place) (record_in list.now place) release place }
{
    if release == 0 {
        return Ok(());
    }
    check_row(sheet.row(place), record_in(list, place), release, place)
}

// The releases of a slot, rows from the top.
fn check_releases_in(sheet: LegalSheet<'_>, list: &[u64], releases: &[u64]) -> Result<(), Refusal>
    requires { (legal_state (sheet_in sheet.list.now) (state_in list.now) ≡ true) × (sheet.rows ≤ length releases.now) }
    ensures { outcome result ≡ check_releases (sheet_in sheet.entry.list.now) (state_in list.now) releases.now }
{
    for i in 0..sheet.rows {
        check_in(sheet, list, releases[i], i)?;
    }
    Ok(())
}

// One row's slot, with so many processors free: its record is changed where it stands.
fn step_row(sheet: LegalSheet<'_>, list: &mut [u64], k: usize, release: u64, free: u64) -> Placed
    requires { (k < sheet.rows) × (state_long (k + 1) ≤ length list.old) }
    ensures { (result ≡ stepped_row (row_at (sheet_in sheet.entry.list.now) k) (record_in list.old k).job release free)
        × (list.new ≡ put_record list.old k (record_of result.after)) }
{
    let stepped = record_in(list, k).job.stepped(sheet.row(k), release, free);
    put_record(list, k, RowState { job: stepped.after });
    stepped
}

// A slot whose checks have passed: rows from the top, with every processor free; each record is changed where it stands.
fn step_rows(sheet: LegalSheet<'_>, list: &mut [u64], releases: &[u64], codes: &mut [u8])
    requires { (legal_state (sheet_in sheet.list.now) (state_in list.old) ≡ true) × (sheet.rows ≤ length releases.now) × (sheet.rows ≤ length codes.old) }
    ensures { (list.new ≡ put_to sheet.entry.rows (next (given (sheet_in sheet.entry.list.now) (state_in list.old) releases.now)) list.old)
        × (codes.new ≡ next_codes (sheet_in sheet.entry.list.now) (state_in list.old) releases.now codes.old) }
{
    let mut free = sheet.processors();
    for i in 0..sheet.rows {
        let stepped = step_row(sheet, list, i, releases[i], free);
        codes[i] = stepped.code;
        free = stepped.free;
    }
}

// Slot j of a run whose checks have passed.
fn slot_part(
    sheet: LegalSheet<'_>,
    list: &mut [u64],
    releases: &[u64],
    codes: &mut [u8],
    j: usize,
) -> Result<(), Refusal>
    requires { (legal_state (sheet_in sheet.list.now) (state_in list.old) ≡ true)
        × (j * sheet.rows + sheet.rows ≤ length releases.now) × (j * sheet.rows + sheet.rows ≤ length codes.old) }
    ensures { (slot_answer (outcome result) (state_in list.new) codes.new ≡ slot_at (sheet_in sheet.entry.list.now) (state_in list.old) releases.now codes.old j)
        × (legal_state (sheet_in sheet.entry.list.now) (state_in list.new) ≡ true) }
{
    let at = j * sheet.rows;
    let end = at + sheet.rows;
    check_releases_in(sheet, list, &releases[at..end])?;
    step_rows(sheet, list, &releases[at..end], &mut codes[at..]);
    Ok(())
}

// So many slots one after another, to the first that is refused.
fn run_part(
    sheet: LegalSheet<'_>,
    list: &mut [u64],
    releases: &[u64],
    codes: &mut [u8],
    slots: usize,
) -> Done
    requires { (legal_state (sheet_in sheet.list.now) (state_in list.old) ≡ true)
        × (slots * sheet.rows ≤ length releases.now) × (slots * sheet.rows ≤ length codes.old) }
    ensures { (ran_in result (state_in list.new) codes.new ≡ course (sheet_in sheet.entry.list.now) releases.now (run_answer 0 accepted (state_in list.old) codes.old) slots)
        × (legal_state (sheet_in sheet.entry.list.now) (state_in list.new) ≡ true) }
{
    for done in 0..slots {
        if let Err(refusal) = slot_part(sheet, list, releases, codes, done) {
            return Done {
                done: done as u64,
                ended: Err(refusal),
            };
        }
    }
    Done {
        done: slots as u64,
        ended: Ok(()),
    }
}

// 10, then 16: the sheet, where the state in the list is legal for it.
pub(crate) fn checked_state<'a, 'b>(
    sheet: &'a [u64],
    list: &'b [u64],
) -> Result<LegalSheet<'a>, Refusal>
    ensures told { outcome result ≡ check_state (sheet_in sheet.now) (state_in list.now) }
    ensures own { IfOk result (λ s. s.list.now ≡ sheet.now) }
{
    let sheet = LegalSheet::checked(sheet)?;
    if is_legal_in(sheet, list) {
        Ok(sheet)
    } else {
        Err(Refusal::State)
    }
}

// 10, 16, 11, 15, then the releases.
fn checked_slot<'a, 'b>(
    sheet: &'a [u64],
    list: &'b [u64],
    releases: &'b [u64],
    room: usize,
) -> Result<LegalSheet<'a>, Refusal>
    ensures told { outcome result ≡ check_slot (sheet_in sheet.now) (state_in list.now) releases.now room }
    ensures own { IfOk result (λ s. s.list.now ≡ sheet.now) }
{
    let sheet = checked_state(sheet, list)?;
    if releases.len() != sheet.rows {
        return Err(Refusal::Releases);
    }
    if room < releases.len() {
        return Err(Refusal::Room);
    }
    check_releases_in(sheet, list, releases)?;
    Ok(sheet)
}

// 10, 16, 11, 15 over the whole list.
fn checked_run<'a, 'b>(
    sheet: &'a [u64],
    list: &'b [u64],
    releases: &'b [u64],
    room: usize,
) -> Result<LegalSheet<'a>, Refusal>
    ensures told { outcome result ≡ check_run (sheet_in sheet.now) (state_in list.now) releases.now room }
    ensures own { IfOk result (λ s. s.list.now ≡ sheet.now) }
{
    let sheet = checked_state(sheet, list)?;
    if releases.len() % sheet.rows != 0 {
        return Err(Refusal::Releases);
    }
    if room < releases.len() {
        return Err(Refusal::Room);
    }
    Ok(sheet)
}

// The checks of a slot. It and the next are two promises, and no more than a call each.
pub fn check_slot_in(
    sheet: &[u64],
    list: &[u64],
    releases: &[u64],
    room: usize,
) -> Result<(), Refusal>
    ensures { outcome result ≡ check_slot (sheet_in sheet.now) (state_in list.now) releases.now room }
{
    checked_slot(sheet, list, releases, room)?;
    Ok(())
}

// The checks of a run before its first slot. It stands beside `check_slot_in`, which is another promise: neither is more than its one call.
pub fn check_run_in(
    sheet: &[u64],
    list: &[u64],
    releases: &[u64],
    room: usize,
) -> Result<(), Refusal>
    ensures { outcome result ≡ check_run (sheet_in sheet.now) (state_in list.now) releases.now room }
{
    checked_run(sheet, list, releases, room)?;
    Ok(())
}

// One slot of the state in a list: a refused slot leaves all as found.
pub fn slot_on(
    sheet: &[u64],
    list: &mut [u64],
    releases: &[u64],
    codes: &mut [u8],
) -> Result<(), Refusal>
    ensures { slot_answer (outcome result) list.new codes.new ≡ slot_in (sheet_in sheet.now) list.old releases.now codes.old }
{
    let sheet = checked_slot(sheet, list, releases, codes.len())?;
    step_rows(sheet, list, releases, codes);
    Ok(())
}

// A run of slots on the state in a list.
pub fn run_on(sheet: &[u64], list: &mut [u64], releases: &[u64], codes: &mut [u8]) -> Done
    ensures { ran_in result list.new codes.new ≡ run_in (sheet_in sheet.now) list.old releases.now codes.old }
{
    match checked_run(sheet, list, releases, codes.len()) {
        Ok(sheet) => run_part(sheet, list, releases, codes, releases.len() / sheet.rows),
        Err(refusal) => Done {
            done: 0,
            ended: Err(refusal),
        },
    }
}
