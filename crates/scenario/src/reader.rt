// The reader of a whole scenario: first all of it is checked, and only then the list is filled.
ghost use Rattle.std.specs.Prelude.{◌≡◌, length};
ghost use Rattle.sheet.specs.Lists.{sheet_in};
ghost use Rattle.scenario.specs.Form.{slots};
ghost use Rattle.scenario.specs.Answers.{read_told, read_scenario};
ghost use Rattle.scenario.specs.Inside.Parts.{Counted, Fills, fill_by};

use crate::rows::Rows;
use crate::slot::slot_at;
use basis::{MOST_ROWS, Refusal};

// The scenario's mark.
pub const MARK: [u8; 4] = *b"GSC\x01";

// How many slots there are after the mark. Only a slot says where the next one begins, so the loop goes by the bytes.
fn count_slots(rows: &Rows, bytes: &[u8]) -> Result<usize, Refusal>
    ensures { Counted (slots (sheet_in rows.now.sheet.now) (length bytes.now) bytes.now 4) result }
{
    let mut next = MARK.len();
    let mut count = 0;
    let mut entries = [0; MOST_ROWS];
    while next < bytes.len() {
        next = slot_at(rows, bytes, next, &mut entries)?;
        count += 1;
    }
    Ok(count)
}

// Fills a list with the slots after the mark, where none is refused and as many zeros stand at its front as they have entries.
// The list is cut by hand: after a loop over chunks that are written into, nothing is known of the list.
fn fill(rows: &Rows, bytes: &[u8], releases: &mut [u64])
    requires { Fills (slots (sheet_in rows.now.sheet.now) (length bytes.now) bytes.now 4) releases.old }
    ensures { releases.new ≡ fill_by (slots (sheet_in rows.now.sheet.now) (length bytes.now) bytes.now 4) releases.old }
{
    let mut next = MARK.len();
    let mut base = 0;
    while next < bytes.len() {
        next = slot_at(rows, bytes, next, &mut releases[base..]).unwrap();
        base += rows.count;
    }
}

// The releases that a scenario's bytes hold, written into a list, and the number of slots.
pub fn read_scenario(sheet: &[u64], bytes: &[u8], releases: &mut [u64]) -> Result<u64, Refusal>
    ensures { read_told result releases.new ≡ read_scenario (sheet_in sheet.now) bytes.now releases.old }
{
    let rows = Rows::of(sheet)?;
    if !basis::begins_with(bytes, &MARK) {
        return Err(Refusal::Mark);
    }
    let slots = count_slots(&rows, bytes)?;
    if releases.len() / rows.count < slots {
        return Err(Refusal::Room);
    }
    releases[..slots * rows.count].fill(0);
    fill(&rows, bytes, releases);
    Ok(slots as u64)
}
