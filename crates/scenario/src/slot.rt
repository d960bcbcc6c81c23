// Reading one slot of a scenario.
ghost use Rattle.std.specs.Prelude.{◌≡◌, ◌≤◌, ◌<◌, length, IfOk};
ghost use Rattle.basis.specs.Readers.{step};
ghost use Rattle.sheet.specs.Lists.{sheet_in};
ghost use Rattle.scenario.specs.Form.{row, releases, slot};
ghost use Rattle.scenario.specs.Answers.{found_told, read_slot};
ghost use Rattle.scenario.specs.Inside.Parts.{Landed};

use crate::rows::Rows;
use basis::{MOST_GROUPS, MOST_ROWS, Refusal};
use numbers::read_in_range;

// The reading of a slot looks at no more bytes.
pub const SLOT_REACH: usize = (MOST_ROWS + 1) * 2 * (MOST_GROUPS as usize);

// What reading a slot gives: the place after it, and an entry for each row.
#[derive(Clone, Copy)]
pub struct SlotRead {
    pub next: usize,
    pub entries: [u64; MOST_ROWS],
}

// A row number, `least` or more, and the place after it.
fn read_row(rows: &Rows, bytes: &[u8], at: usize, least: usize) -> Result<(usize, usize), Refusal>
    ensures told { step result ≡ row (sheet_in rows.now.sheet.now).count least bytes.now at }
    ensures there { IfOk result (λ x. x.0 < rows.now.count) }
{
    let (number, next) = numbers::read_number(bytes, at)?;
    let row = number as usize;
    if rows.count <= row {
        return Err(Refusal::Row(at));
    }
    if row < least {
        return Err(Refusal::Order(at));
    }
    Ok((row, next))
}

// So many releases of a slot, a number of the file, into lent entries, and the place after them.
fn read_releases(
    rows: &Rows,
    bytes: &[u8],
    at: usize,
    count: u64,
    entries: &mut [u64],
) -> Result<usize, Refusal>
    requires { rows.now.count ≤ length entries.old }
    ensures { Landed (releases (sheet_in rows.now.sheet.now) count 0 entries.old bytes.now at) result entries.new }
{
    let mut next = at;
    let mut least = 0;
    for _release in 0..count {
        let (row, amount_at) = read_row(rows, bytes, next, least)?;
        let wrong = Refusal::Budget(amount_at);
        let (amount, end) = read_in_range(bytes, amount_at, rows.budget(row), wrong, wrong)?;
        entries[row] = amount;
        next = end;
        least = row + 1;
    }
    Ok(next)
}

// The slot at a place into lent entries, and the place after it.
pub(crate) fn slot_at(
    rows: &Rows,
    bytes: &[u8],
    at: usize,
    entries: &mut [u64],
) -> Result<usize, Refusal>
    requires { rows.now.count ≤ length entries.old }
    ensures { Landed (slot (sheet_in rows.now.sheet.now) entries.old bytes.now at) result entries.new }
{
    let (count, first) = numbers::read_number(bytes, at)?;
    read_releases(rows, bytes, first, count, entries)
}

// The slot at a place: an entry for each row, and zeros past the rows.
pub fn read_slot(sheet: &[u64], bytes: &[u8], at: usize) -> Result<SlotRead, Refusal>
    ensures { found_told result ≡ read_slot (sheet_in sheet.now) bytes.now at }
{
    let rows = Rows::of(sheet)?;
    let mut entries = [0; MOST_ROWS];
    let next = slot_at(&rows, bytes, at, &mut entries)?;
    Ok(SlotRead { next, entries })
}
