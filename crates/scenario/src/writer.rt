// The writer of a scenario: first the list is checked and its bytes are counted, and only then they are written.
ghost use Rattle.std.specs.Prelude.{◌≡◌, ◌+◌, ◌*◌, ◌≤◌, leb, length};
ghost use Rattle.std.proofs.lemmas.List.Edits.{sets};
ghost use Rattle.basis.specs.Limits.{most_rows};
ghost use Rattle.basis.specs.Lent.{written_told};
ghost use Rattle.basis.specs.Refusals.{outcome, first_of};
ghost use Rattle.sheet.specs.Lists.{sheet_in};
ghost use Rattle.scenario.specs.Written.{releases_in, releases_bytes, slot_bytes, file_of};
ghost use Rattle.scenario.specs.Answers.{over_at, check_whole, write_scenario};
ghost use Rattle.scenario.specs.Inside.Parts.{entry_bytes};

use crate::reader::MARK;
use crate::rows::Rows;
use basis::Refusal;

// Whether an entry of a slot is over its row's budget, the first of them.
fn check_slot(rows: &Rows, slot: &[u64]) -> Result<(), Refusal>
    requires { length slot.now ≡ rows.now.count }
    ensures { outcome result ≡ first_of (length slot.now) (over_at (sheet_in rows.now.sheet.now) slot.now) }
{
    for (row, value) in slot.iter().enumerate() {
        if rows.budget(row) < *value {
            return Err(Refusal::Budget(row));
        }
    }
    Ok(())
}

// 11, 12.
fn check_whole(rows: &Rows, releases: &[u64]) -> Result<(), Refusal>
    ensures { outcome result ≡ check_whole (sheet_in rows.now.sheet.now) releases.now }
{
    if releases.len() % rows.count != 0 {
        return Err(Refusal::Releases);
    }
    for slot in releases.chunks_exact(rows.count) {
        check_slot(rows, slot)?;
    }
    Ok(())
}

// How many entries of a slot are a release. A loop is faster here than `filter` and `count`, which jump at each entry.
fn count_releases(slot: &[u64]) -> u64
    ensures { result ≡ releases_in slot.now }
{
    let mut count = 0;
    for value in slot {
        count += u64::from(*value != 0);
    }
    count
}

// How many bytes an entry takes.
fn entry_length(row: u64, value: u64) -> usize
    ensures { (result ≡ length (entry_bytes row value)) × (result ≤ 6) }
{
    if value == 0 {
        return 0;
    }
    numbers::number_length(row) + numbers::number_length(value)
}

// How many bytes the releases of a slot take.
fn releases_length(slot: &[u64]) -> usize
    requires { length slot.now ≤ most_rows }
    ensures { (result ≡ length (releases_bytes 0 slot.now)) × (result ≤ most_rows * 6) }
{
    let mut long = 0;
    for (row, value) in slot.iter().enumerate() {
        long += entry_length(row as u64, *value);
    }
    long
}

// How many bytes a slot takes.
fn slot_length(slot: &[u64]) -> usize
    requires { length slot.now ≤ most_rows }
    ensures { result ≡ length (slot_bytes slot.now) }
{
    numbers::number_length(count_releases(slot)) + releases_length(slot)
}

// Whether the scenario of a list has room in so many bytes.
fn fits(rows: &Rows, releases: &[u64], room: usize) -> bool
    ensures { result ≡ leb (length (file_of (sheet_in rows.now.sheet.now) releases.now)) room }
{
    if room < MARK.len() {
        return false;
    }
    let mut left = room - MARK.len();
    for slot in releases.chunks_exact(rows.count) {
        let need = slot_length(slot);
        if left < need {
            return false;
        }
        left -= need;
    }
    true
}

// Writes an entry, and answers the place after it.
fn write_entry(bytes: &mut [u8], at: usize, row: u64, value: u64) -> usize
    requires { at + length (entry_bytes row value) ≤ length bytes.old }
    ensures { (result ≡ at + length (entry_bytes row value)) × (bytes.new ≡ sets bytes.old at (entry_bytes row value)) }
{
    if value == 0 {
        return at;
    }
    let next = at + numbers::write_number(bytes, at, row);
    next + numbers::write_number(bytes, next, value)
}

// Writes the releases of a slot, and answers the place after them.
fn write_releases(slot: &[u64], bytes: &mut [u8], at: usize) -> usize
    requires { at + length (releases_bytes 0 slot.now) ≤ length bytes.old }
    ensures { (result ≡ at + length (releases_bytes 0 slot.now)) × (bytes.new ≡ sets bytes.old at (releases_bytes 0 slot.now)) }
{
    let mut next = at;
    for (row, value) in slot.iter().enumerate() {
        next = write_entry(bytes, next, row as u64, *value);
    }
    next
}

// Writes a slot, and answers the place after it.
fn write_slot(slot: &[u64], bytes: &mut [u8], at: usize) -> usize
    requires { at + length (slot_bytes slot.now) ≤ length bytes.old }
    ensures { (result ≡ at + length (slot_bytes slot.now)) × (bytes.new ≡ sets bytes.old at (slot_bytes slot.now)) }
{
    let long = numbers::write_number(bytes, at, count_releases(slot));
    write_releases(slot, bytes, at + long)
}

// Writes the scenario of a list, and answers how many bytes it takes.
fn write_all(rows: &Rows, releases: &[u64], bytes: &mut [u8]) -> usize
    requires { length (file_of (sheet_in rows.now.sheet.now) releases.now) ≤ length bytes.old }
    ensures { (result ≡ length (file_of (sheet_in rows.now.sheet.now) releases.now))
        × (bytes.new ≡ sets bytes.old 0 (file_of (sheet_in rows.now.sheet.now) releases.now)) }
{
    basis::put_bytes(bytes, 0, &MARK);
    let mut next = MARK.len();
    for slot in releases.chunks_exact(rows.count) {
        next = write_slot(slot, bytes, next);
    }
    next
}

// Writes the scenario of a release list, and answers the number of bytes.
pub fn write_scenario(sheet: &[u64], releases: &[u64], bytes: &mut [u8]) -> Result<usize, Refusal>
    ensures { written_told result bytes.new ≡ write_scenario (sheet_in sheet.now) releases.now bytes.old }
{
    let rows = Rows::of(sheet)?;
    check_whole(&rows, releases)?;
    if !fits(&rows, releases, bytes.len()) {
        return Err(Refusal::Room);
    }
    Ok(write_all(&rows, releases, bytes))
}
