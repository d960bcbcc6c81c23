// The bytes of a sheet, written into a lent buffer.
ghost use Rattle.std.specs.Prelude.{◌≡◌, ◌+◌, ◌*◌, ◌≤◌, ◌<◌, length};
ghost use Rattle.std.proofs.lemmas.List.Edits.{sets};
ghost use Rattle.basis.specs.Lent.{written_told};
ghost use Rattle.basis.specs.Limits.{longest_label};
ghost use Rattle.sheet.specs.Lists.{sheet_in};
ghost use Rattle.writer.specs.Form.{label_bytes, row_bytes, entry_bytes, entries_bytes, head_bytes, sheet_bytes};
ghost use Rattle.writer.specs.Answers.{entry_of, first_rows, held_by, write_sheet};
ghost use Rattle.writer.specs.Inside.Bounds.{most_head, most_label, most_row, most_entry, most_sheet};

use crate::checking::{Source, part_of};
use basis::Refusal;
use numbers::write_number;
use reader::MARK;
use sheet::Row;

// Writes a label with its length, and answers the place after it.
fn write_label(label: &[u8], out: &mut [u8], at: usize) -> usize
    requires { (length label.now ≤ longest_label) × (at ≤ most_sheet) }
    ensures { (result ≡ at + length (label_bytes label.now)) × (result ≤ at + most_label) × (out.new ≡ sets out.old at (label_bytes label.now)) }
{
    let start = at + write_number(out, at, label.len() as u64);
    basis::put_bytes(out, start, label);
    start + label.len()
}

// Writes the numbers of a row, and answers the place after them.
fn write_row(row: Row, out: &mut [u8], at: usize) -> usize
    requires { at ≤ most_sheet + most_label }
    ensures { (result ≡ at + length (row_bytes row)) × (result ≤ at + most_row) × (out.new ≡ sets out.old at (row_bytes row)) }
{
    let second = at + write_number(out, at, row.threads);
    let third = second + write_number(out, second, row.separation);
    let fourth = third + write_number(out, third, row.deadline);
    fourth + write_number(out, fourth, row.budget)
}

// Writes what stands before the rows, and answers the place after it.
fn write_head(processors: u64, count: u64, out: &mut [u8]) -> usize
    ensures { (result ≡ length (head_bytes processors count)) × (result ≤ most_head) × (out.new ≡ sets out.old 0 (head_bytes processors count)) }
{
    basis::put_bytes(out, 0, &MARK);
    let second = 4 + write_number(out, 4, processors);
    second + write_number(out, second, count)
}

impl<'a> Source<'a> {
    // Writes row k with its label, and answers the place after it.
    fn write_entry(&self, k: usize, out: &mut [u8], at: usize) -> usize
        requires { (k < self.now.rows) × (at ≤ most_sheet) }
        ensures { (result ≡ at + length (entry_bytes (entry_of (sheet_in self.now.sheet.now) self.now.bytes.now self.now.labels.now k)))
            × (result ≤ at + most_entry)
            × (out.new ≡ sets out.old at (entry_bytes (entry_of (sheet_in self.now.sheet.now) self.now.bytes.now self.now.labels.now k))) }
    {
        let part = part_of(self.labels, k);
        let label = &self.bytes[part.start..part.start + part.long];
        let next = write_label(label, out, at);
        write_row(sheet::row_at(self.sheet, k), out, next)
    }

    // Writes the rows, and answers the place after them.
    fn write_rows(&self, out: &mut [u8], at: usize) -> usize
        requires { at ≤ most_head }
        ensures { (result ≡ at + length (entries_bytes (first_rows self.now.rows (entry_of (sheet_in self.now.sheet.now) self.now.bytes.now self.now.labels.now))))
            × (out.new ≡ sets out.old at (entries_bytes (first_rows self.now.rows (entry_of (sheet_in self.now.sheet.now) self.now.bytes.now self.now.labels.now)))) }
    {
        let mut next = at;
        for i in 0..self.rows {
            next = self.write_entry(i, out, next);
        }
        next
    }

    // Writes it, and answers how many bytes it takes.
    fn write_all(&self, out: &mut [u8]) -> usize
        ensures { (result ≡ length (sheet_bytes (held_by (sheet_in self.now.sheet.now) self.now.bytes.now self.now.labels.now)))
            × (out.new ≡ sets out.old 0 (sheet_bytes (held_by (sheet_in self.now.sheet.now) self.now.bytes.now self.now.labels.now))) }
    {
        let next = write_head(sheet::processors(self.sheet), self.rows as u64, out);
        self.write_rows(out, next)
    }

    // The same where there is room, and 15 where there is not.
    fn write(&self, out: &mut [u8]) -> Result<usize, Refusal>
        ensures { written_told result out.new ≡ write_sheet (sheet_in self.now.sheet.now) self.now.bytes.now self.now.labels.now out.old }
    {
        if !self.fits(out.len()) {
            return Err(Refusal::Room);
        }
        Ok(self.write_all(out))
    }
}

// Writes a sheet from its numbers and the labels of its rows, which are parts of some bytes; the number of bytes, or the one refusal.
pub fn write_sheet(
    sheet: &[u64],
    bytes: &[u8],
    labels: &[u64],
    out: &mut [u8],
) -> Result<usize, Refusal>
    ensures { written_told result out.new ≡ write_sheet (sheet_in sheet.now) bytes.now labels.now out.old }
{
    Source::checked(sheet, bytes, labels)?.write(out)
}
