// How many bytes a sheet takes.
ghost use Rattle.std.specs.Prelude.{◌≡◌, ◌≤◌, leb};
ghost use Rattle.sheet.specs.Lists.{sheet_in};
ghost use Rattle.writer.specs.Length.{row_long, head_long, sheet_length};
ghost use Rattle.writer.specs.Inside.Bounds.{most_row, most_head};

use crate::checking::{Source, part_of};
use numbers::number_length;
use sheet::Row;

// Bytes of the longest sheet.
const LONGEST_SHEET: usize = 870;

// The numbers of a row.
fn row_length(row: Row) -> usize
    ensures { (result ≡ row_long row) × (result ≤ most_row) }
{
    number_length(row.threads)
        + number_length(row.separation)
        + number_length(row.deadline)
        + number_length(row.budget)
}

// What stands before the rows.
fn head_length(processors: u64, count: u64) -> usize
    ensures { (result ≡ head_long processors count) × (result ≤ most_head) }
{
    4 + number_length(processors) + number_length(count)
}

impl<'a> Source<'a> {
    // Whether it has room in so many bytes; where the longest has, nothing is measured.
    pub(crate) fn fits(&self, room: usize) -> bool
        ensures { result ≡ leb (sheet_length (sheet_in self.now.sheet.now) self.now.labels.now) room }
    {
        if LONGEST_SHEET <= room {
            return true;
        }
        let head = head_length(sheet::processors(self.sheet), self.rows as u64);
        if room < head {
            return false;
        }
        let mut left = room - head;
        for i in 0..self.rows {
            let long = part_of(self.labels, i).long;
            if left < long {
                return false;
            }
            let rest = number_length(long as u64) + row_length(sheet::row_at(self.sheet, i));
            if left - long < rest {
                return false;
            }
            left = left - long - rest;
        }
        true
    }
}
