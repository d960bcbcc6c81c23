// The rows of a sheet, one after another, into lists.
ghost use Rattle.std.specs.Prelude.{◌≡◌, ◌+◌, ◌≤◌, ◌<◌, length};
ghost use Rattle.basis.specs.Limits.{most_rows};
ghost use Rattle.basis.specs.Readers.{map_step, passed_step};
ghost use Rattle.sheet.specs.Lists.{sheet_long};
ghost use Rattle.reader.specs.Form.{entries};
ghost use Rattle.reader.specs.Lists.{labels_long};
ghost use Rattle.reader.specs.Inside.Steps.{nothing, put_row, put_part, Took};

use crate::row::{Part, read_entry};
use basis::Refusal;
use sheet::Row;

// Makes row k of a list.
fn put_row(list: &mut [u64], k: usize, row: Row)
    requires { (k < most_rows) × (sheet_long (k + 1) ≤ length list.old) }
    ensures { list.new ≡ put_row list.old k row }
{
    list[k * 4 + 2] = row.threads;
    list[k * 4 + 3] = row.separation;
    list[k * 4 + 4] = row.deadline;
    list[k * 4 + 5] = row.budget;
}

// Makes part k of a list.
fn put_part(labels: &mut [u64], k: usize, part: Part)
    requires { (k < most_rows) × (labels_long (k + 1) ≤ length labels.old) }
    ensures { labels.new ≡ put_part labels.old k part }
{
    labels[k * 2] = part.start as u64;
    labels[k * 2 + 1] = part.long as u64;
}

// So many rows, a number of the file, from a place on, into a list with the numbers that stand before them, and into another where their labels lie; the answer is the place after them.
pub(crate) fn take_rows(
    bytes: &[u8],
    at: usize,
    processors: u64,
    count: usize,
    list: &mut [u64],
    labels: &mut [u64],
) -> Result<usize, Refusal>
    requires { (count ≤ most_rows) × (sheet_long count ≤ length list.old) × (labels_long count ≤ length labels.old) }
    ensures { (passed_step result ≡ map_step nothing (entries processors count bytes.now at))
        × (Took processors count bytes.now at list.old labels.old list.new labels.new result) }
{
    list[0] = processors;
    list[1] = count as u64;
    let mut next = at;
    for i in 0..count {
        let (entry, after) = read_entry(bytes, next, processors)?;
        put_row(list, i, entry.row);
        put_part(labels, i, entry.label);
        next = after;
    }
    Ok(next)
}
