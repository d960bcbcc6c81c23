// The label of a row: a part of the sheet's own bytes.
ghost use Rattle.std.specs.Prelude.{◌≡◌, ◌<◌, length};
ghost use Rattle.basis.specs.Limits.{most_rows};
ghost use Rattle.reader.specs.Answers.{shown, part, label_in, labels_in};
ghost use Rattle.reader.specs.Lists.{labels_long, part_in};

use crate::into::{LABELS_LONG, read_into};
use crate::row::Part;
use basis::MOST_ROWS;
use sheet::SHEET_LONG;

// Part k of a list with room for every one.
fn part_in(labels: &[u64], k: usize) -> Part
    requires { (k < most_rows) × (length labels.now ≡ labels_long most_rows) }
    ensures { result ≡ part_in labels.now k }
{
    Part {
        start: labels[k * 2] as usize,
        long: labels[k * 2 + 1] as usize,
    }
}

// The part that is the label of a row; the empty part for any refusal, and for a row number that the sheet does not have.
pub fn label_part(bytes: &[u8], row: usize) -> Part
    ensures { result ≡ label_in bytes.now row }
{
    let mut list = [0u64; SHEET_LONG];
    let mut labels = [0u64; LABELS_LONG];
    let _ = read_into(bytes, &mut list, &mut labels);
    if row < MOST_ROWS {
        return part_in(&labels, row);
    }
    Part { start: 0, long: 0 }
}

// The label of a row, shown in the bytes themselves.
pub fn label(bytes: &[u8], row: usize) -> &[u8]
    ensures { shown result ≡ part bytes.entry (label_in bytes.now row) }
{
    let part = label_part(bytes, row);
    &bytes[part.start..part.start + part.long]
}

// A part for each row that a sheet may have.
#[derive(Clone, Copy)]
pub struct Parts {
    pub parts: [Part; MOST_ROWS],
}

// The part of every row's label; the empty part for any refusal, and past the rows.
pub fn label_parts(bytes: &[u8]) -> Parts
    ensures { result.parts ≡ labels_in bytes.now }
{
    let mut list = [0u64; SHEET_LONG];
    let mut labels = [0u64; LABELS_LONG];
    let _ = read_into(bytes, &mut list, &mut labels);
    let mut parts = [Part { start: 0, long: 0 }; MOST_ROWS];
    for i in 0..MOST_ROWS {
        parts[i] = part_in(&labels, i);
    }
    Parts { parts }
}
