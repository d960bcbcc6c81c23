// Whether a sheet and its labels can be written.
ghost use Rattle.std.specs.Prelude.{◌≡◌, ◌≤◌, ◌<◌, length, IfOk};
ghost use Rattle.basis.specs.Limits.{most_rows};
ghost use Rattle.basis.specs.Words.{all_of};
ghost use Rattle.basis.specs.Refusals.{accepted, outcome, first_of};
ghost use Rattle.sheet.specs.Lists.{sheet_in};
ghost use Rattle.reader.specs.Lists.{part_in};
ghost use Rattle.writer.specs.Answers.{plain_at, label_lies, label_at, check_sheet};

use basis::{LONGEST_LABEL, Refusal};
use reader::Part;

// Part k of a list of labels: past the list's end it starts at 0 and has no byte.
pub(crate) fn part_of(labels: &[u64], k: usize) -> Part
    requires { k < most_rows }
    ensures { result ≡ part_in labels.now k }
{
    Part {
        start: sheet::number_at(labels, k * 2) as usize,
        long: sheet::number_at(labels, k * 2 + 1) as usize,
    }
}

// Whether each byte is one that a label may have.
fn is_plain(label: &[u8]) -> bool
    ensures { result ≡ all_of (length label.now) (plain_at label.now) }
{
    for b in label {
        if *b < 0x21 || 0x7E < *b {
            return false;
        }
    }
    true
}

// Whether a part lies in its bytes, and is a label.
fn label_lies(bytes: &[u8], part: Part) -> bool
    ensures { result ≡ label_lies bytes.now part }
{
    if part.long < 1 || (LONGEST_LABEL as usize) < part.long {
        return false;
    }
    if bytes.len() < part.long || bytes.len() - part.long < part.start {
        return false;
    }
    is_plain(&bytes[part.start..part.start + part.long])
}

// 6 for the first of n rows that has no such label.
fn check_labels(bytes: &[u8], labels: &[u64], n: usize) -> Result<(), Refusal>
    requires { n ≤ most_rows }
    ensures { outcome result ≡ first_of n (label_at bytes.now labels.now) }
{
    for row in 0..n {
        if !label_lies(bytes, part_of(labels, row)) {
            return Err(Refusal::Label(row));
        }
    }
    Ok(())
}

// A sheet that can be written: its list, the bytes that its labels are parts of, the list of these parts, and how many rows it has.
#[derive(Clone, Copy)]
pub(crate) struct Source<'a> {
    pub(crate) sheet: &'a [u64],
    pub(crate) bytes: &'a [u8],
    pub(crate) labels: &'a [u64],
    pub(crate) rows: usize,
    ghost counted: { rows ≡ (sheet_in sheet.now).count },
    ghost few: { rows ≤ most_rows },
    ghost fine: { check_sheet (sheet_in sheet.now) bytes.now labels.now ≡ accepted },
}

impl<'a> Source<'a> {
    // 10, 6.
    pub(crate) fn checked(
        sheet: &'a [u64],
        bytes: &'a [u8],
        labels: &'a [u64],
    ) -> Result<Source<'a>, Refusal>
        ensures told { outcome result ≡ check_sheet (sheet_in sheet.now) bytes.now labels.now }
        ensures own { IfOk result (λ s. (s.sheet.now ≡ sheet.now) × (s.bytes.now ≡ bytes.now) × (s.labels.now ≡ labels.now)) }
    {
        if !sheet::is_legal(sheet) {
            return Err(Refusal::Sheet);
        }
        let rows = sheet::count(sheet) as usize;
        check_labels(bytes, labels, rows)?;
        Ok(Source {
            sheet,
            bytes,
            labels,
            rows,
        })
    }
}
