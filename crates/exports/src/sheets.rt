// A sheet's fields and its labels, as they are read; and its bytes, as they are written.
ghost use Rattle.std.specs.Prelude.{◌≡◌};
ghost use Rattle.exports.specs.Answers.{read_in, label_answer};
ghost use Rattle.exports.specs.Sheets.{labels_on, sheet_written};

use crate::telling::{put_found, tell};
use basis::Refusal;
use reader::LABELS_LONG;
use sheet::SHEET_LONG;

// Reads a sheet's bytes into a list: processors, rows n, and then of each row threads, separation, deadline and budget.
#[unsafe(no_mangle)]
pub extern "C" fn giachimu_read(bytes: &[u8], list: &mut [u64], place: &mut usize) -> u64
    ensures { ((result, place.new), list.new) ≡ read_in bytes.now list.old }
{
    let mut labels = [0u64; LABELS_LONG];
    // A match here and below, since what is done with an accepted answer is more than to put it where it is wanted.
    match reader::read_into(bytes, list, &mut labels) {
        Ok(()) => {
            let n = sheet::count(list) as usize;
            sheet::clear_from(list, n * 4 + 2);
            tell(Ok(()), place)
        }
        Err(refusal) => tell(Err(refusal), place),
    }
}

// Where the label of a row starts in the sheet's bytes, and how long it is.
#[unsafe(no_mangle)]
pub extern "C" fn giachimu_label(
    bytes: &[u8],
    row: usize,
    start: &mut usize,
    long: &mut usize,
    place: &mut usize,
) -> u64
    ensures { ((result, place.new), (start.new, long.new)) ≡ label_answer bytes.now row (start.old, long.old) }
{
    let mut list = [0u64; SHEET_LONG];
    let mut labels = [0u64; LABELS_LONG];
    match reader::read_into(bytes, &mut list, &mut labels) {
        Ok(()) => {
            let n = sheet::count(&list) as usize;
            if n <= row {
                return tell(Err(Refusal::Row(0)), place);
            }
            *start = labels[row * 2] as usize;
            *long = labels[row * 2 + 1] as usize;
            tell(Ok(()), place)
        }
        Err(refusal) => tell(Err(refusal), place),
    }
}

// Where the label of each row starts in the sheet's bytes, and how long it is, in a list.
#[unsafe(no_mangle)]
pub extern "C" fn giachimu_labels(bytes: &[u8], labels: &mut [u64], place: &mut usize) -> u64
    ensures { ((result, place.new), labels.new) ≡ labels_on bytes.now labels.old }
{
    let mut list = [0u64; SHEET_LONG];
    match reader::read_into(bytes, &mut list, labels) {
        Ok(()) => {
            let n = sheet::count(&list) as usize;
            sheet::clear_from(labels, n * 2);
            tell(Ok(()), place)
        }
        Err(refusal) => tell(Err(refusal), place),
    }
}

// Writes a sheet's bytes from its list and its labels, which are parts of some bytes, and tells how many bytes that is.
#[unsafe(no_mangle)]
pub extern "C" fn giachimu_write(
    sheet: &[u64],
    bytes: &[u8],
    labels: &[u64],
    out: &mut [u8],
    long: &mut usize,
    place: &mut usize,
) -> u64
    ensures { ((result, place.new), (long.new, out.new)) ≡ sheet_written sheet.now bytes.now labels.now (long.old, out.old) }
{
    tell(
        put_found(writer::write_sheet(sheet, bytes, labels, out), long),
        place,
    )
}
