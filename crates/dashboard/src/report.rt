// The text of a verdict, and of the reference.
ghost use Rattle.std.specs.Prelude.{◌≡◌, ◌<◌};
ghost use Rattle.tables.specs.Tables.{fixed_sheet};
ghost use Rattle.dashboard.specs.Texts.{fixed_count, prefix, board, section, verdict_text, reference_text};
ghost use Rattle.dashboard.specs.Labels.{numbered};
ghost use Rattle.dashboard.specs.Inside.Ready.{Roomy};
ghost use Rattle.page.specs.Pages.{said, written};

use crate::board::Board;
use crate::labels::{NumberedLabels, OwnLabels};
use crate::line::put_no_verdict;
use bound::RESULTS_LONG;
use page::put;
use sheet::SHEET_LONG;

// The sheets of the reference: A to E.
const FIXED_COUNT: usize = 5;

// A sheet of fewer bytes has no more than few rows, for which small lists do.
const FEW_BYTES: usize = 36;

const FEW_ROWS: usize = 4;

// The places of a list for such a sheet, and of one for its labels or its results.
const FEW_LONG: usize = FEW_ROWS * 4 + 2;

const FEW_PAIRS: usize = FEW_ROWS * 2;

// Writes the text of the verdict on some bytes, by lists of these lengths, in which their sheet has room.
fn write_in<const LONG: usize, const PAIRS: usize>(bytes: &[u8], text: &mut [u8]) -> usize
    requires { Roomy bytes.now LONG PAIRS }
    ensures { (text.new, result) ≡ written (verdict_text bytes.now) text.old }
{
    let mut list = [0u64; LONG];
    let mut parts = [0u64; PAIRS];
    let mut results = [0u64; PAIRS];
    match bound::judge_bytes(bytes, &mut list, &mut parts, &mut results) {
        Ok(holds) => {
            let rows = sheet::count(&list) as usize;
            let labels = OwnLabels {
                bytes,
                parts: &parts,
                rows,
            };
            let board = Board {
                labels,
                results: &results,
                rows,
            };
            board.put(text, 0, holds)
        }
        Err(refusal) => put_no_verdict(text, 0, refusal),
    }
}

// Writes the text of the verdict on some bytes at the start of a buffer, as much as has room, and answers how many bytes that is.
pub fn write_verdict(bytes: &[u8], text: &mut [u8]) -> usize
    ensures { (text.new, result) ≡ written (verdict_text bytes.now) text.old }
{
    if bytes.len() < FEW_BYTES {
        write_in::<FEW_LONG, FEW_PAIRS>(bytes, text)
    } else {
        write_in::<SHEET_LONG, RESULTS_LONG>(bytes, text)
    }
}

// The lines of a fixed sheet.
fn put_fixed(text: &mut [u8], at: usize, number: usize) -> usize
    requires { number < fixed_count }
    ensures { (text.new, result) ≡ said (text.old, at) (board (numbered prefix) (fixed_sheet number)) }
{
    let sheet = tables::fixed_sheet(number);
    let mut list = [0u64; SHEET_LONG];
    sheet::put_sheet(&mut list, sheet);
    let mut results = [0u64; RESULTS_LONG];
    let holds = bound::bounds_on(&list, &mut results).unwrap_or(false);
    let board = Board {
        labels: NumberedLabels(b"r"),
        results: &results,
        rows: sheet.count as usize,
    };
    board.put(text, at, holds)
}

// A line with the letter of a fixed sheet, then its lines.
fn put_section(text: &mut [u8], at: usize, number: usize) -> usize
    requires { number < fixed_count }
    ensures { (text.new, result) ≡ said (text.old, at) (section number) }
{
    let a = put(text, at, b'A' + number as u8);
    let b = put(text, a, b'\n');
    put_fixed(text, b, number)
}

// Writes the text of the reference at the start of a buffer, as much as has room, and answers how many bytes that is.
pub fn write_reference(text: &mut [u8]) -> usize
    ensures { (text.new, result) ≡ written reference_text text.old }
{
    let mut next = 0;
    for number in 0..FIXED_COUNT {
        next = put_section(text, next, number);
    }
    next
}
