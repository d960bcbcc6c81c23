// Reading a row.
ghost use Rattle.std.specs.Prelude.{◌≡◌, ◌-◌, ◌≤◌, length};
ghost use Rattle.basis.specs.Readers.{map_step, step, passed_step};
ghost use Rattle.numbers.specs.Numbers.{up_to};
ghost use Rattle.reader.specs.Form.{entry_row, plain, label, entry};
ghost use Rattle.reader.specs.Inside.Steps.{label_step, entry_step, nothing, numbers, LabelAt, EntryAt};

use basis::{LONGEST_LABEL, MOST_SEPARATION, Refusal};
use numbers::read_in_range;
use sheet::Row;

// A part of a sheet's bytes: where it starts, and how long it is, as the promises speak of it and a list of labels has it; so it is no range.
#[derive(Clone, Copy)]
pub struct Part {
    pub start: usize,
    pub long: usize,
}

// A row, and where its label lies.
#[derive(Clone, Copy)]
pub struct Entry {
    pub row: Row,
    pub label: Part,
}

// Passes over the bytes of a label, from a place to its end, which is the answer.
pub(crate) fn read_plain(bytes: &[u8], at: usize, end: usize) -> Result<usize, Refusal>
    requires { (at ≤ end) × (end ≤ length bytes.now) }
    ensures { passed_step result ≡ map_step nothing (plain (end - at) bytes.now at) }
{
    for i in at..end {
        let b = bytes[i];
        if b < 0x21 || 0x7E < b {
            return Err(Refusal::Label(i));
        }
    }
    Ok(end)
}

// The label at a place, and the place after it.
pub(crate) fn read_label(bytes: &[u8], at: usize) -> Result<(Part, usize), Refusal>
    ensures { (label_step result ≡ map_step length (label bytes.now at)) × (LabelAt bytes.now at result) }
{
    let not_so_long = Refusal::Label(at);
    let (count, start) = read_in_range(bytes, at, LONGEST_LABEL, not_so_long, not_so_long)?;
    let long = count as usize;
    let end = start + long;
    if bytes.len() < end {
        return Err(Refusal::Ends(bytes.len()));
    }
    let next = read_plain(bytes, start, end)?;
    Ok((Part { start, long }, next))
}

// A number of a row, from 1 to `most`, and the place after it.
fn read_one(bytes: &[u8], at: usize, most: u64) -> Result<(u64, usize), Refusal>
    ensures { step result ≡ up_to most 7 8 bytes.now at }
{
    read_in_range(bytes, at, most, Refusal::Zero(at), Refusal::Over(at))
}

// The four numbers of a row at a place, on so many processors, and the place after them.
fn read_numbers(bytes: &[u8], at: usize, processors: u64) -> Result<(Row, usize), Refusal>
    ensures { step result ≡ numbers processors bytes.now at }
{
    let (threads, second) = read_one(bytes, at, processors)?;
    let (separation, third) = read_one(bytes, second, MOST_SEPARATION)?;
    let (deadline, fourth) = read_one(bytes, third, separation)?;
    let (budget, next) = read_one(bytes, fourth, deadline)?;
    let row = Row {
        threads,
        separation,
        deadline,
        budget,
    };
    Ok((row, next))
}

// The row at a place with its label, on so many processors, and the place after both.
pub(crate) fn read_entry(
    bytes: &[u8],
    at: usize,
    processors: u64,
) -> Result<(Entry, usize), Refusal>
    ensures { (entry_step result ≡ map_step entry_row (entry processors bytes.now at)) × (EntryAt bytes.now at result) }
{
    let (label, middle) = read_label(bytes, at)?;
    let (row, next) = read_numbers(bytes, middle, processors)?;
    Ok((Entry { row, label }, next))
}
