// The verdict's text, green, and the bounds.
ghost use Rattle.std.specs.Prelude.{◌≡◌, true};
ghost use Rattle.reader.specs.Answers.{reading};
ghost use Rattle.green.specs.Demand.{NoJobIsLate};
ghost use Rattle.green.specs.Green.{green_of};
ghost use Rattle.exports.specs.Answers.{verdict_in, bounds_in};

use crate::telling::tell;
use basis::Refusal;
use dashboard::TEXT_SIZE;

// Writes the text of the verdict on some bytes, and how long it is: straight into a buffer that has room for any, else by a buffer of its own.
#[unsafe(no_mangle)]
pub extern "C" fn giachimu_verdict(
    bytes: &[u8],
    text: &mut [u8],
    long: &mut usize,
    place: &mut usize,
) -> u64
    ensures { ((result, place.new), (text.new, long.new)) ≡ verdict_in bytes.now text.old long.old }
{
    if TEXT_SIZE <= text.len() {
        *long = dashboard::write_verdict(bytes, text);
        return tell(Ok(()), place);
    }
    let mut whole = dashboard::text_buffer();
    let count = dashboard::write_verdict(bytes, &mut whole);
    if text.len() < count {
        return tell(Err(Refusal::Room), place);
    }
    text[..count].copy_from_slice(&whole[..count]);
    *long = count;
    tell(Ok(()), place)
}

// Whether no job of the sheet in these bytes is ever late.
#[unsafe(no_mangle)]
pub extern "C" fn giachimu_green(bytes: &[u8]) -> bool
    ensures { (result ≡ green_of bytes.now) × (result ≡ true → NoJobIsLate (reading bytes.now).1) }
{
    green::green(bytes)
}

// The bounds of a sheet's list: whether it holds, and a word and a bound for each row.
#[unsafe(no_mangle)]
pub extern "C" fn giachimu_bounds(
    sheet: &[u64],
    list: &mut [u64],
    holds: &mut u64,
    place: &mut usize,
) -> u64
    ensures { ((result, place.new), (holds.new, list.new)) ≡ bounds_in sheet.now (holds.old, list.old) }
{
    // A match, since what is put where it is wanted is another type.
    match bound::bounds_on(sheet, list) {
        Ok(all) => {
            *holds = u64::from(all);
            tell(Ok(()), place)
        }
        Err(refusal) => tell(Err(refusal), place),
    }
}
