// Writing a number at a place.
ghost use Rattle.std.specs.Prelude.{◌≡◌, ◌+◌, ◌≤◌, set};
ghost use Rattle.std.proofs.lemmas.List.Edits.{sets};
ghost use Rattle.basis.specs.Limits.{most_groups};
ghost use Rattle.numbers.specs.Numbers.{spell, width};

use basis::MOST_GROUPS;

// The most bytes that a number takes.
const MOST_LONG: usize = MOST_GROUPS as usize;

// How many bytes a number takes.
pub fn number_length(value: u64) -> usize
    ensures { (result ≡ width value) × (result ≤ most_groups) }
{
    let mut v = value;
    for i in 0..MOST_LONG {
        if v < 128 {
            return i + 1;
        }
        v /= 128;
    }
    MOST_LONG
}

// One byte, so many places after a place, where there is room.
fn put(bytes: &mut [u8], at: usize, i: usize, byte: u8)
    ensures { bytes.new ≡ set bytes.old (at + i) byte }
{
    if at < bytes.len() && i < bytes.len() - at {
        bytes[at + i] = byte;
    }
}

// Writes a number at a place, as far as there is room, and answers how many bytes it takes.
pub fn write_number(bytes: &mut [u8], at: usize, value: u64) -> usize
    ensures { (result ≡ width value) × (result ≤ most_groups) × (bytes.new ≡ sets bytes.old at (spell value)) }
{
    let mut v = value;
    for i in 0..MOST_LONG {
        if v < 128 {
            put(bytes, at, i, v as u8);
            return i + 1;
        }
        put(bytes, at, i, (128 + v % 128) as u8);
        v /= 128;
    }
    MOST_LONG
}
