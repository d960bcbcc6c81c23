// A number in the bytes of a sheet, or of another file.
ghost use Rattle.std.specs.Prelude.{◌≡◌};
ghost use Rattle.exports.specs.Further.{number_on, up_to_on};

use crate::telling::{put_both, tell};

// The number at a place of some bytes: its value, and the place after it.
#[unsafe(no_mangle)]
pub extern "C" fn giachimu_number(
    bytes: &[u8],
    at: usize,
    value: &mut u64,
    after: &mut usize,
    place: &mut usize,
) -> u64
    ensures { ((result, place.new), (value.new, after.new)) ≡ number_on bytes.now at (value.old, after.old) }
{
    tell(
        put_both(numbers::read_number(bytes, at), value, after),
        place,
    )
}

// The same for a number from 1 to `most`.
#[unsafe(no_mangle)]
pub extern "C" fn giachimu_number_up_to(
    bytes: &[u8],
    at: usize,
    most: u64,
    value: &mut u64,
    after: &mut usize,
    place: &mut usize,
) -> u64
    ensures { ((result, place.new), (value.new, after.new)) ≡ up_to_on bytes.now at most (value.old, after.old) }
{
    // A match, since the error is a number and a place, which are told as they are.
    match numbers::read_up_to(bytes, at, most, 7, 8) {
        Ok((v, next)) => {
            *value = v;
            *after = next;
            *place = 0;
            0
        }
        Err((number, fault)) => {
            *place = fault;
            number
        }
    }
}
