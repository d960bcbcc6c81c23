// Reading a number at a place.
ghost use Rattle.std.specs.Prelude.{◌≡◌};
ghost use Rattle.basis.specs.Readers.{step};
ghost use Rattle.basis.specs.Refusals.{told};
ghost use Rattle.numbers.specs.Numbers.{number, up_to, ranged, step_as_told};
ghost use Rattle.numbers.specs.Inside.Ranges.{UpTo};

use basis::{MOST_GROUPS, Refusal};

// The number at a place, and the place after it.
pub fn read_number(bytes: &[u8], at: usize) -> Result<(u64, usize), Refusal>
    ensures { step result ≡ number bytes.now at }
{
    let mut value: u64 = 0;
    let mut weight: u64 = 1;
    let mut least: u64 = 0;
    let mut i = at;
    for _group in 0..MOST_GROUPS {
        if bytes.len() <= i {
            return Err(Refusal::Ends(bytes.len()));
        }
        let b = bytes[i] as u64;
        i += 1;
        if b < 128 {
            if b < least {
                return Err(Refusal::Number(at));
            }
            return Ok((value + b * weight, i));
        }
        value += (b - 128) * weight;
        weight *= 128;
        least = 1;
    }
    Err(Refusal::Number(at))
}

// A number from 1 to `most`, and the place after it; zero is refused by the error `under`, and more than `most` by `over`.
fn in_range<E: Copy + From<Refusal>>(
    bytes: &[u8],
    at: usize,
    most: u64,
    under: E,
    over: E,
) -> Result<(u64, usize), E>
    ensures { UpTo E.from_gives most under over bytes.now at result }
{
    let (value, next) = read_number(bytes, at)?;
    if value == 0 {
        return Err(under);
    }
    if most < value {
        return Err(over);
    }
    Ok((value, next))
}

// The same with errors that are numbers and places: zero is refused by the number `under`, and more than `most` by `over`, both at the number's first byte.
pub fn read_up_to(
    bytes: &[u8],
    at: usize,
    most: u64,
    under: u64,
    over: u64,
) -> Result<(u64, usize), (u64, usize)>
    ensures { step_as_told result ≡ up_to most under over bytes.now at }
{
    in_range(bytes, at, most, (under, at), (over, at))
}

// The same with refusals for errors: zero is refused by `under`, and more than `most` by `over`.
pub fn read_in_range(
    bytes: &[u8],
    at: usize,
    most: u64,
    under: Refusal,
    over: Refusal,
) -> Result<(u64, usize), Refusal>
    ensures { step result ≡ ranged most (told under) (told over) bytes.now at }
{
    in_range(bytes, at, most, under, over)
}
