// The last line of a verdict, and the one of a refused sheet.
ghost use Rattle.std.specs.Prelude.{◌≡◌};
ghost use Rattle.basis.specs.Refusals.{told};
ghost use Rattle.dashboard.specs.Words.{ending, refused_by, no_verdict};
ghost use Rattle.page.specs.Pages.{said};

use basis::Refusal;
use page::{put, put_bytes, put_number};

// The last line: HOLDS or FAILS.
pub(crate) fn put_ending(text: &mut [u8], at: usize, holds: bool) -> usize
    ensures { (text.new, result) ≡ said (text.old, at) (ending holds) }
{
    let word = if holds { b"HOLDS\n" } else { b"FAILS\n" };
    put_bytes(text, at, word)
}

// NO VERDICT, and the number.
fn put_refused_by(text: &mut [u8], at: usize, number: u64) -> usize
    ensures { (text.new, result) ≡ said (text.old, at) (refused_by number) }
{
    let next = put_bytes(text, at, b"NO VERDICT ");
    put_number(text, next, number)
}

// The one line of a refused sheet.
pub(crate) fn put_no_verdict(text: &mut [u8], at: usize, refusal: Refusal) -> usize
    ensures { (text.new, result) ≡ said (text.old, at) (no_verdict (told refusal).0 (told refusal).1) }
{
    let (number, place) = refusal.into();
    let a = put_refused_by(text, at, number);
    let b = put(text, a, b' ');
    let c = put_number(text, b, place as u64);
    put(text, c, b'\n')
}
