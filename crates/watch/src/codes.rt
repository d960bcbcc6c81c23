// The line of a slot: its number and the codes of its rows, or the refusal.
ghost use Rattle.std.specs.Prelude.{◌≡◌, ◌++◌};
ghost use Rattle.basis.specs.Refusals.{told};
ghost use Rattle.page.specs.Pages.{said};
ghost use Rattle.page.specs.Decimals.{decimal};
ghost use Rattle.page.specs.Words.{space};
ghost use Rattle.watch.specs.Lines.{codes_text, slot_line, slot_number, refused_by, refused_slot};

use basis::Refusal;
use page::{put, put_bytes, put_number};

// A space and a code.
fn put_code(text: &mut [u8], at: usize, code: u8) -> usize
    ensures { (text.new, result) ≡ said (text.old, at) (space ++ decimal code) }
{
    let next = put(text, at, b' ');
    put_number(text, next, code as u64)
}

// Each code after a space.
fn put_codes(text: &mut [u8], at: usize, codes: &[u8]) -> usize
    ensures { (text.new, result) ≡ said (text.old, at) (codes_text codes.now) }
{
    let mut next = at;
    for code in codes {
        next = put_code(text, next, *code);
    }
    next
}

// The line of a slot that is done.
pub(crate) fn put_slot(text: &mut [u8], at: usize, slot: u64, codes: &[u8]) -> usize
    ensures { (text.new, result) ≡ said (text.old, at) (slot_line slot codes.now) }
{
    let a = put_number(text, at, slot);
    let b = put_codes(text, a, codes);
    put(text, b, b'\n')
}

// SLOT, its number and a space.
fn put_slot_number(text: &mut [u8], at: usize, slot: u64) -> usize
    ensures { (text.new, result) ≡ said (text.old, at) (slot_number slot) }
{
    let a = put_bytes(text, at, b"SLOT ");
    let b = put_number(text, a, slot);
    put(text, b, b' ')
}

// REFUSED, the number, and the place.
pub(crate) fn put_refused_by(text: &mut [u8], at: usize, number: u64, place: u64) -> usize
    ensures { (text.new, result) ≡ said (text.old, at) (refused_by number place) }
{
    let a = put_bytes(text, at, b"REFUSED ");
    let b = put_number(text, a, number);
    let c = put(text, b, b' ');
    put_number(text, c, place)
}

// The line of a slot that is refused.
pub(crate) fn put_refused_slot(text: &mut [u8], at: usize, slot: u64, refusal: Refusal) -> usize
    ensures { (text.new, result) ≡ said (text.old, at) (refused_slot slot (told refusal).0 (told refusal).1) }
{
    let (number, row) = refusal.into();
    let a = put_slot_number(text, at, slot);
    let b = put_refused_by(text, a, number, row as u64);
    put(text, b, b'\n')
}
