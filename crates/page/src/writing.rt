// Writing into a lent buffer, as far as it has room: each function answers the next place.
ghost use Rattle.std.specs.Prelude.{◌≡◌, ◌∷◌, [], ◌+◌, ◌≤◌, length};
ghost use Rattle.page.specs.Decimals.{decimal};
ghost use Rattle.page.specs.Pages.{said};

// One byte.
pub fn put(text: &mut [u8], at: usize, byte: u8) -> usize
    ensures { (text.new, result) ≡ said (text.old, at) (byte ∷ []) }
{
    if at < text.len() {
        text[at] = byte;
        at + 1
    } else {
        at
    }
}

// Some bytes, as far as there is room, which is tested once. They are copied by a loop of its own, for speed: words are short, and a call that copies takes twice as long.
#[tactic(auto, using(crate::proofs::Inside::Pages::none_said, crate::proofs::Inside::Pages::byte_said, crate::proofs::Inside::Pages::some_said), unfolding(crate::specs::Pages::said))]
pub fn put_bytes(text: &mut [u8], at: usize, bytes: &[u8]) -> usize
    ensures { (text.new, result) ≡ said (text.old, at) bytes.now }
{
    if text.len() <= at {
        return at;
    }
    let n = bytes.len().min(text.len() - at);
    for i in 0..n {
        text[at + i] = bytes[i];
    }
    at + n
}

// A number in decimal, digit by digit: its text in a lent buffer is a public promise, and there is no heap.
fn put_digits(text: &mut [u8], at: usize, n: u64) -> usize
    ensures { (text.new, result) ≡ said (text.old, at) (decimal n) }
{
    if n < 10 {
        put(text, at, b'0' + n as u8)
    } else {
        let next = put_digits(text, at, n / 10);
        put(text, next, b'0' + (n % 10) as u8)
    }
}

// A number in decimal. It is a function beside `put_digits` for speed: one digit, as row numbers mostly have, takes no recursion, and a third of the time.
pub fn put_number(text: &mut [u8], at: usize, n: u64) -> usize
    ensures { (text.new, result) ≡ said (text.old, at) (decimal n) }
{
    if n < 10 {
        put(text, at, b'0' + n as u8)
    } else {
        put_digits(text, at, n)
    }
}
