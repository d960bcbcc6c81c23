// The buffer that a program lends, all zero.
ghost use Rattle.std.specs.Prelude.{◌≡◌};
ghost use Rattle.watch.specs.Longest.{line_buffer};

use basis::MOST_ROWS;

// No line has more bytes.
pub const LINE_SIZE: usize = MOST_ROWS * 2 + 21;

// A buffer in which any line is whole.
pub fn line_buffer() -> [u8; LINE_SIZE]
    ensures { result ≡ line_buffer }
{
    [0; LINE_SIZE]
}
