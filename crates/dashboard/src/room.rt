// The buffers that a program lends, all zero.
ghost use Rattle.std.specs.Prelude.{◌≡◌};
ghost use Rattle.dashboard.specs.Longest.{input_buffer, text_buffer};

// One byte more than the longest sheet has.
const INPUT_SIZE: usize = 871;

// No text has more bytes.
pub const TEXT_SIZE: usize = 1536;

// A buffer for a sheet: what it takes decides the verdict.
pub fn input_buffer() -> [u8; INPUT_SIZE]
    ensures { result ≡ input_buffer }
{
    [0; INPUT_SIZE]
}

// A buffer in which any text is whole.
pub fn text_buffer() -> [u8; TEXT_SIZE]
    ensures { result ≡ text_buffer }
{
    [0; TEXT_SIZE]
}
