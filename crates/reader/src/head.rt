// What stands before the rows of a sheet.
ghost use Rattle.std.specs.Prelude.{◌≡◌};
ghost use Rattle.reader.specs.Form.{head};
ghost use Rattle.reader.specs.Inside.Steps.{head_step};

use basis::{MOST_PROCESSORS, MOST_ROWS, Refusal};
use numbers::read_in_range;

// The sheet's mark.
pub const MARK: [u8; 4] = *b"GSH\x01";

// What stands there: the processors, and the number of rows, which is no length of a buffer.
#[derive(Clone, Copy)]
pub struct Head {
    pub processors: u64,
    pub count: u64,
}

// The mark, processors m, rows n, and the place after them.
pub(crate) fn read_head(bytes: &[u8]) -> Result<(Head, usize), Refusal>
    ensures { head_step result ≡ head bytes.now 0 }
{
    if !basis::begins_with(bytes, &MARK) {
        return Err(Refusal::Mark);
    }
    let no_box = Refusal::Processors(4);
    let (processors, at) = read_in_range(bytes, 4, MOST_PROCESSORS, no_box, no_box)?;
    let no_rows = Refusal::Rows(at);
    let (count, next) = read_in_range(bytes, at, MOST_ROWS as u64, no_rows, no_rows)?;
    Ok((Head { processors, count }, next))
}
