// The sheet by value.
ghost use Rattle.std.specs.Prelude.{◌≡◌};
ghost use Rattle.reader.specs.Answers.{outcome_and_sheet, reading};

use crate::into::{LABELS_LONG, read_into};
use basis::Refusal;
use sheet::{SHEET_LONG, Sheet};

// The sheet that the bytes hold, or the one refusal.
pub fn read(bytes: &[u8]) -> Result<Sheet, Refusal>
    ensures { outcome_and_sheet result ≡ reading bytes.now }
{
    let mut list = [0u64; SHEET_LONG];
    let mut labels = [0u64; LABELS_LONG];
    read_into(bytes, &mut list, &mut labels)?;
    Ok(sheet::sheet_in(&list))
}
