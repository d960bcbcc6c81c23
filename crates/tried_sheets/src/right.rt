// Right programs, each by one call of what is promised and its answer put together again. Nothing calls them: wrong ones are tried in their place, and turned away.
ghost use Rattle.std.specs.Prelude.{◌≡◌};
ghost use Rattle.reader.specs.Answers.{reading};
ghost use Rattle.reader.specs.Answers as readers;
ghost use Rattle.bound.specs.Bound.{bounds_of};
ghost use Rattle.bound.specs.Bound as bounds;

use basis::Refusal;
use bound::Results;
use sheet::Sheet;

// The bounds of a sheet.
fn bounds_of(sheet: Sheet) -> Result<Results, Refusal>
    ensures { bounds.answer result ≡ bounds_of sheet }
{
    let told = bound::bounds(sheet)?;
    let holds = told.holds;
    let rows = told.rows;
    Ok(Results { holds, rows })
}

// The sheet that some bytes hold.
fn read_of(bytes: &[u8]) -> Result<Sheet, Refusal>
    ensures { readers.outcome_and_sheet result ≡ reading bytes.now }
{
    let told = reader::read(bytes);
    let sheet = told?;
    Ok(sheet)
}
