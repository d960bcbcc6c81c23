// The fresh state of a sheet.
ghost use Rattle.std.specs.Prelude.{◌≡◌};
ghost use Rattle.machine.specs.Answers.{fresh};
ghost use Rattle.states.specs.Values.{started};

use crate::lists::{listed, state_of};
use crate::state::State;
use basis::Refusal;
use machine::{STATE_LONG, fresh_on};
use sheet::Sheet;

// The fresh state of a sheet.
pub fn fresh(sheet: Sheet) -> Result<State, Refusal>
    ensures { started result ≡ fresh sheet }
{
    let mut list = [0; STATE_LONG];
    fresh_on(&listed(sheet), &mut list)?;
    Ok(state_of(&list))
}
