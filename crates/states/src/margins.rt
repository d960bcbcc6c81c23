// The margin of a row.
ghost use Rattle.std.specs.Prelude.{◌≡◌};
ghost use Rattle.machine.specs.Answers.{margin_answer, margin};
ghost use Rattle.states.specs.Values.{held};

use crate::lists::{listed, state_list};
use crate::state::State;
use basis::Refusal;
use machine::margin_on;
use sheet::Sheet;

impl State {
    // The margin of a row: D - since - remaining.
    pub fn margin(self, sheet: Sheet, row: usize) -> Result<Option<i64>, Refusal>
        ensures { margin_answer result ≡ margin sheet (held self) row }
    {
        margin_on(&listed(sheet), &state_list(self), row)
    }
}
