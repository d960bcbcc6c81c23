// Right programs, each by one call of what is promised and its answer put together again. Nothing calls them: wrong ones are tried in their place, and turned away.
ghost use Rattle.std.specs.Prelude.{◌≡◌};
ghost use Rattle.machine.specs.Answers.{slot, run};
ghost use Rattle.states.specs.Values.{held, slotted, ran};

use basis::Refusal;
use sheet::Sheet;
use states::{Ran, State};

// One slot.
fn slot_of(state: State, sheet: Sheet, releases: &[u64], codes: &mut [u8]) -> Result<State, Refusal>
    ensures { slotted (held state) result codes.new ≡ slot sheet (held state) releases.now codes.old }
{
    match state.slot(sheet, releases, codes) {
        Ok(after) => Ok(after),
        Err(refusal) => Err(refusal),
    }
}

// A run.
fn run_of(state: State, sheet: Sheet, releases: &[u64], codes: &mut [u8]) -> Ran
    ensures { ran result codes.new ≡ run sheet (held state) releases.now codes.old }
{
    let told = state.run(sheet, releases, codes);
    Ran {
        done: told.done,
        ended: told.ended,
        state: told.state,
    }
}
