// The state lent: one slot changes it in place, and the box's own loop lends the state that it owns.
ghost use Rattle.std.specs.Prelude.{◌≡◌};
ghost use Rattle.machine.specs.Answers.{slot, fresh, run};
ghost use Rattle.states.specs.Values.{held, ran};
ghost use Rattle.aboard.specs.Lent.{slotted_in};

use basis::{MOST_ROWS, Refusal};
use records::{Job, RowState};
use sheet::Sheet;
use states::{Ran, State, fresh};

// One slot of a state that is lent: a refused slot leaves it as found.
pub fn slot_in(
    state: &mut State,
    sheet: Sheet,
    releases: &[u64],
    codes: &mut [u8],
) -> Result<(), Refusal>
    ensures { slotted_in result state.new codes.new ≡ slot sheet (held state.old) releases.now codes.old }
{
    *state = state.slot(sheet, releases, codes)?;
    Ok(())
}

// The state of which every record is zero, where there is no fresh one.
const NO_STATE: State = State {
    rows: [RowState {
        job: Job {
            remaining: 0,
            since: 0,
        },
    }; MOST_ROWS],
};

// The box's own loop: a run from the fresh state, which the box owns and lends to each slot.
pub fn box_run(sheet: Sheet, releases: &[u64], codes: &mut [u8]) -> Ran
    ensures { ran result codes.new ≡ run sheet (fresh sheet).state releases.now codes.old }
{
    let mut state = match fresh(sheet) {
        Ok(state) => state,
        Err(refusal) => {
            return Ran {
                done: 0,
                ended: Err(refusal),
                state: NO_STATE,
            };
        }
    };
    if let Err(refusal) = state.check_run(sheet, releases, codes.len()) {
        return Ran {
            done: 0,
            ended: Err(refusal),
            state,
        };
    }
    let n = sheet.count as usize;
    let slots = releases.len() / n;
    for done in 0..slots {
        let at = done * n;
        let end = at + n;
        if let Err(refusal) = slot_in(&mut state, sheet, &releases[at..end], &mut codes[at..]) {
            return Ran {
                done: done as u64,
                ended: Err(refusal),
                state,
            };
        }
    }
    Ran {
        done: slots as u64,
        ended: Ok(()),
        state,
    }
}
