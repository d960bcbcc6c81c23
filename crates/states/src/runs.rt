// A run of slots.
ghost use Rattle.std.specs.Prelude.{◌≡◌};
ghost use Rattle.basis.specs.Refusals.{outcome};
ghost use Rattle.machine.specs.Checks.{check_run};
ghost use Rattle.machine.specs.Answers.{run};
ghost use Rattle.states.specs.Values.{held, ran};

use crate::lists::{listed, state_list, state_of};
use crate::state::State;
use basis::Refusal;
use machine::{check_run_in, run_on};
use sheet::Sheet;

// What a run answers: the slots done, the refusal that ended it if there is one, and the state after those slots. It is no `Result`, since all three mean something beside a refusal too.
#[derive(Clone, Copy)]
pub struct Ran {
    pub done: u64,
    pub ended: Result<(), Refusal>,
    pub state: State,
}

impl State {
    // The checks of a run before its first slot, on the lists of the sheet and of the state: 10, 16, 11, 15.
    pub fn check_run(self, sheet: Sheet, releases: &[u64], room: usize) -> Result<(), Refusal>
        ensures { outcome result ≡ check_run sheet (held self) releases.now room }
    {
        check_run_in(&listed(sheet), &state_list(self), releases, room)
    }

    // A run: its checks, then slot by slot.
    pub fn run(self, sheet: Sheet, releases: &[u64], codes: &mut [u8]) -> Ran
        ensures { ran result codes.new ≡ run sheet (held self) releases.now codes.old }
    {
        let mut list = state_list(self);
        let did = run_on(&listed(sheet), &mut list, releases, codes);
        Ran {
            done: did.done,
            ended: did.ended,
            state: state_of(&list),
        }
    }
}
