// One slot, by value: its checks, and then its rows from the top.
ghost use Rattle.std.specs.Prelude.{◌≡◌, ◌≤◌, length};
ghost use Rattle.basis.specs.Limits.{most_rows};
ghost use Rattle.machine.specs.Answers.{next_state, next_codes, slot};
ghost use Rattle.states.specs.Values.{held, slotted};

use crate::lists::{listed, state_list};
use crate::state::State;
use basis::Refusal;
use machine::check_slot_in;
use records::RowState;
use sheet::Sheet;

impl State {
    // The state after a slot whose checks have passed: rows from the top, with every processor free; its codes are written.
    fn next(self, sheet: Sheet, releases: &[u64], codes: &mut [u8]) -> State
        requires { (sheet.count ≤ most_rows) × (sheet.count ≤ length releases.now) × (sheet.count ≤ length codes.old) }
        ensures { (held result ≡ next_state sheet (held self) releases.now)
            × (codes.new ≡ next_codes sheet (held self) releases.now codes.old) }
    {
        let mut rows = self.rows;
        let mut free = sheet.processors;
        for i in 0..sheet.count as usize {
            let stepped = rows[i].job.stepped(sheet.rows[i], releases[i], free);
            rows[i] = RowState { job: stepped.after };
            codes[i] = stepped.code;
            free = stepped.free;
        }
        State { rows }
    }

    // One slot: its checks, on the lists of the sheet and of the state, and then the next state and a code for each row; a refused slot writes no code.
    pub fn slot(self, sheet: Sheet, releases: &[u64], codes: &mut [u8]) -> Result<State, Refusal>
        ensures { slotted (held self) result codes.new ≡ slot sheet (held self) releases.now codes.old }
    {
        check_slot_in(&listed(sheet), &state_list(self), releases, codes.len())?;
        Ok(self.next(sheet, releases, codes))
    }
}
