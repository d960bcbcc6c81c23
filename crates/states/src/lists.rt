// The lists of a sheet and of a state, and the state in a list.
ghost use Rattle.std.specs.Prelude.{◌≡◌};
ghost use Rattle.sheet.specs.Lists.{sheet_in};
ghost use Rattle.machine.specs.Lists.{state_in};
ghost use Rattle.states.specs.Values.{held};

use crate::state::State;
use basis::MOST_ROWS;
use machine::{RECORD_WIDE, STATE_LONG};
use records::{Job, RowState};
use sheet::{SHEET_LONG, Sheet};

// The list of a sheet, with room for every row.
pub(crate) fn listed(sheet: Sheet) -> [u64; SHEET_LONG]
    ensures { sheet_in result ≡ sheet }
{
    let mut list = [0; SHEET_LONG];
    sheet::put_sheet(&mut list, sheet);
    list
}

// The list of a state, with room for every record.
pub(crate) fn state_list(state: State) -> [u64; STATE_LONG]
    ensures { state_in result ≡ held state }
{
    let mut list = [0; STATE_LONG];
    for i in 0..MOST_ROWS {
        list[i * RECORD_WIDE] = state.rows[i].job.remaining;
        list[i * RECORD_WIDE + 1] = state.rows[i].job.since;
    }
    list
}

// The state in a list with room for every record and no more.
pub(crate) fn state_of(list: &[u64; STATE_LONG]) -> State
    ensures { held result ≡ state_in list.now }
{
    let none = Job {
        remaining: 0,
        since: 0,
    };
    let mut rows = [RowState { job: none }; MOST_ROWS];
    for i in 0..MOST_ROWS {
        let job = Job {
            remaining: list[i * RECORD_WIDE],
            since: list[i * RECORD_WIDE + 1],
        };
        rows[i] = RowState { job };
    }
    State { rows }
}
