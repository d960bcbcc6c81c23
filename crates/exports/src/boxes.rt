// A run of the box's own loop, from the fresh state of a sheet's list.
ghost use Rattle.std.specs.Prelude.{◌≡◌};
ghost use Rattle.sheet.specs.Lists.{filled};
ghost use Rattle.machine.specs.States.{record_at};
ghost use Rattle.states.specs.Values.{held};
ghost use Rattle.exports.specs.Further.{state_cell, box_on};

use crate::telling::tell;
use basis::{MOST_ROWS, Refusal};
use records::{Job, RowState};
use states::State;

// Record k of a state, and zeros past the last.
fn record_at(state: State, k: usize) -> RowState
    ensures { result ≡ record_at (held state) k }
{
    if k < MOST_ROWS {
        return state.rows[k];
    }
    RowState {
        job: Job {
            remaining: 0,
            since: 0,
        },
    }
}

// The number at a place of a state's list.
fn cell_of(state: State, at: usize) -> u64
    ensures { result ≡ state_cell (held state) at }
{
    let job = record_at(state, at / 2).job;
    if at % 2 == 0 {
        job.remaining
    } else {
        job.since
    }
}

// Makes a list the list of a state; places past its records are made zero.
fn put_state(list: &mut [u64], state: State)
    ensures { list.new ≡ filled (state_cell (held state)) list.old }
{
    for (at, place) in list.iter_mut().enumerate() {
        *place = cell_of(state, at);
    }
}

// A run from the fresh state, by the box's own loop: the slots done, the state after them in the list, and their codes.
#[unsafe(no_mangle)]
pub extern "C" fn giachimu_box(
    sheet: &[u64],
    list: &mut [u64],
    releases: &[u64],
    codes: &mut [u8],
    done: &mut u64,
    place: &mut usize,
) -> u64
    ensures { ((result, place.new), (done.new, (list.new, codes.new))) ≡ box_on sheet.now list.old releases.now codes.old }
{
    *done = 0;
    if !sheet::is_legal(sheet) {
        return tell(Err(Refusal::Sheet), place);
    }
    if list.len() < sheet::count(sheet) as usize * 2 {
        return tell(Err(Refusal::Room), place);
    }
    let ran = aboard::box_run(sheet::sheet_in(sheet), releases, codes);
    put_state(list, ran.state);
    *done = ran.done;
    tell(ran.ended, place)
}
