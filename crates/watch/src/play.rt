// One slot of the box, and its line.
ghost use Rattle.std.specs.Prelude.{◌≡◌};
ghost use Rattle.basis.specs.Refusals.{outcome};
ghost use Rattle.sheet.specs.Lists.{sheet_in};
ghost use Rattle.watch.specs.Texts.{play_answer, played_slot};

use crate::codes::{put_refused_slot, put_slot};
use basis::{MOST_ROWS, Refusal};

// What playing a slot answers: why the slot is refused, if it is, and how many bytes its line has, which a refused slot has too; so it is no `Result`.
#[derive(Clone, Copy)]
pub struct Played {
    pub ended: Result<(), Refusal>,
    pub long: usize,
}

// Plays one slot of the state in a list, and writes its line at the start of a buffer, as much as has room.
pub fn play_slot(
    sheet: &[u64],
    state: &mut [u64],
    releases: &[u64],
    slot: u64,
    text: &mut [u8],
) -> Played
    ensures { play_answer (outcome result.ended) state.new (text.new, result.long) ≡ played_slot (sheet_in sheet.now) state.old releases.now slot text.old }
{
    let mut codes = [0u8; MOST_ROWS];
    match machine::slot_on(sheet, state, releases, &mut codes) {
        Ok(()) => {
            let count = sheet::count(sheet) as usize;
            Played {
                ended: Ok(()),
                long: put_slot(text, 0, slot, &codes[..count]),
            }
        }
        Err(refusal) => Played {
            ended: Err(refusal),
            long: put_refused_slot(text, 0, slot, refusal),
        },
    }
}
