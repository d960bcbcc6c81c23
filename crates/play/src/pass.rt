// The two ways through a scenario's file: reading it, and playing it.
use crate::errors::Fault;
use crate::player::Player;
use crate::source::Source;
use basis::MOST_ROWS;
use std::io::{Read, Seek};

// What going through the whole file comes to: the place after it, and how many slots it has.
#[derive(Clone, Copy)]
struct Pass {
    place: u64,
    slots: u64,
}

// Goes through the whole file, and hands each slot's number and entries to a task.
fn through<F: Read, T: FnMut(u64, [u64; MOST_ROWS]) -> Result<(), Fault>>(
    source: &mut Source<F>,
    sheet: &[u64],
    mut task: T,
) -> Result<Pass, Fault>
    requires { T.IsAlwaysCallable task }
{
    source.read_mark()?;
    // Slots are counted by a `for` that is left, so that the count cannot wrap.
    let mut slots = 0;
    for slot in 0..u64::MAX {
        let Some(entries) = source.next_slot(sheet)? else {
            break;
        };
        task(slot, entries)?;
        slots = slot + 1;
    }
    Ok(Pass {
        place: source.place(),
        slots,
    })
}

// Reads the whole file for a refusal, which stands alone, and plays it where there is none: how many slots were done.
pub(crate) fn play_file<F: Read + Seek + Drop>(
    file: F,
    out: &impl Print,
    player: Player,
) -> Result<u64, Fault> {
    let mut source = Source::of(file);
    let read = through(&mut source, &player.sheet, |_slot, _entries| Ok(()))?;
    source = source.rewound()?;
    let mut state = player.fresh;
    let task = |slot, entries| player.play(out, &mut state, slot, entries);
    match through(&mut source, &player.sheet, task) {
        Ok(played) if played.place == read.place => Ok(played.slots),
        Ok(_) | Err(Fault::Refused(_, _, _)) => Err(Fault::Changed),
        Err(fault) => Err(fault),
    }
}
