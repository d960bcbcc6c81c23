// The box of a sheet, which plays slots.
ghost use Rattle.std.specs.Prelude.{◌≤◌};
ghost use Rattle.basis.specs.Limits.{most_rows};

use crate::errors::Fault;
use basis::{MOST_ROWS, Refusal};
use machine::STATE_LONG;
use reader::LABELS_LONG;
use sheet::SHEET_LONG;

// A sheet, the number of its rows, and the state of its box when it is switched on.
#[derive(Clone, Copy)]
pub(crate) struct Player {
    pub(crate) sheet: [u64; SHEET_LONG],
    pub(crate) fresh: [u64; STATE_LONG],
    rows: usize,
    ghost few: { rows ≤ most_rows },
}

impl Player {
    // The box of the sheet in some bytes.
    pub(crate) fn of(bytes: &[u8]) -> Result<Player, Refusal> {
        let mut sheet = [0; SHEET_LONG];
        let mut labels = [0; LABELS_LONG];
        reader::read_into(bytes, &mut sheet, &mut labels)?;
        let mut fresh = [0; STATE_LONG];
        machine::fresh_on(&sheet, &mut fresh)?;
        let rows = sheet::count(&sheet) as usize;
        Ok(Player { sheet, fresh, rows })
    }

    // Plays a slot from a state and prints its line.
    pub(crate) fn play(
        &self,
        out: &impl Print,
        state: &mut [u64],
        slot: u64,
        entries: [u64; MOST_ROWS],
    ) -> Result<(), Fault> {
        let mut text = watch::line_buffer();
        let releases = &entries[..self.rows];
        let played = watch::play_slot(&self.sheet, state, releases, slot, &mut text);
        let _ = out.write_all(&text[..played.long]);
        played.ended.map_err(|_refusal| Fault::Stopped)
    }
}
