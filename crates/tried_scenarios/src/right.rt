// Right programs, each by one call of what is promised and its answer put together again. Nothing calls them: wrong ones are tried in their place, and turned away.
ghost use Rattle.std.specs.Prelude.{◌≡◌};
ghost use Rattle.basis.specs.Lent.{written_told};
ghost use Rattle.sheet.specs.Lists.{sheet_in};
ghost use Rattle.scenario.specs.Answers.{found_told, read_told, read_slot, read_scenario, write_scenario};

use basis::Refusal;
use scenario::SlotRead;

// One slot.
fn slot_of(sheet: &[u64], bytes: &[u8], at: usize) -> Result<SlotRead, Refusal>
    ensures { found_told result ≡ read_slot (sheet_in sheet.now) bytes.now at }
{
    let told = scenario::read_slot(sheet, bytes, at);
    let SlotRead { next, entries } = told?;
    Ok(SlotRead { next, entries })
}

// The list of a file.
fn list_of(sheet: &[u64], bytes: &[u8], releases: &mut [u64]) -> Result<u64, Refusal>
    ensures { read_told result releases.new ≡ read_scenario (sheet_in sheet.now) bytes.now releases.old }
{
    let told = scenario::read_scenario(sheet, bytes, releases);
    let slots = told?;
    Ok(slots)
}

// The file of a list.
fn file_of(sheet: &[u64], releases: &[u64], bytes: &mut [u8]) -> Result<usize, Refusal>
    ensures { written_told result bytes.new ≡ write_scenario (sheet_in sheet.now) releases.now bytes.old }
{
    let told = scenario::write_scenario(sheet, releases, bytes);
    let length = told?;
    Ok(length)
}
