// A scenario's bytes read into a release list, and a release list written as a scenario's bytes.
ghost use Rattle.std.specs.Prelude.{◌≡◌};
ghost use Rattle.exports.specs.Scenarios.{scenario_read, scenario_written};

use crate::telling::{put_found, tell};

// Reads a scenario's bytes into a release list, n entries a slot, and tells how many slots there are.
#[unsafe(no_mangle)]
pub extern "C" fn giachimu_read_scenario(
    sheet: &[u64],
    bytes: &[u8],
    releases: &mut [u64],
    slots: &mut u64,
    place: &mut usize,
) -> u64
    ensures { ((result, place.new), (slots.new, releases.new)) ≡ scenario_read sheet.now bytes.now (slots.old, releases.old) }
{
    tell(
        put_found(scenario::read_scenario(sheet, bytes, releases), slots),
        place,
    )
}

// Writes a release list as a scenario's bytes, and tells how many bytes that is.
#[unsafe(no_mangle)]
pub extern "C" fn giachimu_write_scenario(
    sheet: &[u64],
    releases: &[u64],
    bytes: &mut [u8],
    long: &mut usize,
    place: &mut usize,
) -> u64
    ensures { ((result, place.new), (long.new, bytes.new)) ≡ scenario_written sheet.now releases.now (long.old, bytes.old) }
{
    tell(
        put_found(scenario::write_scenario(sheet, releases, bytes), long),
        place,
    )
}
