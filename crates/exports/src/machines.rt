// The machine on a sheet and a state in lists: fresh, one slot, a run, the margin of a row.
ghost use Rattle.std.specs.Prelude.{◌≡◌};
ghost use Rattle.exports.specs.Answers.{fresh_in, slot_on, run_on, margin_in};

use crate::telling::tell;

// Writes the fresh state of a sheet into a list.
#[unsafe(no_mangle)]
pub extern "C" fn giachimu_fresh(sheet: &[u64], list: &mut [u64], place: &mut usize) -> u64
    ensures { ((result, place.new), list.new) ≡ fresh_in sheet.now list.old }
{
    tell(machine::fresh_on(sheet, list), place)
}

// One slot: the state in the list becomes the next one, and the codes are written.
#[unsafe(no_mangle)]
pub extern "C" fn giachimu_slot(
    sheet: &[u64],
    list: &mut [u64],
    releases: &[u64],
    codes: &mut [u8],
    place: &mut usize,
) -> u64
    ensures { ((result, place.new), (list.new, codes.new)) ≡ slot_on sheet.now list.old releases.now codes.old }
{
    tell(machine::slot_on(sheet, list, releases, codes), place)
}

// A run of slots: the slots done, the state in the list after them, and their codes.
#[unsafe(no_mangle)]
pub extern "C" fn giachimu_run(
    sheet: &[u64],
    list: &mut [u64],
    releases: &[u64],
    codes: &mut [u8],
    done: &mut u64,
    place: &mut usize,
) -> u64
    ensures { ((result, place.new), (done.new, (list.new, codes.new))) ≡ run_on sheet.now list.old releases.now codes.old }
{
    let ran = machine::run_on(sheet, list, releases, codes);
    *done = ran.done;
    tell(ran.ended, place)
}

// The margin of a row: 1 and its margin where it has a job, else 0 and no margin.
#[unsafe(no_mangle)]
pub extern "C" fn giachimu_margin(
    sheet: &[u64],
    list: &[u64],
    row: usize,
    job: &mut u64,
    margin: &mut i64,
    place: &mut usize,
) -> u64
    ensures { ((result, place.new), (job.new, margin.new)) ≡ margin_in sheet.now list.now row (job.old, margin.old) }
{
    // A match, since no margin is an answer too.
    match machine::margin_on(sheet, list, row) {
        Ok(None) => {
            *job = 0;
            tell(Ok(()), place)
        }
        Ok(Some(value)) => {
            *job = 1;
            *margin = value;
            tell(Ok(()), place)
        }
        Err(refusal) => tell(Err(refusal), place),
    }
}
