// The ranges of a sheet's list, and the worked sheets A to F.
ghost use Rattle.std.specs.Prelude.{◌≡◌};
ghost use Rattle.sheet.specs.Legal.{legal};
ghost use Rattle.sheet.specs.Lists.{sheet_in};
ghost use Rattle.exports.specs.Further.{fixed_in};

use crate::telling::tell;
use basis::Refusal;

// Whether a sheet's list is in the ranges.
#[unsafe(no_mangle)]
pub extern "C" fn giachimu_legal(sheet: &[u64]) -> bool
    ensures { result ≡ legal (sheet_in sheet.now) }
{
    sheet::is_legal(sheet)
}

// Writes a worked sheet, A to F by 0 to 5, into a list; any other number is a sheet of zeros.
#[unsafe(no_mangle)]
pub extern "C" fn giachimu_fixed(number: usize, list: &mut [u64], place: &mut usize) -> u64
    ensures { ((result, place.new), list.new) ≡ fixed_in number list.old }
{
    let sheet = tables::fixed_sheet(number);
    let n = sheet.count as usize;
    if list.len() < n * 4 + 2 {
        return tell(Err(Refusal::Room), place);
    }
    sheet::put_sheet(list, sheet);
    tell(Ok(()), place)
}
