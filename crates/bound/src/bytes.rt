// The bytes of a sheet, read and judged.
ghost use Rattle.std.specs.Prelude.{◌≡◌};
ghost use Rattle.basis.specs.Refusals.{outcome};
ghost use Rattle.bound.specs.Lists.{holding, judged_bytes};

use crate::judge::judge_rows;
use basis::Refusal;

// Reads some bytes into a sheet's list and a list of labels, and judges the sheet in a list of results, which is whether it holds; refused, it changes none of them.
pub fn judge_bytes(
    bytes: &[u8],
    list: &mut [u64],
    labels: &mut [u64],
    results: &mut [u64],
) -> Result<bool, Refusal>
    ensures { (outcome result, (holding result, (list.new, (labels.new, results.new)))) ≡ judged_bytes bytes.now list.old labels.old results.old }
{
    if results.len() < labels.len() {
        return Err(Refusal::Room);
    }
    reader::read_into(bytes, list, labels)?;
    let n = sheet::count(list) as usize;
    let end = n * 4 + 2;
    Ok(judge_rows(&list[..end], results, n))
}
