// A sheet's bytes read once, into lists that are lent: the sheet's, and where each label lies.
ghost use Rattle.std.specs.Prelude.{◌≡◌, ◌≤◌, length};
ghost use Rattle.basis.specs.Limits.{most_rows};
ghost use Rattle.basis.specs.Readers.{ok};
ghost use Rattle.basis.specs.Refusals.{outcome};
ghost use Rattle.sheet.specs.Lists.{sheet_long};
ghost use Rattle.reader.specs.Form.{head};
ghost use Rattle.reader.specs.Lists.{labels_long, read_into};
ghost use Rattle.reader.specs.Inside.Steps.{head_of, handed_over};

use crate::head::{Head, read_head};
use crate::rows::take_rows;
use basis::{MOST_ROWS, Refusal};
use sheet::SHEET_LONG;

// The places of a list that has room for where every label lies.
pub const LABELS_LONG: usize = MOST_ROWS * 2;

// Hands over what was read, where both lists have room for it. How many rows were read stands beside the lists, which have a place for every row: the promise speaks of the rows.
fn hand_over(
    own: &[u64],
    parts: &[u64],
    count: usize,
    list: &mut [u64],
    labels: &mut [u64],
) -> Result<(), Refusal>
    requires { (count ≤ most_rows) × (sheet_long count ≤ length own.now) × (labels_long count ≤ length parts.now) }
    ensures { (outcome result, (list.new, labels.new)) ≡ handed_over count own.now parts.now list.old labels.old }
{
    let long = count * 4 + 2;
    let places = count * 2;
    if list.len() < long || labels.len() < places {
        return Err(Refusal::Room);
    }
    list[..long].copy_from_slice(&own[..long]);
    labels[..places].copy_from_slice(&parts[..places]);
    Ok(())
}

// What stands after the head: so many rows, and nothing after them; both lists are written once the last byte is accepted.
fn read_body(
    bytes: &[u8],
    at: usize,
    top: Head,
    list: &mut [u64],
    labels: &mut [u64],
) -> Result<(), Refusal>
    requires { head bytes.now 0 ≡ ok (head_of top) at }
    ensures { (outcome result, (list.new, labels.new)) ≡ read_into bytes.now list.old labels.old }
{
    let mut own = [0u64; SHEET_LONG];
    let mut parts = [0u64; LABELS_LONG];
    let n = top.count as usize;
    let next = take_rows(bytes, at, top.processors, n, &mut own, &mut parts)?;
    if next < bytes.len() {
        return Err(Refusal::Trailing(next));
    }
    hand_over(&own, &parts, n, list, labels)
}

// Reads a sheet into a list, and into another where each label lies, its start and its length; refused, it changes neither.
pub fn read_into(bytes: &[u8], list: &mut [u64], labels: &mut [u64]) -> Result<(), Refusal>
    ensures { (outcome result, (list.new, labels.new)) ≡ read_into bytes.now list.old labels.old }
{
    let (top, next) = read_head(bytes)?;
    read_body(bytes, next, top, list, labels)
}
