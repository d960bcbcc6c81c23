// The last line of a run, and the one line of a file that is refused.
ghost use Rattle.std.specs.Prelude.{◌≡◌};
ghost use Rattle.page.specs.Pages.{said, written};
ghost use Rattle.watch.specs.Lines.{end_line, refused_file, file_name};

use crate::codes::put_refused_by;
use page::{put, put_bytes, put_number};

// The files that a run is of: which one is a parameter of a promise, so the two are told apart by an enum.
#[derive(Clone, Copy)]
pub enum File {
    Sheet,
    Scenario,
}

// Writes how many slots were done at the start of a buffer, as much as has room, and answers how many bytes that is.
pub fn write_end(slots: u64, text: &mut [u8]) -> usize
    ensures { (text.new, result) ≡ written (end_line slots) text.old }
{
    let a = put_bytes(text, 0, b"SLOTS ");
    let b = put_number(text, a, slots);
    put(text, b, b'\n')
}

// The name of a file.
fn put_file(text: &mut [u8], at: usize, file: File) -> usize
    ensures { (text.new, result) ≡ said (text.old, at) (file_name file) }
{
    match file {
        File::Sheet => put_bytes(text, at, b"sheet"),
        File::Scenario => put_bytes(text, at, b"scenario"),
    }
}

// Writes the refusal of a file at the start of a buffer, as much as has room, and answers how many bytes that is. Number and place are plain, since the promise takes any.
pub fn write_refused(file: File, number: u64, place: u64, text: &mut [u8]) -> usize
    ensures { (text.new, result) ≡ written (refused_file file number place) text.old }
{
    let a = put_refused_by(text, 0, number, place);
    let b = put(text, a, b' ');
    let c = put_file(text, b, file);
    put(text, c, b'\n')
}
