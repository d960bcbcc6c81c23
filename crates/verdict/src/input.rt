// Reading standard input.
ghost use Rattle.std.specs.Prelude.{◌≤◌, length, IfOk};

use std::io::{self, Read};

// Reads until the buffer is full or the input ends, and answers how many bytes stand at its start; a read that fails is the answer, whatever came before it.
// `play` reads its files so too, since the programs share no crate that reads; no `for`, since a read says how many bytes came.
pub(crate) fn read_input<R: Read>(reader: &mut R, buffer: &mut [u8]) -> io::Result<usize>
    ensures { IfOk result (λ count. count ≤ length buffer.new) }
{
    let mut done = 0;
    while done < buffer.len() {
        let more = reader.read(&mut buffer[done..])?;
        if more == 0 {
            break;
        }
        done += more;
    }
    Ok(done)
}
