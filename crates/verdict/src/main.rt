// Reads a sheet from standard input and prints the text of its verdict. Where a read fails it prints no verdict, and says so on standard error.
#![tactic(auto)]

mod input;

use crate::input::read_input;

// Reads, and prints; a write that fails is passed over.
fn main(rt: HostRuntime) {
    let mut sheet = dashboard::input_buffer();
    match read_input(&mut rt.stdin(), &mut sheet) {
        Ok(count) => {
            let mut text = dashboard::text_buffer();
            let long = dashboard::write_verdict(&sheet[..count], &mut text);
            let _ = rt.write_all(&text[..long]);
        }
        Err(_) => {
            let _ = rt.eprintln("cannot read standard input");
        }
    }
}
