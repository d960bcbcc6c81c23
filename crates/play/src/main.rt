// Plays a scenario on a sheet, both named: prints a line for each slot, and what came of it. A file that cannot be opened or read is said on standard error.
#![tactic(auto)]

mod errors;
mod lines;
mod pass;
mod player;
mod source;

use crate::errors::Fault;
use crate::lines::print_end;
use crate::pass::play_file;
use crate::player::Player;
use crate::source::{BUFFER_LONG, fill};
use std::env::{Env, FillError};
use std::io::Read;
use std::rt::Files;
use std::{fs, str};
use watch::File;

// Whether the program was given an argument.
fn has_argument(rt: &impl Env, argument: usize) -> bool {
    !matches!(rt.arg(argument, &mut []), Err(FillError::NotPresent))
}

// Opens a file for reading. A name that is not UTF-8 names none.
fn open_file<R: Files>(rt: &R, name: &[u8]) -> Result<R::File, Fault> {
    Ok(fs::open(rt, str::from_utf8(name)?)?)
}

// The box of the sheet in a file.
fn read_sheet(mut file: impl Read + Drop) -> Result<Player, Fault> {
    let mut bytes = dashboard::input_buffer();
    let filled = fill(&mut file, &mut bytes)?;
    Player::of(&bytes[..filled.count]).map_err(|refusal| Fault::Refused(File::Sheet, refusal, 0))
}

// What a task gives that is done with the file that an argument names; where it fails, that is said.
fn with_named<R: Env + Files + Print, T, F: FnOnce(R::File) -> Result<T, Fault>>(
    rt: &R,
    err: &impl Print,
    argument: usize,
    task: F,
) -> Option<T>
    requires { F.IsAlwaysCallable task }
{
    let mut buffer = [0; BUFFER_LONG];
    let name = match rt.arg(argument, &mut buffer) {
        Ok(long) => &buffer[..long],
        Err(error) => {
            Fault::from(error).tell(rt, err, b"name");
            return None;
        }
    };
    match open_file(rt, name).and_then(task) {
        Ok(done) => Some(done),
        Err(fault) => {
            fault.tell(rt, err, name);
            None
        }
    }
}

// Reads the sheet, and plays the scenario on it.
fn main(rt: HostRuntime) {
    let err = rt.stderr();
    if !has_argument(&rt, 2) || has_argument(&rt, 3) {
        let _ = err.write_all(b"usage: play SHEET SCENARIO\n");
        return;
    }
    let Some(player) = with_named(&rt, &err, 1, read_sheet) else {
        return;
    };
    if let Some(slots) = with_named(&rt, &err, 2, |file| play_file(file, &rt, player)) {
        print_end(&rt, slots);
    }
}
