// What can go wrong with the files, and how it is said.
use crate::lines::print_refused;
use basis::Refusal;
use std::env::FillError;
use std::fmt::InlineText;
use std::io;
use std::str::Utf8Error;
use watch::File;

// The system's numbers for an argument that is not there, for one that is too long, and for bytes that are no text.
const NO_ARGUMENT: i32 = 22;

const TOO_LONG: i32 = 36;

const NOT_TEXT: i32 = 84;

// Why a run ends before its scenario does.
#[derive(Drop)]
pub(crate) enum Fault {
    // The file cannot be named, opened or read, as the system says.
    System(io::Error),
    // The bytes of the file that begin at this place in it are refused.
    Refused(File, Refusal, u64),
    // The file cannot go back to its front.
    Once,
    // The file is another the second time.
    Changed,
    // The box has refused a slot, whose line says so.
    Stopped,
}

// What the system says of a file.
impl From<io::Error> for Fault {
    fn from(error: io::Error) -> Fault {
        Fault::System(error)
    }
}

// An argument that names no file.
impl From<FillError> for Fault {
    fn from(error: FillError) -> Fault {
        Fault::from_code(match error {
            FillError::NotPresent => NO_ARGUMENT,
            FillError::TooLong => TOO_LONG,
        })
    }
}

// A name that is no text.
impl From<Utf8Error> for Fault {
    fn from(_error: Utf8Error) -> Fault {
        Fault::from_code(NOT_TEXT)
    }
}

impl Fault {
    // What the system says by a number.
    fn from_code(code: i32) -> Fault {
        Fault::System(io::Error::from_raw_os_error(code))
    }

    // Says it: a refusal on standard output, any other on standard error after the file's name. No file is so long that the place would wrap.
    pub(crate) fn tell(self, out: &impl Print, err: &impl Print, name: &[u8]) {
        match self {
            Fault::System(error) => fail(err, name, error),
            Fault::Refused(file, refusal, offset) => {
                let (number, at) = refusal.into();
                print_refused(out, file, number, offset.wrapping_add(at as u64));
            }
            Fault::Once => say(err, name, b": the scenario cannot be read twice\n"),
            Fault::Changed => say(err, name, b": the scenario changed while it was read\n"),
            Fault::Stopped => {}
        }
    }
}

// The text of an error that the system gave, without the number that std puts after it.
fn words(text: &str) -> &str {
    match text.rsplit_once(" (os error ") {
        Some((words, _)) => words,
        None => text,
    }
}

// Says a line on standard error: what failed, a colon and why.
fn fail(err: &impl Print, what: &[u8], error: io::Error) {
    let text = InlineText::<128>::of(error);
    let _ = err.write_all(what);
    let _ = err.write_all(b": ");
    let _ = err.write_all(words(text.as_str()).as_bytes());
    let _ = err.write_all(b"\n");
}

// Says something of a file on standard error, after its name.
fn say(err: &impl Print, name: &[u8], what: &[u8]) {
    let _ = err.write_all(name);
    let _ = err.write_all(what);
}
