// A scenario's file, which is read from left to right through a buffer.
ghost use Rattle.std.specs.Prelude.{◌≡◌, ◌≤◌, false, length, IfOk, OnOk};
ghost use Rattle.play.specs.Windows.{Ahead};
ghost use Rattle.play.specs.declared.source.TheConstants.{BUFFER_LONG};

use crate::errors::Fault;
use basis::{MOST_ROWS, Refusal};
use scenario::{MARK, SLOT_REACH};
use std::io;
use std::io::{Read, Seek, SeekFrom};
use watch::File;

// As many bytes as hold any slot ahead, and any path.
pub(crate) const BUFFER_LONG: usize = 4096;

// What was read into a buffer: how many bytes, and whether the file ends after them.
#[derive(Clone, Copy)]
pub(crate) struct Filled {
    pub(crate) count: usize,
    pub(crate) ended: bool,
}

// Reads until the buffer is full or the file ends. `verdict` reads its input so too: the programs share no crate that reads.
// No `for`, since a read says how many bytes came.
pub(crate) fn fill(file: &mut impl Read, buffer: &mut [u8]) -> io::Result<Filled>
    ensures { IfOk result (λ filled. (filled.count ≤ length buffer.new) × (filled.ended ≡ false → length buffer.new ≤ filled.count)) }
{
    let mut count = 0;
    while count < buffer.len() {
        let more = file.read(&mut buffer[count..])?;
        if more == 0 {
            return Ok(Filled { count, ended: true });
        }
        count += more;
    }
    Ok(Filled {
        count,
        ended: false,
    })
}

// The file, and the part of it that stands in the buffer.
#[derive(Drop)]
pub(crate) struct Source<F> {
    file: F,
    buffer: [u8; BUFFER_LONG],
    // The place in the file of the buffer's first byte.
    offset: u64,
    // The place in the buffer of the byte that is read next.
    start: usize,
    // The place in the buffer after the last byte.
    end: usize,
    // Whether the file ends there.
    ended: bool,
    ghost next: { start ≤ end },
    ghost last: { end ≤ BUFFER_LONG },
}

impl<F: Read> Source<F> {
    // A file of which nothing is read yet.
    pub(crate) fn of(file: F) -> Source<F>
        ensures { (result.offset ≡ 0) × (result.start ≡ 0) × (result.end ≡ 0) × (result.ended ≡ false) }
    {
        Source {
            file,
            buffer: [0; BUFFER_LONG],
            offset: 0,
            start: 0,
            end: 0,
            ended: false,
        }
    }

    // The place in the file of the byte that is read next; no file is so long that the sum would wrap.
    pub(crate) fn place(&self) -> u64 {
        self.offset.wrapping_add(self.start as u64)
    }

    // Reads on until the buffer is full or the file ends.
    fn read_on(&mut self) -> io::Result<()>
        ensures { OnOk result ((self.new.start ≡ self.old.start) × (self.new.ended ≡ false → BUFFER_LONG ≤ self.new.end)) }
    {
        let more = fill(&mut self.file, &mut self.buffer[self.end..])?;
        self.end += more.count;
        self.ended = more.ended;
        Ok(())
    }

    // Moves what is not read yet to the front of the buffer: the kit's `copy_within`, and the places that go with it.
    fn keep_rest(&mut self)
        ensures { self.new.start ≡ 0 }
    {
        let (start, end) = (self.start, self.end);
        self.offset = self.place();
        self.buffer.copy_within(start..end, 0);
        self.start = 0;
        self.end = end - start;
    }

    // Sees to it that the bytes that the reading of a slot looks at are in the buffer, as far as the file has them.
    fn ahead(&mut self) -> io::Result<()>
        ensures { OnOk result (Ahead self.new.ended self.new.start self.new.end) }
    {
        if self.ended || SLOT_REACH <= self.end - self.start {
            return Ok(());
        }
        self.keep_rest();
        self.read_on()
    }

    // Reads the mark at the front of the file.
    #[tactic(auto, using(basis::proofs::Marks::begins_short))]
    pub(crate) fn read_mark(&mut self) -> Result<(), Fault> {
        self.read_on()?;
        if !basis::begins_with(&self.buffer[..self.end], &MARK) {
            return Err(Fault::Refused(File::Scenario, Refusal::Mark, self.offset));
        }
        self.start = MARK.len();
        Ok(())
    }

    // The entries of the next slot; none where the file ends after a whole slot.
    pub(crate) fn next_slot(&mut self, sheet: &[u64]) -> Result<Option<[u64; MOST_ROWS]>, Fault> {
        self.ahead()?;
        if self.start == self.end {
            return Ok(None);
        }
        match scenario::read_slot(sheet, &self.buffer[..self.end], self.start) {
            Ok(read) => {
                self.start = read.next;
                Ok(Some(read.entries))
            }
            Err(refusal) => Err(Fault::Refused(File::Scenario, refusal, self.offset)),
        }
    }
}

impl<F: Read + Seek + Drop> Source<F> {
    // The file from its front again.
    pub(crate) fn rewound(self) -> Result<Source<F>, Fault> {
        let mut file = self.file;
        match file.seek(SeekFrom::Start(0)) {
            Ok(0) => Ok(Source::of(file)),
            _ => Err(Fault::Once),
        }
    }
}
