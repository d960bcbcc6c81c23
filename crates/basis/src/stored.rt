// What is written into a lent buffer.
ghost use Rattle.std.specs.Prelude.{◌≡◌};
ghost use Rattle.basis.specs.Lent.{stored_at};

// Writes some bytes at a place, as far as there is room: byte by byte, each after a look at the room. Labels are short, and a call that copies needs `memmove` from whoever links the library for C.
pub fn put_bytes(buffer: &mut [u8], at: usize, bytes: &[u8])
    ensures { buffer.new ≡ stored_at buffer.old at bytes.now }
{
    if buffer.len() <= at {
        return;
    }
    let room = buffer.len() - at;
    for i in 0..bytes.len() {
        if room <= i {
            return;
        }
        buffer[at + i] = bytes[i];
    }
}
