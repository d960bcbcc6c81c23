// The lines that stand alone on standard output. The functions differ in the call that writes: lent as a closure it would have to promise that its count fits, which is
// longer than the two.
use watch::File;

// Prints the line of a refused file.
pub(crate) fn print_refused(out: &impl Print, file: File, number: u64, place: u64) {
    let mut text = watch::line_buffer();
    let long = watch::write_refused(file, number, place, &mut text);
    let _ = out.write_all(&text[..long]);
}

// Prints how many slots were done.
pub(crate) fn print_end(out: &impl Print, slots: u64) {
    let mut text = watch::line_buffer();
    let long = watch::write_end(slots, &mut text);
    let _ = out.write_all(&text[..long]);
}
