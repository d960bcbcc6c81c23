// Prints the text of the reference: sheets A to E. It reads nothing.
#![tactic(auto)]

// Prints; a write that fails is passed over.
fn main(rt: HostRuntime) {
    let mut text = dashboard::text_buffer();
    let long = dashboard::write_reference(&mut text);
    let _ = rt.write_all(&text[..long]);
}
