// The mark of a file.
ghost use Rattle.std.specs.Prelude.{◌≡◌};
ghost use Rattle.basis.specs.Readers.{begins};

// Whether the bytes begin with a mark: the kit's comparison, under a promise of its own.
pub fn begins_with<'a, 'b>(bytes: &'a [u8], mark: &'b [u8]) -> bool
    ensures { result ≡ begins mark.now bytes.now }
{
    if bytes.len() < mark.len() {
        return false;
    }
    &bytes[..mark.len()] == mark
}
