// What a call tells of a refusal.
ghost use Rattle.std.specs.Prelude.{◌≡◌, MatchResult};
ghost use Rattle.basis.specs.Refusals.{accepted, outcome, refused_by};
ghost use Rattle.exports.specs.Answers.{told};

use basis::Refusal;

// Tells how a call ended: a refusal's place is written, its number is answered; zeros where nothing is refused.
pub(crate) fn tell(ended: Result<(), Refusal>, place: &mut usize) -> u64
    ensures { (result, place.new) ≡ told (outcome ended) }
{
    let (number, at) = match ended {
        Ok(()) => (0, 0),
        Err(refusal) => refusal.into(),
    };
    *place = at;
    number
}

// Puts what a call has found where the caller wants it, or passes the refusal on.
pub(crate) fn put_found<T: Copy>(answer: Result<T, Refusal>, found: &mut T) -> Result<(), Refusal>
    ensures { MatchResult answer
        (λ value. (outcome result ≡ accepted) × (found.new ≡ value))
        (λ refusal. (outcome result ≡ refused_by refusal) × (found.new ≡ found.old)) }
{
    *found = answer?;
    Ok(())
}

// The same of two values.
pub(crate) fn put_both<A: Copy, B: Copy>(
    answer: Result<(A, B), Refusal>,
    first: &mut A,
    second: &mut B,
) -> Result<(), Refusal>
    ensures { MatchResult answer
        (λ both. (outcome result ≡ accepted) × (first.new ≡ both.0) × (second.new ≡ both.1))
        (λ refusal. (outcome result ≡ refused_by refusal) × (first.new ≡ first.old) × (second.new ≡ second.old)) }
{
    let (a, b) = answer?;
    *first = a;
    *second = b;
    Ok(())
}
