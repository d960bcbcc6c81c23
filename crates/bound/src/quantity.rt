// The two kinds of quantity, durations and amounts, whole and in 256ths. They are one type, whose parameters keep them apart: no sum adds one to another, and only `on`
// leads from a duration to an amount; back from an amount leads only the count of slots that `fills` divides it into.
ghost use Rattle.std.specs.Prelude.{◌≡◌, ◌+◌, ◌-◌, ◌*◌, ◌≤◌, ◌<◌, min, max};
ghost use Rattle.std.proofs.Common.{Fits};
ghost use Rattle.std.specs.Int.{w64};
ghost use Rattle.basis.specs.Limits.{most_processors};
ghost use Rattle.basis.specs.Words.{pick};
ghost use Rattle.bound.specs.Quantities.{widest_separation, times, into, left};
ghost use Rattle.bound.specs.Inside.Parts.{part_of, reaches};

// Slots, or where it is an amount slots times processors, of which each has so many parts.
#[derive(Clone, Copy, PartialEq, Eq, PartialOrd, Ord)]
pub struct Quantity<const AMOUNT: bool, const PARTS: u64>(u64);

// Slots.
pub type Duration = Quantity<false, 1>;

// Slots times processors.
pub type Amount = Quantity<true, 1>;

// 256ths of slots.
pub type Fine = Quantity<false, 256>;

// 256ths of slots times processors.
pub type FineAmount = Quantity<true, 256>;

impl<const AMOUNT: bool, const PARTS: u64> Quantity<AMOUNT, PARTS> {
    // None of it.
    pub(crate) fn none() -> Self
        ensures { result.0 ≡ 0 }
    {
        Quantity(0)
    }

    // This and another together.
    pub(crate) fn plus(self, other: Self) -> Self
        requires { Fits w64 (self.0 + other.0) }
        ensures { result.0 ≡ self.entry.0 + other.entry.0 }
    {
        Quantity(self.0 + other.0)
    }

    // What is left of it after another, which is no more.
    pub(crate) fn after(self, other: Self) -> Self
        requires { other.0 ≤ self.0 }
        ensures { result.0 ≡ self.entry.0 - other.entry.0 }
    {
        Quantity(self.0 - other.0)
    }

    // What it is more by than another, by hand as well.
    pub(crate) fn minus(self, other: Self) -> Self
        ensures { result.0 ≡ self.entry.0 - other.entry.0 }
    {
        if self.0 < other.0 {
            return Quantity(0);
        }
        Quantity(self.0 - other.0)
    }

    // The lesser of two: by hand, since where it is `min` of the numbers the compiler takes it with a jump, and ordinary sheets take up to a third longer.
    pub(crate) fn lesser(self, other: Self) -> Self
        ensures { result.0 ≡ min self.entry.0 other.entry.0 }
    {
        if self.0 < other.0 { self } else { other }
    }

    // The greater of two, by hand as well.
    pub(crate) fn greater(self, other: Self) -> Self
        ensures { result.0 ≡ max self.entry.0 other.entry.0 }
    {
        if self.0 < other.0 { other } else { self }
    }
}

impl<const AMOUNT: bool> Quantity<AMOUNT, 1> {
    // The same in 256ths.
    pub(crate) fn fine(self) -> Quantity<AMOUNT, 256>
        requires { self.0 ≤ widest_separation * most_processors }
        ensures { result.0 ≡ 256 * self.entry.0 }
    {
        Quantity(256 * self.0)
    }
}

impl<const PARTS: u64> Quantity<false, PARTS> {
    // Its amount on so many processors: the only way from a duration to an amount.
    pub(crate) fn on(self, capped: u64) -> Quantity<true, PARTS>
        requires { Fits w64 (self.0 * capped) }
        ensures { result.0 ≡ self.entry.0 * capped }
    {
        Quantity(self.0 * capped)
    }
}

impl Duration {
    // So many slots.
    pub(crate) fn of(count: u64) -> Duration
        ensures { result.0 ≡ count }
    {
        Quantity(count)
    }

    // How many slots it has.
    pub(crate) fn slots(self) -> u64
        ensures { result ≡ self.0 }
    {
        self.0
    }

    // It where so, else another: of two values that are both there the compiler takes one without a jump.
    pub(crate) fn where_so(self, so: bool, other: Duration) -> Duration
        ensures { result ≡ pick so self other }
    {
        if so { self } else { other }
    }

    // So many times.
    pub(crate) fn times(self, count: u64) -> Duration
        requires { Fits w64 (count * self.0) }
        ensures { result.0 ≡ (times count self).0 }
    {
        Quantity(count * self.0)
    }

    // How many times a period goes into it, of slots that 32 bits hold, which are faster to divide.
    pub(crate) fn rounds(self, period: Duration) -> u64
        requires { (1 ≤ period.0) × (period.0 ≤ widest_separation) × (self.0 ≤ 2 * widest_separation) }
        ensures { result ≡ into self period }
    {
        (self.0 as u32 / period.0 as u32) as u64
    }

    // What is left of it after whole periods, of slots that 32 bits hold.
    pub(crate) fn left(self, period: Duration) -> Duration
        requires { (1 ≤ period.0) × (period.0 ≤ widest_separation) × (self.0 ≤ 2 * widest_separation) }
        ensures { result.0 ≡ (left self period).0 }
    {
        Quantity((self.0 as u32 % period.0 as u32) as u64)
    }

    // So many slots of every period of it, in 256ths.
    pub(crate) fn part(self, budget: u64, period: Duration) -> Fine
        requires { (Fits w64 (256 * (self.0 * budget))) × (1 ≤ period.0) }
        ensures { result.0 ≡ (part_of self budget period).0 }
    {
        Quantity(256 * (self.0 * budget) / period.0)
    }
}

impl Amount {
    // The most 256ths that round down to it.
    pub(crate) fn spare(self) -> FineAmount
        requires { Fits w64 (256 * self.0 + 255) }
    {
        Quantity(256 * self.0 + 255)
    }

    // How many slots of so many processors go into it, as a plain count.
    pub(crate) fn fills(self, processors: u64) -> u64
        requires { 1 ≤ processors }
        ensures { (result * processors ≤ self.0) × (self.0 < (result + 1) * processors) }
    {
        self.0 / processors
    }
}

impl FineAmount {
    // Whether, rounded up, it is no less than a whole amount; no comparison that is derived rounds.
    pub(crate) fn reaches(self, whole: Amount) -> bool
        requires { (Fits w64 (self.0 + 256)) × (Fits w64 (256 * whole.0)) }
        ensures { result ≡ reaches self whole }
    {
        256 * whole.0 < self.0 + 256
    }
}
