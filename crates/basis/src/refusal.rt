// Why a call is refused, and where.
ghost use Rattle.std.specs.Prelude.{◌≡◌};
ghost use Rattle.basis.specs.Refusals.{told};

// The table of refusals: each number's name, with the place where the table has one.
#[derive(Clone, Copy, Debug, PartialEq, Eq)]
pub enum Refusal {
    // 1: the mark is not there, or differs.
    Mark,
    // 2: the bytes end before a field is whole.
    Ends(usize),
    // 3: a number of too many groups, or not in its shortest form.
    Number(usize),
    // 4: processors out of range.
    Processors(usize),
    // 5: rows out of range.
    Rows(usize),
    // 6: a label's length, or a byte of it, out of range.
    Label(usize),
    // 7: a number of a row is zero.
    Zero(usize),
    // 8: a number of a row is over its limit.
    Over(usize),
    // 9: bytes after the last row.
    Trailing(usize),
    // 10: the sheet is not in the ranges.
    Sheet,
    // 11: the release list has not an entry for each row.
    Releases,
    // 12: a release over the budget.
    Budget(usize),
    // 13: a release too soon.
    Soon(usize),
    // 14: no such row.
    Row(usize),
    // 15: no room for the answer.
    Room,
    // 16: the state is not legal for the sheet.
    State,
    // 20: rows out of order.
    Order(usize),
}

// Its number in the table, and its place, which is 0 where the table has none.
impl From<Refusal> for (u64, usize) {
    ghost from_gives = { λ refusal pair. pair ≡ told refusal };

    fn from(refusal: Refusal) -> (u64, usize) {
        match refusal {
            Refusal::Mark => (1, 0),
            Refusal::Ends(place) => (2, place),
            Refusal::Number(place) => (3, place),
            Refusal::Processors(place) => (4, place),
            Refusal::Rows(place) => (5, place),
            Refusal::Label(place) => (6, place),
            Refusal::Zero(place) => (7, place),
            Refusal::Over(place) => (8, place),
            Refusal::Trailing(place) => (9, place),
            Refusal::Sheet => (10, 0),
            Refusal::Releases => (11, 0),
            Refusal::Budget(place) => (12, place),
            Refusal::Soon(place) => (13, place),
            Refusal::Row(place) => (14, place),
            Refusal::Room => (15, 0),
            Refusal::State => (16, 0),
            Refusal::Order(place) => (20, place),
        }
    }
}
