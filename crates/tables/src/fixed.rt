// Sheets A to F: constant arrays of row values, each handed out as a sheet.
ghost use Rattle.std.specs.Prelude.{◌≡◌, ◌≤◌, length};
ghost use Rattle.basis.specs.Limits.{most_rows};
ghost use Rattle.tables.specs.Tables.{sheet_of, fixed_sheet};

use basis::MOST_ROWS;
use sheet::{NO_ROW, Row, Sheet};

// The rows of sheet A.
const A: [Row; 2] = [
    Row {
        threads: 2,
        separation: 5,
        deadline: 5,
        budget: 2,
    },
    Row {
        threads: 3,
        separation: 10,
        deadline: 10,
        budget: 3,
    },
];

// The rows of sheet B.
const B: [Row; 3] = [
    Row {
        threads: 3,
        separation: 4,
        deadline: 4,
        budget: 2,
    },
    Row {
        threads: 2,
        separation: 8,
        deadline: 8,
        budget: 2,
    },
    Row {
        threads: 1,
        separation: 8,
        deadline: 8,
        budget: 3,
    },
];

// The rows of sheet C.
const C: [Row; 2] = [
    Row {
        threads: 2,
        separation: 2,
        deadline: 2,
        budget: 1,
    },
    Row {
        threads: 1,
        separation: 4,
        deadline: 4,
        budget: 3,
    },
];

// The rows of sheet D.
const D: [Row; 2] = [
    Row {
        threads: 2,
        separation: 2,
        deadline: 2,
        budget: 1,
    },
    Row {
        threads: 1,
        separation: 4,
        deadline: 4,
        budget: 2,
    },
];

// The rows of sheet E.
const E: [Row; 2] = [
    Row {
        threads: 4,
        separation: 6,
        deadline: 6,
        budget: 2,
    },
    Row {
        threads: 4,
        separation: 6,
        deadline: 6,
        budget: 2,
    },
];

// The rows of sheet F.
const F: [Row; 1] = [Row {
    threads: 1,
    separation: 1,
    deadline: 1,
    budget: 1,
}];

// The sheet of so many processors and of these rows, past which all is zero.
fn sheet_of(processors: u64, rows: &[Row]) -> Sheet
    requires { length rows.now ≤ most_rows }
    ensures { result ≡ sheet_of processors rows.now }
{
    let mut padded = [NO_ROW; MOST_ROWS];
    padded[..rows.len()].copy_from_slice(rows);
    Sheet {
        processors,
        count: rows.len() as u64,
        rows: padded,
    }
}

// The fixed sheet of a number: 0 is A, and so on to 5, which is F; any other is no sheet. The number is no enum, since the promise takes any.
pub fn fixed_sheet(number: usize) -> Sheet
    ensures { result ≡ fixed_sheet number }
{
    match number {
        0 => sheet_of(4, &A),
        1 => sheet_of(4, &B),
        2 => sheet_of(2, &C),
        3 => sheet_of(2, &D),
        4 => sheet_of(4, &E),
        5 => sheet_of(1, &F),
        _ => sheet_of(0, &[]),
    }
}
