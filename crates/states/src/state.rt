// The state of a box.
use basis::MOST_ROWS;
use records::RowState;

// A record for each row.
#[derive(Clone, Copy)]
pub struct State {
    pub rows: [RowState; MOST_ROWS],
}
