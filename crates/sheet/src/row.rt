// A row of a sheet, and a sheet by value.
use basis::MOST_ROWS;

// A row.
#[derive(Clone, Copy)]
pub struct Row {
    pub threads: u64,
    pub separation: u64,
    pub deadline: u64,
    pub budget: u64,
}

// A row that is not there: all zero.
pub const NO_ROW: Row = Row {
    threads: 0,
    separation: 0,
    deadline: 0,
    budget: 0,
};

// A sheet by value: how many rows it has stands beside an array with a place for each, since nothing here is on a heap.
#[derive(Clone, Copy)]
pub struct Sheet {
    pub processors: u64,
    pub count: u64,
    pub rows: [Row; MOST_ROWS],
}
