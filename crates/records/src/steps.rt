// The steps of a slot, of one row: release, placement and ageing, and all of them together.
ghost use Rattle.std.specs.Prelude.{◌≡◌};
ghost use Rattle.records.specs.Steps.{released, older, code_at_end};
ghost use Rattle.records.specs.Methods.{placed_row, aged_row, stepped_row};

use crate::record::Job;
use sheet::Row;

// The codes of a row. They are numbers, and no enum: they go into the buffer that a caller lends, and `aged` takes any.
const NO_JOB: u8 = 0;

const WAITED: u8 = 1;

const RAN: u8 = 2;

const FINISHED: u8 = 3;

const MISSED: u8 = 4;

// What placing a row makes, and what its whole slot makes: the processors that it leaves free, its job, and its code.
#[derive(Clone, Copy)]
pub struct Placed {
    pub free: u64,
    pub after: Job,
    pub code: u8,
}

// What ageing a row makes: its job, and its code.
#[derive(Clone, Copy)]
pub struct Aged {
    pub after: Job,
    pub code: u8,
}

// One slot more since the release, up to the separation; no `min`, since the sum could wrap.
#[tactic(auto, unfolding(crate::specs::Steps::older))]
fn older(since: u64, separation: u64) -> u64
    ensures { result ≡ older separation since }
{
    if since < separation {
        since + 1
    } else {
        separation
    }
}

// A row's code at the end of a slot, by its code so far: finished, then missed.
fn judge(left: u64, since: u64, deadline: u64, code: u8) -> u8
    ensures { result ≡ code_at_end left since deadline code }
{
    if code == NO_JOB {
        return NO_JOB;
    }
    if left == 0 {
        return FINISHED;
    }
    if since == deadline {
        return MISSED;
    }
    code
}

impl Job {
    // Releases: the job after a row's release; zero is no release.
    #[tactic(auto, unfolding(crate::specs::Steps::released))]
    pub fn released(self, release: u64) -> Job
        ensures { result ≡ released release self }
    {
        if release == 0 {
            return self;
        }
        Job {
            remaining: release,
            since: 0,
        }
    }

    // Placement: a row's turn, with so many processors free.
    #[tactic(auto, unfolding(crate::specs::Methods::placed_row, crate::specs::Steps::fits, crate::specs::Steps::free_below, crate::specs::Steps::worked))]
    pub fn placed(self, row: Row, free: u64) -> Placed
        ensures { result ≡ placed_row row self free }
    {
        if self.remaining == 0 {
            return Placed {
                free,
                after: self,
                code: NO_JOB,
            };
        }
        if free < row.threads {
            return Placed {
                free,
                after: self,
                code: WAITED,
            };
        }
        Placed {
            free: free - row.threads,
            after: Job {
                remaining: self.remaining - 1,
                ..self
            },
            code: RAN,
        }
    }

    // Ageing, the end of a row's slot: one slot older, and nothing is left at the deadline.
    #[tactic(auto, unfolding(crate::specs::Methods::aged_row, crate::specs::Steps::aged, crate::specs::Steps::ended, crate::specs::Steps::missed))]
    pub fn aged(self, row: Row, code: u8) -> Aged
        ensures { result ≡ aged_row row self code }
    {
        let since = older(self.since, row.separation);
        let code = judge(self.remaining, since, row.deadline, code);
        if since == row.deadline {
            return Aged {
                after: Job {
                    remaining: 0,
                    since,
                },
                code,
            };
        }
        Aged {
            after: Job { since, ..self },
            code,
        }
    }

    // A row's slot: released, placed and aged.
    #[tactic(auto, using(crate::proofs::RowSlots::stepped_is))]
    pub fn stepped(self, row: Row, release: u64, free: u64) -> Placed
        ensures { result ≡ stepped_row row self release free }
    {
        let placed = self.released(release).placed(row, free);
        let aged = placed.after.aged(row, placed.code);
        Placed {
            free: placed.free,
            after: aged.after,
            code: aged.code,
        }
    }
}
