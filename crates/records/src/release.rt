// The check of a release.
ghost use Rattle.std.specs.Prelude.{◌≡◌};
ghost use Rattle.basis.specs.Refusals.{outcome};
ghost use Rattle.records.specs.Checks.{check_row};

use crate::record::RowState;
use basis::Refusal;
use sheet::Row;

// Whether a row may be released for so many slots: 12 before 13.
#[tactic(auto, unfolding(crate::specs::Checks::check_row))]
pub fn check_row(row: Row, s: RowState, release: u64, place: usize) -> Result<(), Refusal>
    ensures { outcome result ≡ check_row row s release place }
{
    if release == 0 {
        Ok(())
    } else if row.budget < release {
        Err(Refusal::Budget(place))
    } else if s.job.since < row.separation {
        Err(Refusal::Soon(place))
    } else {
        Ok(())
    }
}
