//! The first row that has a fault, and the fault, of rows that stand one behind the other.
ghost use Rattle.std.specs.Prelude.{◌≡◌, ◌==◌, ◌<◌, length};
ghost use Rattle.std.specs.List.{concat, list_any};
ghost use Rattle.fields.specs.Fields.{be};
ghost use Rattle.image.specs.Refusals.{rows_from};
ghost use Rattle.image.specs.Numbering.{check_answer};

use crate::job::{Job, Row};
use crate::refusal::Refusal;

/// Whether one of the rows has the name x.
fn named(rows: &[Row], x: u32) -> bool
    ensures { result ≡ list_any (λ row. be 2 row 0 == x) rows.now }
{
    rows.iter().any(|row| fields::get::<2>(row, 0) == x)
}

/// Judges the rows from first to last.
#[tactic(auto, using(crate::proofs::Searches::release_first, crate::proofs::Searches::rows_end))]
pub(crate) fn check_rows(rows: &[Row]) -> Result<(), Refusal>
    requires { length rows.now < 65536 }
    ensures { check_answer result ≡ rows_from (concat rows.now) (length rows.now) 0 }
{
    let mut before = 0;
    for (i, row) in rows.iter().enumerate() {
        let job = Job::from(row);
        let taken = named(&rows[..i], job.name);
        // Proved to fit, so `as` and not `try_from`.
        let at = (i + 1) as u16;
        job.check(taken, before)
            .map_err(|fault| Refusal::Row { row: at, fault })?;
        before = job.release;
    }
    Ok(())
}
