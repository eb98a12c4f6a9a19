//! What a row's 14 bytes say, its job, and the first fault that a job has.
ghost use Rattle.std.specs.Prelude.{◌≡◌};
ghost use Rattle.rules.specs.Job.{Job as RulesJob};
ghost use Rattle.image.specs.Rows.{job_at};
ghost use Rattle.image.specs.Refusals.{row_number};
ghost use Rattle.image.specs.Numbering.{row_test};

use crate::refusal::RowFault;
use std::marker::Model;

/// A row's count of bytes.
pub(crate) const ROW_SIZE: usize = 14;

/// A row's bytes.
pub(crate) type Row = [u8; ROW_SIZE];

/// No deadline is above this.
const DEADLINE_LIMIT: u32 = 1_000_000;

/// What a row says. Contracts see it as a job of the rules.
#[derive(Clone, Copy)]
pub(crate) struct Job {
    pub(crate) name: u32,
    pub(crate) release: u32,
    cost: u32,
    deadline: u32,
}

impl Model for Job {
    ghost Value = { RulesJob };

    ghost view = { λ j. record { name = j.name; release = j.release; cost = j.cost; deadline = j.deadline } };

    ghost inverse = { λ j. record { name = j.name; release = j.release; cost = j.cost; deadline = j.deadline } };
}

impl From<&Row> for Job {
    ghost from_gives = { λ row job. job ≡ job_at row.now 0 };

    fn from(row: &Row) -> Job {
        Job {
            name: fields::get::<2>(row, 0),
            release: fields::get::<4>(row, 2),
            cost: fields::get::<4>(row, 6),
            deadline: fields::get::<4>(row, 10),
        }
    }
}

impl Job {
    /// The first of the faults that the job has, where its name may be `taken` by an earlier row, and the row before has
    /// the release `before`.
    #[tactic(auto, unfolding(crate::specs::Refusals::row_number, rules::specs::Choose::choose))]
    pub(crate) fn check(self, taken: bool, before: u32) -> Result<(), RowFault>
        ensures { row_test result ≡ row_number self.name taken self.release self.cost self.deadline before }
    {
        if self.name == 0 {
            return Err(RowFault::NameZero);
        }
        if taken {
            return Err(RowFault::NameTaken);
        }
        if self.cost == 0 {
            return Err(RowFault::CostZero);
        }
        if DEADLINE_LIMIT < self.deadline {
            return Err(RowFault::DeadlineTooLate);
        }
        if self.deadline < self.release || self.deadline - self.release < self.cost {
            return Err(RowFault::TooLittleTime);
        }
        if self.release < before {
            return Err(RowFault::ReleaseTooEarly);
        }
        Ok(())
    }
}
