//! The answer of a call in document 01's numbers, which hosts get. The calls of this crate end in a `Result`; the crate sky
//! makes the numbers of it.
ghost use Rattle.std.specs.Prelude.{◌≡◌};
ghost use Rattle.image.specs.Refusals.{accepted as accepted_answer, refused as refused_answer};
ghost use Rattle.image.specs.Numbering.{call_answer, check_answer, refusal_answer};

use crate::refusal::Refusal;

/// A refusal's number and row; or 0, 0, the run's value and the count of bytes written. Numbers, for C: `packed` of sky says
/// which bits each takes.
#[derive(Clone, Copy, PartialEq, Eq)]
pub struct Answer {
    pub number: u8,
    pub row: u16,
    pub value: u32,
    pub size: u16,
}

/// The answer of a refused call. It takes numbers since its clause, a public promise, is of the definition `refused`, which does.
pub fn refused(number: u8, row: u16) -> Answer
    ensures { result ≡ refused_answer number row }
{
    Answer {
        number,
        row,
        value: 0,
        size: 0,
    }
}

/// The answer of an accepted call. It takes numbers as `refused` does, for the definition `accepted`.
pub fn accepted(value: u32, size: u16) -> Answer
    ensures { result ≡ accepted_answer value size }
{
    Answer {
        number: 0,
        row: 0,
        value,
        size,
    }
}

impl From<Refusal> for Answer {
    ghost from_gives = { λ refusal answer. answer ≡ refusal_answer refusal };

    fn from(refusal: Refusal) -> Answer {
        match refusal {
            Refusal::TooShort => refused(1, 0),
            Refusal::WrongCount => refused(2, 0),
            Refusal::WrongVersion => refused(3, 0),
            Refusal::TooManyRows => refused(4, 0),
            Refusal::WrongSize => refused(5, 0),
            Refusal::Row { row, fault } => refused(fault.into(), row),
            Refusal::NoRoom => refused(12, 0),
        }
    }
}

impl From<Result<u16, Refusal>> for Answer {
    ghost from_gives = { λ ended answer. answer ≡ call_answer ended };

    fn from(ended: Result<u16, Refusal>) -> Answer {
        match ended {
            Ok(size) => accepted(0, size),
            Err(refusal) => refusal.into(),
        }
    }
}

impl From<Result<(), Refusal>> for Answer {
    ghost from_gives = { λ ended answer. answer ≡ check_answer ended };

    fn from(ended: Result<(), Refusal>) -> Answer {
        // A check writes no byte.
        ended.map(|()| 0).into()
    }
}
