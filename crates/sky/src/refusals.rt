//! The kind of a refusal number, for a host's log.
ghost use Rattle.std.specs.Prelude.{◌≡◌};
ghost use Rattle.sky.specs.Kind.{kind_number, kind_of};

/// The kinds by which a host groups refusals, each with its number.
#[derive(Clone, Copy, PartialEq, Eq)]
pub enum RefusalKind {
    Other = 0,
    Image = 1,
    Row = 2,
    Room = 3,
}

impl RefusalKind {
    /// The kind of the refusal with a number. It is no `From<u8>`, which would read as the way back from a kind's own number.
    #[tactic(auto, using(crate::proofs::KindRanges::ranges))]
    pub fn of(number: u8) -> RefusalKind
        ensures { kind_number result ≡ kind_of number }
    {
        // Document 01 asks for one match with ranges and a default case.
        match number {
            1..=5 => RefusalKind::Image,
            6..=11 => RefusalKind::Row,
            12 => RefusalKind::Room,
            _ => RefusalKind::Other,
        }
    }
}

impl From<RefusalKind> for u8 {
    ghost from_gives = { λ kind number. number ≡ kind_number kind };

    fn from(kind: RefusalKind) -> u8 {
        // No plainer form: so the language gives an enum's number.
        kind as u8
    }
}

/// 1 for an image fault, 2 for a row fault, 3 for room, 0 for every other number. It takes and gives numbers
/// since its clause, a public promise, is of the definition `kind_of`, which does.
pub fn kind(number: u8) -> u8
    ensures { result ≡ kind_of number }
{
    RefusalKind::of(number).into()
}

/// `kind`, under the name that `sky_c` exports to C.
pub fn sky_kind(number: u8) -> u8
    ensures { result ≡ kind_of number }
{
    kind(number)
}
