//! Why a list is refused: a fault of the image, a fault of one of its rows, or too little room for what is to be written.
ghost use Rattle.std.specs.Prelude.{◌≡◌};
ghost use Rattle.image.specs.Numbering.{fault_number};

/// What is wrong with a row. Each fault has document 01's number.
#[derive(Clone, Copy, PartialEq, Eq)]
pub enum RowFault {
    /// The name is 0.
    NameZero = 6,

    /// An earlier row has the name.
    NameTaken = 7,

    /// The cost is 0.
    CostZero = 8,

    /// The deadline is above 1,000,000.
    DeadlineTooLate = 9,

    /// The deadline is before the release, or less than the cost after it.
    TooLittleTime = 10,

    /// The release is less than that of the row before.
    ReleaseTooEarly = 11,
}

impl From<RowFault> for u8 {
    ghost from_gives = { λ fault number. number ≡ fault_number fault };

    fn from(fault: RowFault) -> u8 {
        // No plainer form: so the language gives an enum's number.
        fault as u8
    }
}

/// Why a list is refused.
#[derive(Clone, Copy, PartialEq, Eq)]
pub enum Refusal {
    /// There are fewer than 7 bytes.
    TooShort,

    /// The first field differs from the count of bytes after it.
    WrongCount,

    /// The version is not 1.
    WrongVersion,

    /// There are more than 64 rows.
    TooManyRows,

    /// The size is not that of whole rows, or of as many as the image says.
    WrongSize,

    /// A row has a fault. Rows count from 1.
    Row { row: u16, fault: RowFault },

    /// The buffer to be written has too few bytes.
    NoRoom,
}
