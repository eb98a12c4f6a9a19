//! Lists: checked, read and written, for hosts, to whom document 01 promises numbers: an answer is a struct of four, or, for C,
//! one packed number.
ghost use Rattle.std.specs.Prelude.{◌≡◌};
ghost use Rattle.image.specs.Refusals.{list_answer};
ghost use Rattle.image.specs.Calls.{read_call, write_call};
ghost use Rattle.sky.specs.Packed.{packed};

use crate::packed::pack;
use image::Answer;

/// Whether a byte string is an accepted list, or why not. The answer is the struct of numbers that hosts rely on.
pub fn check(list: &[u8]) -> Answer
    ensures { result ≡ list_answer list.now }
{
    image::check(list).into()
}

/// Gives an accepted image's rows back, 14 bytes each. The answer is the struct of numbers that hosts rely on.
pub fn read(list: &[u8], rows: &mut [u8]) -> Answer
    ensures answer { result ≡ (read_call list.now rows.old).answer }
    ensures buffer { rows.new ≡ (read_call list.now rows.old).buffer }
{
    image::read(list, rows).into()
}

/// Writes the image of rows that are given as bytes, 14 each. The answer is the struct of numbers that hosts rely on.
pub fn write(rows: &[u8], list: &mut [u8]) -> Answer
    ensures answer { result ≡ (write_call rows.now list.old).answer }
    ensures buffer { list.new ≡ (write_call rows.now list.old).buffer }
{
    image::write(rows, list).into()
}

/// `check`, with the answer packed into one number, for C.
#[tactic(auto, using(crate::proofs::Unpacked::check_fits))]
pub fn sky_check(list: &[u8]) -> u64
    ensures { result ≡ packed (list_answer list.now) }
{
    pack(check(list))
}

/// `read`, with the answer packed into one number, for C.
pub fn sky_read(list: &[u8], rows: &mut [u8]) -> u64
    ensures answer { result ≡ packed (read_call list.now rows.old).answer }
    ensures buffer { rows.new ≡ (read_call list.now rows.old).buffer }
{
    pack(read(list, rows))
}

/// `write`, with the answer packed into one number, for C.
#[tactic(auto, using(crate::proofs::Unpacked::write_fits))]
pub fn sky_write(rows: &[u8], list: &mut [u8]) -> u64
    ensures answer { result ≡ packed (write_call rows.now list.old).answer }
    ensures buffer { list.new ≡ (write_call rows.now list.old).buffer }
{
    pack(write(rows, list))
}
