//! The three calls on list images. Each answers, and leaves its buffer, as specs/Refusals and specs/Calls say in document 01's
//! numbers, for every byte string.
ghost use Rattle.std.specs.Prelude.{◌≡◌, ◌++◌, ◌+◌, ◌≤◌, length, drop};
ghost use Rattle.image.specs.Refusals.{list_answer, rows_answer};
ghost use Rattle.image.specs.Calls.{image_of, read_call, write_call};
ghost use Rattle.image.specs.Numbering.{check_answer, called};

use crate::job::ROW_SIZE;
use crate::refusal::Refusal;
use crate::rows::check_rows;

/// The count of bytes before an image's rows.
const HEADER_SIZE: usize = 7;

/// The one version of an image.
const VERSION: u8 = 1;

/// A list has at most this many rows.
const ROW_LIMIT: usize = 64;

/// Whether a byte string is an accepted list, or why not.
#[tactic(auto, using(crate::proofs::Answers::list_passed, crate::proofs::RowArrays::cut_list), unfolding(crate::specs::Refusals::list_answer, rules::specs::Choose::choose))]
pub fn check(list: &[u8]) -> Result<(), Refusal>
    ensures { check_answer result ≡ list_answer list.now }
{
    if list.len() < HEADER_SIZE {
        return Err(Refusal::TooShort);
    }
    // This and every other cast here is proved to lose nothing; `try_from` would bring an error that cannot come.
    let first = fields::get::<4>(list, 0) as usize;
    if first != list.len() - 4 {
        return Err(Refusal::WrongCount);
    }
    if list[4] != VERSION {
        return Err(Refusal::WrongVersion);
    }
    let n = fields::get::<2>(list, 5) as usize;
    if ROW_LIMIT < n {
        return Err(Refusal::TooManyRows);
    }
    if first != 3 + ROW_SIZE * n {
        return Err(Refusal::WrongSize);
    }
    // These are whole rows, and nothing after them.
    check_rows(list[HEADER_SIZE..].as_chunks().0)
}

/// Whether bytes are the rows of an accepted list, or why not.
#[tactic(auto, using(crate::proofs::Answers::rows_passed, crate::proofs::RowArrays::cut_rows), unfolding(crate::specs::Refusals::rows_answer, rules::specs::Choose::choose))]
fn check_raw(rows: &[u8]) -> Result<(), Refusal>
    ensures { check_answer result ≡ rows_answer rows.now }
{
    let (whole, rest) = rows.as_chunks();
    if ROW_LIMIT < whole.len() {
        return Err(Refusal::TooManyRows);
    }
    if !rest.is_empty() {
        return Err(Refusal::WrongSize);
    }
    check_rows(whole)
}

/// Gives an accepted image's rows back, 14 bytes each.
#[tactic(auto, using(crate::proofs::Answers::passed_size, crate::proofs::Outcomes::ends))]
pub fn read(list: &[u8], rows: &mut [u8]) -> Result<u16, Refusal>
    ensures { called result rows.new ≡ read_call list.now rows.old }
{
    check(list)?;
    let size = list.len() - HEADER_SIZE;
    if rows.len() < size {
        return Err(Refusal::NoRoom);
    }
    fields::put_all(rows, 0, &list[HEADER_SIZE..]);
    // Proved to fit, so `as` and not `try_from`.
    Ok(size as u16)
}

/// Lays the image of rows into a buffer that has room for it: header first, then the rows.
#[tactic(auto, using(crate::proofs::Laying::image_laid))]
fn lay_image(rows: &[u8], list: &mut [u8])
    requires room { 7 + length rows.now ≤ length list.old }
    requires few { length rows.now ≤ 896 }
    ensures { list.new ≡ image_of rows.now ++ drop (7 + length rows.now) list.old }
{
    // Both sizes are proved to fit, so `as` and not `try_from`.
    let size = rows.len();
    fields::put::<4>(list, 0, (3 + size) as u32);
    fields::put::<1>(list, 4, VERSION.into());
    fields::put::<2>(list, 5, (size / ROW_SIZE) as u32);
    fields::put_all(list, HEADER_SIZE, rows);
}

/// Writes the image of rows that are given as bytes, 14 each.
#[tactic(auto, using(crate::proofs::Answers::passed_rows, crate::proofs::Outcomes::ends, crate::proofs::Laying::image_length))]
pub fn write(rows: &[u8], list: &mut [u8]) -> Result<u16, Refusal>
    ensures { called result list.new ≡ write_call rows.now list.old }
{
    check_raw(rows)?;
    let size = HEADER_SIZE + rows.len();
    if list.len() < size {
        return Err(Refusal::NoRoom);
    }
    lay_image(rows, list);
    // Proved to fit, so `as` and not `try_from`.
    Ok(size as u16)
}
