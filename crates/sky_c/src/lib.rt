//! What a host calls through C linkage: the calls of `sky`, each under its own contract, exported from a static library. A slice
//! is a pointer and a length there, and an answer or a kind is a number: that is what C can take. None has a `requires`.
#![tactic(auto)]

ghost use Rattle.std.specs.Prelude.{◌≡◌};
ghost use Rattle.image.specs.Refusals.{list_answer};
ghost use Rattle.image.specs.Calls.{read_call, write_call};
ghost use Rattle.sky.specs.Packed.{packed};
ghost use Rattle.sky.specs.Kind.{kind_of};

/// `sky::sky_check`, for C: so the answer is one number.
#[unsafe(no_mangle)]
pub extern "C" fn sky_check(list: &[u8]) -> u64
    ensures { result ≡ packed (list_answer list.now) }
{
    sky::sky_check(list)
}

/// `sky::sky_read`, for C: so the answer is one number.
#[unsafe(no_mangle)]
pub extern "C" fn sky_read(list: &[u8], rows: &mut [u8]) -> u64
    ensures answer { result ≡ packed (read_call list.now rows.old).answer }
    ensures buffer { rows.new ≡ (read_call list.now rows.old).buffer }
{
    sky::sky_read(list, rows)
}

/// `sky::sky_write`, for C: so the answer is one number.
#[unsafe(no_mangle)]
pub extern "C" fn sky_write(rows: &[u8], list: &mut [u8]) -> u64
    ensures answer { result ≡ packed (write_call rows.now list.old).answer }
    ensures buffer { list.new ≡ (write_call rows.now list.old).buffer }
{
    sky::sky_write(rows, list)
}

/// `sky::sky_kind`, for C: so a kind is a number.
#[unsafe(no_mangle)]
pub extern "C" fn sky_kind(number: u8) -> u8
    ensures { result ≡ kind_of number }
{
    sky::sky_kind(number)
}
