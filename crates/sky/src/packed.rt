//! An answer as one number, which is all that C gets of it: document 01 gives each part its place.
ghost use Rattle.std.specs.Prelude.{◌≡◌, ◌^◌, ◌<◌};
ghost use Rattle.sky.specs.Packed.{packed};

use image::Answer;

// What a part is worth by its place; the value stands at the end.
const NUMBER: u64 = 1 << 56;

const ROW: u64 = 1 << 40;

const SIZE: u64 = 1 << 24;

/// The answer packed into the number that C gets. A value has 24 bits of room, which no run's value exceeds.
#[tactic(auto, unfolding(crate::specs::Packed::packed))]
pub(crate) fn pack(a: Answer) -> u64
    requires { a.value < 2 ^ 24 }
    ensures { result ≡ packed a }
{
    u64::from(a.number) * NUMBER
        + u64::from(a.row) * ROW
        + u64::from(a.size) * SIZE
        + u64::from(a.value)
}
