//! Big-endian numbers of up to four bytes: read from a byte slice, and laid into one. The images are made of these.
#![tactic(auto)]

ghost use Rattle.std.specs.Prelude.{◌≡◌, ◌+◌, ◌≤◌, length};
ghost use Rattle.fields.specs.Fields.{be, bytes, laid};

/// The number of the N bytes at `at`, a place and no length. That it is inside the slice is asked, as for an index, at each call of
/// this crate. A type would be no plainer: slice and place are the caller's and differ each time, so it kept nothing for the next call.
#[tactic(auto, using(crate::proofs::Words::number_read))]
pub fn get<const N: usize>(s: &[u8], at: usize) -> u32
    requires few { N ≤ 4 }
    requires inside { at + N ≤ length s.now }
    ensures { result ≡ be N s.now at }
{
    let mut word = [0; 4];
    word[4 - N..].copy_from_slice(&s[at..at + N]);
    u32::from_be_bytes(word)
}

/// Lays a number's N lowest bytes into d from `at` on, which is asked to be inside as for `get`.
#[tactic(auto, using(crate::proofs::Words::word_bytes))]
pub fn put<const N: usize>(d: &mut [u8], at: usize, v: u32)
    requires few { N ≤ 4 }
    requires inside { at + N ≤ length d.old }
    ensures { d.new ≡ laid d.old at (bytes N v) }
{
    put_all(d, at, &v.to_be_bytes()[4 - N..]);
}

/// Lays all the bytes of w into d from `at` on, which is asked to be inside as for `get`. Byte by byte: the library's copy of a
/// slice can call the C library's `memmove`, and the archive for C needs no name from outside.
#[tactic(auto, using(crate::proofs::Laws::lay_next))]
pub fn put_all(d: &mut [u8], at: usize, w: &[u8])
    requires { at + length w.now ≤ length d.old }
    ensures { d.new ≡ laid d.old at w.now }
{
    for (i, byte) in w.iter().enumerate() {
        d[at + i] = *byte;
    }
}
