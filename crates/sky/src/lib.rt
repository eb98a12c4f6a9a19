//! What a host calls. Each function answers for every byte string and every buffer length and has no `requires`. Those named
//! sky_ give the answer as one packed number; sky_c exports them to C.
#![tactic(auto)]

mod list;
mod packed;
mod refusals;

pub use list::{check, read, sky_check, sky_read, sky_write, write};
pub use refusals::{RefusalKind, kind, sky_kind};
