//! List images: `check` says whether a byte string is an accepted list, `read` gives its rows, `write` makes an image of rows.
//! None has a `requires`: what is not a list is refused, with the reason, and a refused call changes no byte.
#![tactic(auto)]

mod answer;
mod job;
mod list;
mod refusal;
mod rows;

pub use answer::{Answer, accepted, refused};
pub use list::{check, read, write};
pub use refusal::{Refusal, RowFault};
