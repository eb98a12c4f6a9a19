//! The run of a list, by value: so far its state and what changes it. Each change is proved to be the rules' own, seen through the
//! view of specs/View; the steps of a tick are made of them.
#![tactic(auto)]

mod state;

pub use state::{Fate, Proc, Run};
