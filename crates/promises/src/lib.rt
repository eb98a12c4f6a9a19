//! The promises hold no code: their terms are under specs/, the demands in proofs/Main, and the argument beside it.
#![tactic(auto)]
