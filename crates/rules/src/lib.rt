//! The tick rules hold no code: what a reader must believe is under specs/, and the small runs proved of it under proofs/.
#![tactic(auto)]
