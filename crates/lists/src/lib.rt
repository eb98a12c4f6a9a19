//! The promises once more, of bytes: they hold of every byte string that is an accepted list. No code; the statement is under
//! specs/, and its proof under proofs/.
#![tactic(auto)]
