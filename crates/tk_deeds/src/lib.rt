//! What may happen at most: the entries of a legal journal, and the starts and ends of its pods' steps, are together at
//! most the journal's weight.
#![tactic(auto)]

pub mod laws;
