//! Logs and runs, for any transport. This crate has no code: definitions are in specs/, the laws in proofs/.

#![tactic(auto)]
