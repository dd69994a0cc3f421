//! Whole runs of the device. This crate has no code: the log's reading is in specs/, the theorems are in proofs/.

#![tactic(auto)]
