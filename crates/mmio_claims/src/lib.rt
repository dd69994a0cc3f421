//! What the device's step comes to. This crate has no code: its theorems are in proofs/, and what they speak of in specs/.

#![tactic(auto)]
