//! No code: how the functions behind a lent device go, proved once over any device that begins with its polled part.

#![tactic(auto)]
