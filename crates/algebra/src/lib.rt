//! The mathematics that the other crates rest on: see specs/ and proofs/. No code.
#![tactic(auto)]
