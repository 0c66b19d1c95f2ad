//! Ghost histories of a structure that threads share: definitions and lemmas for its proofs.
//!
//! A shared structure has members, each with a number, and a history: the list of what was done,
//! newest first. The record of a member is a fold of its own deeds. Threads carry the records in
//! views. A rule ties the views to one history, and every step keeps it.
//!
//! This crate has no code that runs. Its lemmas show how a rule is kept, and that the records of
//! all members together say what the history says.
#![tactic(auto)]
