#![tactic(auto)]
//! Vocabulary for the numbers of traces and caches, for definitions to use.
//!
//! The crate has no code, so crates that share nothing else can share these definitions.
