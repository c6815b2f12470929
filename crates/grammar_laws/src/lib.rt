//! Grammars whose productions say what they stand for, and the laws of reading a text by one.
//!
//! Read `specs/Grammar.antt` first: what a grammar is, and which texts are of it;
//! `specs/BySymbols.antt` says the same as a grammar is commonly read. The layers above rely on
//! lemmas of `proofs/`, which hold of every grammar that is predictive and productive: no text has
//! two readings (`Choice`); a stack of what is expected finds the longest part that begins some text
//! (`Expected`); descent gives the tree of each text that reads (`DescentComplete`,
//! `DescentStable`); what reads can be cut into pieces (`Cuts`). A grammar each of whose rules passes
//! a finite test is predictive (`KindTests`).
//!
//! The laws speak of grammars as values of the specification, which no function of Rust is given. So
//! they are lemmas to import, and the crate has no code.
#![tactic(auto)]
