//! The protocol by which each line of a run over a growing log is taken once, whatever dies meanwhile.
//!
//! A process reads a log, keeps its rows in a journal, and hands out lines, each with its number; a sink
//! takes them into a table. Here is what each does, step by step, and which crash may leave what. What is
//! read, how a run writes lines, and what a cut keeps is for others.
#![tactic(auto)]

pub mod laws;
