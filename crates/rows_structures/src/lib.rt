//! Calls of the program `rows` about what it holds from line to line: structures and batches by their names, which are built, changed,
//! and asked for their nodes and roots.
#![tactic(auto)]

mod batches;
pub mod calls;
mod drafts;
mod leaves;
mod nodes;
mod structures;
