//! The words of the calls that the program `rows` reads, and the texts of its answers.
//!
//! What is here knows no family, digest or structure, so that it is proved in a moment.
#![tactic(auto)]

pub mod answer;
pub mod calls;
pub mod refusal;
pub mod words;
