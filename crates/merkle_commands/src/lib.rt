//! Lines as commands, and bytes as words of hexadecimal digits.
#![tactic(auto)]

pub mod command;
mod digits;
pub mod hex_words;
