//! The words that stand for families, baggings and hashers.

use merkle_core::family::Bagging;
use rows_text::refusal::{Refusal, SYNTAX};
use rows_text::words::bytes;
use std::alloc::Global;

#[derive(Clone, Copy)]
pub enum FamilyName {
    Mmr,
    Mmb,
    Flat,
    Pairs,
}

pub const FAMILIES: [(&str, FamilyName); 4] = [
    ("mmr", FamilyName::Mmr),
    ("mmb", FamilyName::Mmb),
    ("flat", FamilyName::Flat),
    ("pairs", FamilyName::Pairs),
];

pub const BAGGINGS: [(&str, Bagging); 2] = [
    ("forward", Bagging::ForwardFold),
    ("backward", Bagging::BackwardFold),
];

#[derive(Clone, Copy)]
pub enum HashName {
    Sha256,
    Xor8,
    Keyed,
}

pub const HASHES: [(&str, HashName); 3] = [
    ("sha256", HashName::Sha256),
    ("xor8", HashName::Xor8),
    ("keyed", HashName::Keyed),
];

// The key where the line has none.
const KEY: u8 = 0x5a;

/// Whether a word stands for that name.
pub fn is_meant(word: &str, name: &str) -> bool {
    word == name || word == "*"
}

/// The word of the hash, and the key.
pub fn read_hash<'a>(alloc: Global, words: &[&'a str]) -> Result<(&'a str, u8), Refusal> {
    match *words {
        [hash] => Ok((hash, KEY)),
        ["keyed", key] => match bytes(alloc, key)?.as_slice() {
            [key] => Ok(("keyed", *key)),
            _ => Err(SYNTAX),
        },
        _ => Err(SYNTAX),
    }
}
