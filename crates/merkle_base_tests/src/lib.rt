//! Tests of numbers, errors, digests, families, hashers and paths: vectors, texts, and each call at concrete types. Those of
//! hashing four messages at a time know digests from elsewhere, those of the library `sha2`, and those of nodes one by one.
#![tactic(auto)]

#[cfg(test)]
mod tests;
