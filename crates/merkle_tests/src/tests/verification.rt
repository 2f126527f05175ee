//! Proofs over what holds nodes, and digests that are extracted from proofs.

mod extraction;
mod readers;
mod roots;
