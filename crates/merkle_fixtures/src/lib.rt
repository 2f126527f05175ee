//! Families and hashers for tests and programs that exercise generic code.
//!
//! Generic code is proved from its bounds alone. These are types that the crates with that code do
//! not know: [`flat`] and [`pairs`] are families with small limits, [`keyed`] is a hasher whose
//! digests depend on its value, [`counting`] one that counts its calls for nodes and notes the leaves
//! in the order in which it is called with them, and [`fours`] one that counts its calls for leaves
//! too, and whose `hashes_together` can be chosen.
#![tactic(auto)]

mod calls;
pub mod counting;
pub mod flat;
pub mod fours;
pub mod keyed;
pub mod pairs;
