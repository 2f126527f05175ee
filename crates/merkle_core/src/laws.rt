//! The theorems about the definitions that the contracts cite, by their subjects.
//!
//! Each function in these modules is empty, and its contract is a law: no program calls it. The definitions are in the
//! `specs` of this crate.
ghost use Rattle.std.specs.Prelude.{◌≡◌, ℕ, ◌≤◌, List, length};
ghost use Rattle.merkle_base.specs.Forest.{size};
ghost use Rattle.merkle_batch_theory.specs.Contents.{HoldsKept};
ghost use Rattle.merkle_batch_theory.specs.MemModel.{MemModel, contents};
ghost use Rattle.merkle_core.specs.MemBytes.{MakesAgain};

pub use merkle_audit_theory::laws as audits;
pub use merkle_base::laws as every_forest;
pub use merkle_batch_theory::laws as batches;
pub use merkle_claim_theory::laws as claims;
pub use merkle_forest_theory::laws as forests;
pub use merkle_restore_theory::laws as damage;
pub use merkle_store_theory::laws as stores;
pub use merkle_verification::laws as store_calls;

/// What is made of the components that the bytes of a structure spell is that structure, if the bytes
/// of digests have one length and differ from one another.
pub fn bytes_of_structures<D>()
    ensures again { (rule : List ℕ → List ℕ) → (bytes : D → List ℕ) → (each : ℕ) → ((x : D) → length (bytes x) ≡ each) → ((x y : D) → bytes x ≡ bytes y → x ≡ y)
        → (s : MemModel D) → HoldsKept rule (contents s) → s.boundary ≤ s.leaves → size rule s.leaves ≡ s.size → MakesAgain rule bytes s }
{}
