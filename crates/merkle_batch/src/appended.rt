//! The digests of the leaves that the records of a merkleized batch appended.
ghost use Rattle.std.specs.Prelude.{◌≡◌, ◌⊎◌, ℕ, List, ◌∷◌, drop, length};
ghost use Rattle.merkle_base.specs.Forest.{size};
ghost use Rattle.merkle_base.specs.Hashing.{Hashing};
ghost use Rattle.merkle_batch.specs.HeldLeaves.{held_leaves};
ghost use Rattle.merkle_batch_theory.specs.History.{IsHistory, last_list};
ghost use Rattle.merkle_batch_theory.specs.Read.{newest};
ghost use Rattle.merkle_batch_theory.specs.Records.{records};
ghost use Rattle.merkle_batch_theory.specs.Replay.{oldest};

use crate::leaf_digests::{LeafDigests, held_leaf_digests};
use crate::merkleized::MerkleizedBatch;
use merkle_base::family::Family;
use merkle_base::location::Location;
use merkle_base::position::Position;
use merkle_digest::digest::Digest;

impl<F: Family, D: Digest> MerkleizedBatch<F, D> {
    // Returns the size in nodes before the oldest record that the batch keeps.
    fn size_before(&self) -> Position<F>
        ensures { result ≡ (oldest self.now).before }
    {
        match self.ancestors.first() {
            Some(oldest) => oldest.size_before,
            None => self.own.size_before,
        }
    }

    // Returns the leaf count before the oldest record that the batch keeps, or the one after the
    // batch if no leaf count has the size before that record.
    fn leaves_before(&self) -> Location<F>
        ensures known { (size F.rule result ≡ (oldest self.now).before) ⊎ (result ≡ self.now.leaves) }
        ensures sized { (n : ℕ) → size F.rule n ≡ (oldest self.now).before → result ≡ n }
    {
        let after = self.leaves;
        match F::position_to_location(self.size_before()) {
            Some(before) => before,
            None => after,
        }
    }

    /// Iterates over the digests of the leaves that the kept records and the batch's own appended,
    /// the oldest first, each as it is after the batch. No memory is requested.
    pub fn leaf_digests(&self) -> LeafDigests<'_, Self>
        ensures listed { (n : ℕ) → size F.rule n ≡ (oldest self.now).before → result ≡ held_leaves F.rule (newest (records self.now)) n self.now.leaves }

        // If some lists are a history of the batch, they are what the last list has more than the first.
        ensures of_lists { (h : Hashing D) → (X : List D) → (ls : List (List D)) → IsHistory h F.rule (records self.now) (X ∷ ls)
            → result ≡ drop (length X) (last_list (X ∷ ls)) }
    {
        held_leaf_digests(self, self.leaves_before(), self.leaves)
    }
}
