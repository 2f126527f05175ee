//! Appending leaves with the parents that follow from them.
ghost use Rattle.std.specs.Prelude.{◌≡◌, ◌≢◌, ◌+◌, ◌++◌, ◌≤◌, ℕ, List, Option, [], length, IfErr, IfOk, OnOk};
ghost use Rattle.merkle_base.specs.Forest.{size};
ghost use Rattle.merkle_draft.specs.DraftReads.{below, stored_node};
ghost use Rattle.merkle_draft.specs.NewDigests.{AreNewDigests, LacksChild};
ghost use Rattle.merkle_draft.specs.Settled.{HasSameAfter};

use crate::base::Base;
use crate::draft::Draft;
use crate::levels::Levels;
use crate::node_error::NodeError;
use merkle_base::family::Family;
use merkle_base::location::Location;
use merkle_digest::digest::Digest;
use merkle_hasher::hasher::Hasher;

/// How many leaves are appended before the parents that follow from them are computed. Their nodes
/// stay in the processor's nearest caches for that time. At the end of each chunk a few nodes are
/// computed one by one, so that smaller chunks hash more slowly.
const LEAVES_AT_ONCE: usize = 1024;

impl<F: Family, D: Digest> Draft<F, D> {
    // Appends the leaves `added` to a structure with `leaves` leaves, computes the parents that
    // adding them creates, and returns how many they are.
    //
    // `levels` is only used for the memory that it has.
    fn append_chunk<B: Base<F, Digest = D>, H: Hasher<F, Digest = D>>(
        &mut self,
        base: &B,
        hasher: &H,
        levels: &mut Levels<F>,
        leaves: Location<F>,
        added: &[D],
    ) -> Result<u64, NodeError<F>>
        requires within { leaves + length added.now ≤ F.MAX_LEAVES }
        requires counted { self.old.before + length self.old.appended ≡ size F.rule leaves }
        ensures only { (self.new.before ≡ self.old.before) × (self.new.kept ≡ self.old.kept) }
        ensures old { HasSameAfter self.old self.new }
        ensures counted { OnOk result (self.new.before + length self.new.appended ≡ size F.rule (leaves + length added.now)) }
        ensures settled { let h = H.hashing hasher.now in let under = below self.old (B.contents base.now) in
            OnOk result ((m : ℕ → Option D) (n : ℕ) (ds : List D) → n + length ds ≡ leaves → size F.rule n ≡ self.old.before
            → AreNewDigests h F.rule m under n ds (stored_node self.old) → AreNewDigests h F.rule m under n (ds ++ added.now) (stored_node self.new)) }
        ensures missing { let h = H.hashing hasher.now in let under = below self.old (B.contents base.now) in
            IfErr result (λ e. e ≢ NodeError.OutOfMemory → (m : ℕ → Option D) (n : ℕ) (ds : List D) → n + length ds ≡ leaves → size F.rule n ≡ self.old.before
            → AreNewDigests h F.rule m under n ds (stored_node self.old) → LacksChild F.rule m under n (leaves + length added.now) e) }
        ensures work { IfOk result (λ k. k + length added.now + size F.rule leaves ≡ size F.rule (leaves + length added.now)) }
    {
        levels.clear();
        self.add_leaves(levels, leaves, added)?;
        self.compute_levels(base, hasher, levels)
    }

    /// Appends the leaves `added` to a structure with `leaves` leaves and the parents that adding
    /// them creates, and returns how many parents they are.
    ///
    /// # Errors
    ///
    /// - `Missing` if a child of one of the parents is held neither by the draft nor by the base
    /// - `OutOfMemory` if a memory request is refused
    ///
    /// The draft may have some of the new nodes after an error.
    pub(crate) fn append_leaves<B: Base<F, Digest = D>, H: Hasher<F, Digest = D>>(
        &mut self,
        base: &B,
        hasher: &H,
        leaves: Location<F>,
        added: &[D],
    ) -> Result<u64, NodeError<F>>
        requires within { leaves + length added.now ≤ F.MAX_LEAVES }
        requires sized { size F.rule leaves ≡ self.old.before }
        requires nothing { self.old.appended ≡ [] }
        ensures only { (self.new.before ≡ self.old.before) × (self.new.kept ≡ self.old.kept) }
        ensures old { HasSameAfter self.old self.new }
        ensures counted { OnOk result (self.new.before + length self.new.appended ≡ size F.rule (leaves + length added.now)) }
        ensures settled { let h = H.hashing hasher.now in let under = below self.old (B.contents base.now) in OnOk result ((m : ℕ → Option D)
            → AreNewDigests h F.rule m under leaves [] (stored_node self.old) → AreNewDigests h F.rule m under leaves added.now (stored_node self.new)) }
        ensures missing { let h = H.hashing hasher.now in let under = below self.old (B.contents base.now) in
            IfErr result (λ e. e ≢ NodeError.OutOfMemory → (m : ℕ → Option D) → AreNewDigests h F.rule m under leaves [] (stored_node self.old)
            → LacksChild F.rule m under leaves (leaves + length added.now) e) }
        ensures work { IfOk result (λ k. k + length added.now + size F.rule leaves ≡ size F.rule (leaves + length added.now)) }
    {
        let mut levels = Levels::new(*self.appended.allocator());
        let mut leaf = leaves;
        let mut count = 0;
        for chunk in added.chunks(LEAVES_AT_ONCE) {
            count += self.append_chunk(base, hasher, &mut levels, leaf, chunk)?;
            leaf += chunk.len() as u64;
        }
        Ok(count)
    }
}
