//! The digests of the nodes that follow from a batch's leaves.
ghost use Rattle.std.specs.Prelude.{◌≡◌, ◌≢◌, ◌+◌, ◌*◌, ◌++◌, ◌∷◌, ◌<◌, ◌≤◌, ◌^◌, ◌==◌, ℕ, List, Option, Some, [], length, None, cond, IfErr, IfOk, OnOk};
ghost use Rattle.std.specs.FinMap.{empty, from_entries, get};
ghost use Rattle.std.specs.List.{Contains, flat_map};
ghost use Rattle.merkle_base.specs.Forest.{size};
ghost use Rattle.merkle_base.specs.Places.{HasInner, peaks_of};
ghost use Rattle.merkle_batch_theory.specs.Needed.{computed_nodes};
ghost use Rattle.merkle_draft.specs.DirtyLeaves.{HasLeavesOf, dirty_leaves};
ghost use Rattle.merkle_draft.specs.DraftReads.{below, stored_node, OnlyOverwrites};
ghost use Rattle.merkle_draft.specs.Levels.{all_dirty_count, level_at, from_height};
ghost use Rattle.merkle_draft.specs.NewDigests.{AreNewDigests, LacksChild, updates_of};
ghost use Rattle.merkle_draft.specs.Settled.{AreAnswers, AreInner, AreParents, AreSettled, AreStored, HasSameAfter, HasSameShape, IsReadyToCompute, LacksForChanges, LacksForLevel, SettlesLevel, StoresChanges, draft_node};

use crate::base::Base;
use crate::draft::Draft;
use crate::levels::Levels;
use crate::node_error::NodeError;
use merkle_base::family::Family;
use merkle_base::location::Location;
use merkle_base::position::Position;
use merkle_digest::digest::Digest;
use merkle_hasher::hasher::{Hasher, Parent};
use merkle_hasher::nodes::node_digests;
use std::alloc::AllocError;
use std::collections::BTreeMap;

/// How many nodes of a level are computed between two writes to the draft; a multiple of four, so
/// that all but the last nodes are hashed four at a time.
const NODES_AT_ONCE: usize = 64;

impl<F: Family, D: Digest> Draft<F, D> {
    // Sets the digest that the draft stores for the node at `position`, which is before its end.
    fn set_node(&mut self, position: Position<F>, digest: D) -> Result<(), AllocError>
        requires { position < self.old.before + length self.old.appended }
        ensures shape { HasSameShape self.old self.new }
        ensures old { HasSameAfter self.old self.new }
        ensures set { OnOk result ((p : ℕ) → stored_node self.new p ≡ cond (p == position) (Some digest) (stored_node self.old p)) }
    {
        if position < self.size_before {
            self.overwrites.insert(position, digest)?;
        } else {
            let index = (position - self.size_before).as_u64() as usize;
            self.appended[index] = digest;
        }
        Ok(())
    }

    // Appends to `parents` the nodes at these positions, with the digests of their children.
    fn read_children<B: Base<F, Digest = D>>(
        &self,
        base: &B,
        height: u32,
        positions: &[Position<F>],
        parents: &mut Vec<Parent<F, D>>,
    ) -> Result<(), NodeError<F>>
        requires inner { AreInner F.rule F.MAX_LEAVES height positions.now }
        requires none { parents.old.items ≡ [] }
        ensures read { OnOk result (AreParents F.rule (draft_node self.now (B.contents base.now)) positions.now parents.new.items) }
        ensures missing { IfErr result (λ e. e ≢ NodeError.OutOfMemory
            → (h : _) → LacksForLevel h F.rule F.MAX_LEAVES (B.contents base.now) height positions.now self.now e) }
    {
        for position in positions {
            let (left, right) = F::children(*position, height);
            let Some(left_digest) = self.read_node(base, left) else {
                return Err(NodeError::Missing(left));
            };
            let Some(right_digest) = self.read_node(base, right) else {
                return Err(NodeError::Missing(right));
            };
            parents.push((*position, left_digest, right_digest))?;
        }
        Ok(())
    }

    // Sets the digests of the nodes at these positions.
    fn set_nodes(&mut self, positions: &[Position<F>], digests: &[D]) -> Result<(), AllocError>
        requires many { length digests.now ≡ length positions.now }
        requires stored { AreStored self.old positions.now }
        ensures shape { HasSameShape self.old self.new }
        ensures old { HasSameAfter self.old self.new }
        ensures settled { OnOk result ((h : _) (m under : ℕ → Option D) (n : ℕ) (ds : List D) (later : List ℕ)
            → AreAnswers h F.rule m under n ds positions.now digests.now
            → AreSettled h F.rule m under n ds (positions.now ++ later) (stored_node self.old)
            → AreSettled h F.rule m under n ds later (stored_node self.new)) }
    {
        for i in 0..positions.len() {
            self.set_node(positions[i], digests[i])?;
        }
        Ok(())
    }

    // Computes the nodes at these positions, which have height `height`.
    //
    // `parents` and `digests` are only used for the memory that they have.
    fn compute_nodes<B: Base<F, Digest = D>, H: Hasher<F, Digest = D>>(
        &mut self,
        base: &B,
        hasher: &H,
        height: u32,
        positions: &[Position<F>],
        parents: &mut Vec<Parent<F, D>>,
        digests: &mut Vec<D>,
    ) -> Result<(), NodeError<F>>
        requires inner { AreInner F.rule F.MAX_LEAVES height positions.now }
        requires stored { AreStored self.old positions.now }
        ensures shape { HasSameShape self.old self.new }
        ensures old { HasSameAfter self.old self.new }
        ensures settled { OnOk result (
            SettlesLevel (H.hashing hasher.now) F.rule F.MAX_LEAVES (B.contents base.now) height positions.now self.old self.new) }
        ensures missing { IfErr result (λ e. e ≢ NodeError.OutOfMemory
            → LacksForLevel (H.hashing hasher.now) F.rule F.MAX_LEAVES (B.contents base.now) height positions.now self.old e) }
    {
        parents.clear();
        digests.clear();
        self.read_children(base, height, positions, parents)?;
        node_digests(hasher, parents, digests)?;
        self.set_nodes(positions, digests)?;
        Ok(())
    }

    // Computes the nodes of height `height` at these positions, some at a time.
    fn compute_chunks<B: Base<F, Digest = D>, H: Hasher<F, Digest = D>>(
        &mut self,
        base: &B,
        hasher: &H,
        height: u32,
        positions: &[Position<F>],
        parents: &mut Vec<Parent<F, D>>,
        digests: &mut Vec<D>,
    ) -> Result<(), NodeError<F>>
        requires inner { AreInner F.rule F.MAX_LEAVES height positions.now }
        requires stored { AreStored self.old positions.now }
        ensures shape { HasSameShape self.old self.new }
        ensures old { HasSameAfter self.old self.new }
        ensures settled { OnOk result (
            SettlesLevel (H.hashing hasher.now) F.rule F.MAX_LEAVES (B.contents base.now) height positions.now self.old self.new) }
        ensures missing { IfErr result (λ e. e ≢ NodeError.OutOfMemory
            → LacksForLevel (H.hashing hasher.now) F.rule F.MAX_LEAVES (B.contents base.now) height positions.now self.old e) }
    {
        for chunk in positions.chunks(NODES_AT_ONCE) {
            self.compute_nodes(base, hasher, height, chunk, parents, digests)?;
        }
        Ok(())
    }

    // Computes the node at `position`, which has height `height`. No memory is used but that for the
    // new digest, so that a level of one node, as each is where one leaf is added, costs little.
    fn compute_node<B: Base<F, Digest = D>, H: Hasher<F, Digest = D>>(
        &mut self,
        base: &B,
        hasher: &H,
        height: u32,
        position: Position<F>,
    ) -> Result<(), NodeError<F>>
        requires inner { HasInner F.rule F.MAX_LEAVES position height }
        requires stored { position < self.old.before + length self.old.appended }
        ensures shape { HasSameShape self.old self.new }
        ensures old { HasSameAfter self.old self.new }
        ensures settled { OnOk result (
            SettlesLevel (H.hashing hasher.now) F.rule F.MAX_LEAVES (B.contents base.now) height (position ∷ []) self.old self.new) }
        ensures missing { IfErr result (λ e. e ≢ NodeError.OutOfMemory
            → LacksForLevel (H.hashing hasher.now) F.rule F.MAX_LEAVES (B.contents base.now) height (position ∷ []) self.old e) }
    {
        let (left, right) = F::children(position, height);
        let Some(left_digest) = self.read_node(base, left) else {
            return Err(NodeError::Missing(left));
        };
        let Some(right_digest) = self.read_node(base, right) else {
            return Err(NodeError::Missing(right));
        };
        let digest = hasher.node_digest(position, &left_digest, &right_digest);
        self.set_node(position, digest)?;
        Ok(())
    }

    // Computes the nodes of height `height` at these positions.
    fn compute_level<B: Base<F, Digest = D>, H: Hasher<F, Digest = D>>(
        &mut self,
        base: &B,
        hasher: &H,
        height: u32,
        positions: &[Position<F>],
        parents: &mut Vec<Parent<F, D>>,
        digests: &mut Vec<D>,
    ) -> Result<(), NodeError<F>>
        requires inner { AreInner F.rule F.MAX_LEAVES height positions.now }
        requires stored { AreStored self.old positions.now }
        ensures shape { HasSameShape self.old self.new }
        ensures old { HasSameAfter self.old self.new }
        ensures settled { OnOk result (
            SettlesLevel (H.hashing hasher.now) F.rule F.MAX_LEAVES (B.contents base.now) height positions.now self.old self.new) }
        ensures missing { IfErr result (λ e. e ≢ NodeError.OutOfMemory
            → LacksForLevel (H.hashing hasher.now) F.rule F.MAX_LEAVES (B.contents base.now) height positions.now self.old e) }
    {
        match positions {
            [position] => self.compute_node(base, hasher, height, *position),
            _ => self.compute_chunks(base, hasher, height, positions, parents, digests),
        }
    }

    // Computes the listed nodes, height by height, and returns how many they are.
    pub(crate) fn compute_levels<B: Base<F, Digest = D>, H: Hasher<F, Digest = D>>(
        &mut self,
        base: &B,
        hasher: &H,
        levels: &Levels<F>,
    ) -> Result<u64, NodeError<F>>
        requires fits { length (from_height levels.now 0) < 2 ^ 64 }
        requires inner { (k p : ℕ) → Contains (level_at levels.now k) p → HasInner F.rule F.MAX_LEAVES p k }
        requires stored { (k p : ℕ) → Contains (level_at levels.now k) p → p < self.old.before + length self.old.appended }
        ensures shape { HasSameShape self.old self.new }
        ensures old { HasSameAfter self.old self.new }
        ensures settled { let h = H.hashing hasher.now in let under = below self.old (B.contents base.now) in
            OnOk result ((m : ℕ → Option D) (n : ℕ) (ds : List D) (a : ℕ)
            → IsReadyToCompute h F.rule F.MAX_LEAVES m under n ds self.old.before a levels.now (stored_node self.old)
            → AreSettled h F.rule m under n ds [] (stored_node self.new)) }
        ensures missing { let h = H.hashing hasher.now in let under = below self.old (B.contents base.now) in
            IfErr result (λ e. e ≢ NodeError.OutOfMemory → (m : ℕ → Option D) (n : ℕ) (ds : List D) (a : ℕ)
            → IsReadyToCompute h F.rule F.MAX_LEAVES m under n ds self.old.before a levels.now (stored_node self.old)
            → LacksChild F.rule m under n (n + length ds) e) }
        ensures work { IfOk result (λ k. k ≡ length (from_height levels.now 0)) }
    {
        let alloc = *self.appended.allocator();
        let mut parents = Vec::new(alloc);
        let mut digests = Vec::new(alloc);
        let mut count = 0;
        for height in 0..levels.count() {
            let positions = levels.at(height);
            self.compute_level(base, hasher, height, positions, &mut parents, &mut digests)?;
            count += positions.len() as u64;
        }
        Ok(count)
    }

    // Sets the digests of leaves, and returns their positions, left to right.
    fn set_leaves(
        &mut self,
        updates: &BTreeMap<Position<F>, D>,
    ) -> Result<Vec<Position<F>>, AllocError>
        requires nothing { self.old.overwritten ≡ empty }
        ensures only { OnlyOverwrites self.old self.new }
        ensures set { OnOk result (self.new.overwritten ≡ from_entries updates.now.entries) }
        ensures listed { let m = updates_of updates.now.entries in
            IfOk result (λ v. (n : ℕ) → HasLeavesOf F.rule n m → v.items ≡ flat_map (dirty_leaves m) (peaks_of F.rule n)) }
    {
        let mut positions = Vec::new(*self.appended.allocator());
        for (position, digest) in updates {
            self.overwrites.insert(*position, *digest)?;
            positions.push(*position)?;
        }
        Ok(positions)
    }

    // Computes the dirty parents of a structure with `leaves` leaves, whose updated leaves have their
    // new digests, and returns how many they are. `updated` are the positions of these, left to right.
    fn compute_dirty<B: Base<F, Digest = D>, H: Hasher<F, Digest = D>>(
        &mut self,
        base: &B,
        hasher: &H,
        leaves: Location<F>,
        updated: &[Position<F>],
    ) -> Result<u64, NodeError<F>>
        requires within { leaves ≤ F.MAX_LEAVES }
        requires sized { size F.rule leaves ≡ self.old.before }
        requires updates_are_leaves { (m : ℕ → Option D) × HasLeavesOf F.rule leaves m × ((q : ℕ) → get self.old.overwritten q ≡ m q)
            × (updated.now ≡ flat_map (dirty_leaves m) (peaks_of F.rule leaves)) }
        ensures shape { HasSameShape self.old self.new }
        ensures old { HasSameAfter self.old self.new }
        ensures settled { let h = H.hashing hasher.now in let under = below self.old (B.contents base.now) in
            OnOk result ((m : ℕ → Option D) → HasLeavesOf F.rule leaves m → ((q : ℕ) → get self.old.overwritten q ≡ m q)
            → updated.now ≡ flat_map (dirty_leaves m) (peaks_of F.rule leaves) → AreNewDigests h F.rule m under leaves [] (stored_node self.new)) }
        ensures missing { let under = below self.old (B.contents base.now) in
            IfErr result (λ e. e ≢ NodeError.OutOfMemory → (m : ℕ → Option D) → HasLeavesOf F.rule leaves m → ((q : ℕ) → get self.old.overwritten q ≡ m q)
            → updated.now ≡ flat_map (dirty_leaves m) (peaks_of F.rule leaves) → LacksChild F.rule m under leaves leaves e) }
        ensures work { IfOk result (λ k. (m : ℕ → Option D) → updated.now ≡ flat_map (dirty_leaves m) (peaks_of F.rule leaves)
            → k ≡ all_dirty_count m (peaks_of F.rule leaves)) }
    {
        let mut levels = Levels::new(*self.appended.allocator());
        Self::mark_peaks(&mut levels, leaves, updated)?;
        self.compute_levels(base, hasher, &levels)
    }

    /// Gives leaves of a structure with `leaves` leaves their new digests, by position, appends
    /// leaves with the digests `added`, and computes the nodes that follow, each once. Returns the
    /// number of parent nodes that it computed.
    ///
    /// # Errors
    ///
    /// - `Missing` if a child of a node that it computes is held neither by the kept records nor by the base
    /// - `OutOfMemory` if a memory request is refused
    ///
    /// The draft may have some of the new digests after an error.
    pub fn compute<B: Base<F, Digest = D>, H: Hasher<F, Digest = D>>(
        &mut self,
        base: &B,
        hasher: &H,
        leaves: Location<F>,
        updates: &BTreeMap<Position<F>, D>,
        added: &[D],
    ) -> Result<u64, NodeError<F>>
        requires within { leaves + length added.now ≤ F.MAX_LEAVES }
        requires sized { size F.rule leaves ≡ self.old.before }
        requires updates_are_leaves { HasLeavesOf F.rule leaves (updates_of updates.now.entries) }
        requires nothing { (self.old.overwritten ≡ empty) × (self.old.appended ≡ []) }
        ensures only { (self.new.before ≡ self.old.before) × (self.new.kept ≡ self.old.kept) }
        ensures counted { OnOk result (self.new.before + length self.new.appended ≡ size F.rule (leaves + length added.now)) }
        ensures stored { OnOk result (
            StoresChanges (H.hashing hasher.now) F.rule (B.contents base.now) leaves updates.now.entries added.now self.old self.new) }
        ensures old { OnOk result ((p : ℕ) → self.old.before ≤ p → get self.new.overwritten p ≡ None) }
        ensures missing { IfErr result (
            LacksForChanges F.rule (B.contents base.now) leaves (leaves + length added.now) updates.now.entries self.old) }
        ensures work { IfOk result (λ k.
            k ≡ length (computed_nodes F.rule (updates_of updates.now.entries) leaves (leaves + length added.now))) }
    {
        let updated = self.set_leaves(updates)?;
        let dirty = self.compute_dirty(base, hasher, leaves, &updated)?;
        let new = self.append_leaves(base, hasher, leaves, added)?;
        Ok(dirty + new)
    }
}
