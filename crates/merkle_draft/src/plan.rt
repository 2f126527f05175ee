//! Which parent nodes to compute, by height.
ghost use Rattle.std.specs.Prelude.{◌≡◌, ◌+◌, ◌-◌, ◌<◌, ◌≤◌, ℕ, suc, List, Option, Some, [], ◌∷◌, ◌++◌, length, slice_get, OnOk};
ghost use Rattle.std.specs.List.{flat_map};
ghost use Rattle.merkle_base.specs.Forest.{size};
ghost use Rattle.merkle_base.specs.Places.{peaks_of};
ghost use Rattle.merkle_base.specs.Tree.{Tree};
ghost use Rattle.merkle_draft.specs.DirtyLeaves.{are_before, dirty_leaves};
ghost use Rattle.merkle_draft.specs.DraftReads.{OnlyAppends};
ghost use Rattle.merkle_draft.specs.Levels.{from_height, AreMarked, AreAdded};
ghost use Rattle.merkle_hasher.specs.Subtrees.{Denotes};

use crate::draft::Draft;
use crate::levels::Levels;
use merkle_base::family::Family;
use merkle_base::location::Location;
use merkle_base::position::Position;
use merkle_digest::digest::Digest;
use merkle_hasher::peaks::peak_subtrees;
use merkle_hasher::subtree::Subtree;
use std::alloc::AllocError;

// Counts the positions, which ascend, that are before `end`.
pub(crate) fn count_before<F>(positions: &[Position<F>], end: Position<F>) -> usize
    ensures { result ≡ are_before positions.now end }
{
    for i in 0..positions.len() {
        if positions[i] >= end {
            return i;
        }
    }
    positions.len()
}

impl<F: Family, D: Digest> Draft<F, D> {
    // Lists the dirty parents of a subtree, children before parents and left ones before right ones.
    //
    // `updated` are the positions of the leaves below the node that have new digests, left to right.
    fn mark(
        levels: &mut Levels<F>,
        subtree: &Subtree<F>,
        updated: &[Position<F>],
    ) -> Result<(), AllocError>
        requires node { (t : Tree) × Denotes F.rule F.MAX_LEAVES subtree.now t }
        ensures { OnOk result ((t : Tree) → (m : ℕ → Option D) → Denotes F.rule F.MAX_LEAVES subtree.now t → updated.now ≡ dirty_leaves m t
            → AreMarked m (t ∷ []) levels.old levels.new) }
    {
        if updated.is_empty() {
            return Ok(());
        }
        if subtree.height == 0 {
            return Ok(());
        }
        let (left, right) = subtree.children();
        let middle = F::location_to_position(right.first_leaf);
        let (before, after) = updated.split_at(count_before(updated, middle));
        Self::mark(levels, &left, before)?;
        Self::mark(levels, &right, after)?;
        levels.add(subtree.height, subtree.position)
    }

    // Lists the dirty parents of a structure with `leaves` leaves, peak by peak.
    //
    // `updated` are the positions of its leaves that have new digests, left to right.
    pub(crate) fn mark_peaks(
        levels: &mut Levels<F>,
        leaves: Location<F>,
        updated: &[Position<F>],
    ) -> Result<(), AllocError>
        requires within { leaves ≤ F.MAX_LEAVES }
        ensures { OnOk result ((m : ℕ → Option D) → updated.now ≡ flat_map (dirty_leaves m) (peaks_of F.rule leaves)
            → AreMarked m (peaks_of F.rule leaves) levels.old levels.new) }
    {
        if updated.is_empty() {
            return Ok(());
        }
        let mut rest = updated;
        for peak in peak_subtrees(leaves) {
            let end = F::location_to_position(peak.leaf_end());
            let (under, after) = rest.split_at(count_before(rest, end));
            Self::mark(levels, &peak, under)?;
            rest = after;
        }
        Ok(())
    }

    // Appends the leaf at location `leaf`, with room for the parents that adding it creates, and
    // lists these. The leaf's digest stands in their places.
    fn add_leaf(
        &mut self,
        levels: &mut Levels<F>,
        leaf: Location<F>,
        digest: D,
    ) -> Result<(), AllocError>
        requires below { leaf < F.MAX_LEAVES }
        requires counted { self.old.before + length self.old.appended ≡ size F.rule leaf }
        ensures only { OnlyAppends self.old self.new }
        ensures counted { OnOk result (self.new.before + length self.new.appended ≡ size F.rule (suc leaf)) }
        ensures placed { OnOk result ((more : List D) × (self.new.appended ≡ self.old.appended ++ digest ∷ more)) }
        ensures listed { OnOk result (AreAdded F.rule F.MAX_LEAVES (size F.rule leaf) (size F.rule (suc leaf)) levels.old levels.new) }
        ensures total { OnOk result (length (from_height levels.new 0) + suc (length self.old.appended)
            ≡ length (from_height levels.old 0) + length self.new.appended) }
    {
        self.push(digest)?;
        for height in F::parent_heights(leaf) {
            levels.add(height, self.size())?;
            self.push(digest)?;
        }
        Ok(())
    }

    // Appends the leaves `added` to a structure with `leaves` leaves, with room for the parents
    // that adding them creates, and lists these. Any digest stands in their places.
    pub(crate) fn add_leaves(
        &mut self,
        levels: &mut Levels<F>,
        leaves: Location<F>,
        added: &[D],
    ) -> Result<(), AllocError>
        requires within { leaves + length added.now ≤ F.MAX_LEAVES }
        requires counted { self.old.before + length self.old.appended ≡ size F.rule leaves }
        ensures only { OnlyAppends self.old self.new }
        ensures counted { OnOk result (self.new.before + length self.new.appended ≡ size F.rule (leaves + length added.now)) }
        ensures kept { OnOk result ((more : List D) × (self.new.appended ≡ self.old.appended ++ more)) }
        ensures leaves { OnOk result ((i : ℕ) (d : D) → slice_get added.now i ≡ Some d
            → slice_get self.new.appended (size F.rule (leaves + i) - self.old.before) ≡ Some d) }
        ensures listed { OnOk result (
            AreAdded F.rule F.MAX_LEAVES (size F.rule leaves) (size F.rule (leaves + length added.now)) levels.old levels.new) }
        ensures total { OnOk result (length (from_height levels.new 0) + length added.now + length self.old.appended
            ≡ length (from_height levels.old 0) + length self.new.appended) }
    {
        let mut leaf = leaves;
        for digest in added {
            self.add_leaf(levels, leaf, *digest)?;
            leaf += 1;
        }
        Ok(())
    }
}
