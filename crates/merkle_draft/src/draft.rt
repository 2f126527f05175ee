//! A batch being merkleized: the nodes that follow from its leaves.
ghost use Rattle.std.specs.Prelude.{◌≡◌, ◌≢◌, ◌+◌, ◌^◌, ◌++◌, ◌<◌, ◌≤◌, Option, [], ◌∷◌, None, is_some, true, cond, length, map, IfOk, IfErr, IfNone, IfSome, OnOk};
ghost use Rattle.std.specs.FinMap.{empty, get};
ghost use Rattle.merkle_base.specs.Forest.{size};
ghost use Rattle.merkle_base.specs.Places.{peak_positions};
ghost use Rattle.merkle_draft.specs.DraftReads.{below, old_node, ForTruth, OnlyAppends, IsMissingPeak, ArePeaksRead};
ghost use Rattle.merkle_draft.specs.Settled.{draft_node};
ghost use Rattle.merkle_batch_theory.specs.Unmerkleized.{is_changed};
ghost use Rattle.merkle_batch_theory.specs.Records.{after};

use crate::base::Base;
use crate::node_error::NodeError;
use crate::overwrites::Overwrites;
use crate::record::{Record, newest_node};
use merkle_base::family::Family;
use merkle_base::location::Location;
use merkle_base::position::Position;
use merkle_digest::digest::Digest;
use std::alloc::{AllocError, Global};
use std::marker::Model;
use std::rc::Rc;

/// Initial capacity for the peaks of a structure; more peaks are rare.
const PEAKS_ROOM: usize = 16;

/// A batch being merkleized.
#[derive(Drop)]
pub struct Draft<F: Family, D: Digest> {
    /// The size in nodes before the batch.
    pub size_before: Position<F>,
    /// The records that the batch keeps, oldest first.
    pub kept: Vec<Rc<Record<F, D>>>,
    /// The new digests of dirty nodes before `size_before`.
    pub overwrites: Overwrites<F, D>,
    /// The digests of the nodes from `size_before` on.
    pub appended: Vec<D>,
}

impl<F: Family, D: Digest> Model for Draft<F, D> {
    ghost use Rattle.std.specs.Prelude.{◌+◌, ◌<◌, ◌^◌, length, map};
    ghost use Rattle.merkle_draft.specs.DraftReads.{DraftModel, drafted_code};

    ghost Value = { DraftModel D };

    ghost coded = { drafted_code D.code };

    ghost view = { λ d. record { before = d.size_before; kept = map (λ r. r.value) d.kept.items; overwritten = d.overwrites; appended = d.appended.items } };
}

impl<F: Family, D: Digest> Draft<F, D> {
    /// Creates the draft of a batch without changes, with capacity for the nodes of `leaves`
    /// leaves.
    ///
    /// It keeps the records of `ancestors`, and after them that of `parent` unless it has no
    /// changes. Requires `leaves` to be at most [`MAX_LEAVES`](Family::MAX_LEAVES).
    ///
    /// # Errors
    ///
    /// - `AllocError` if a memory request is refused
    pub fn new(
        alloc: Global,
        ancestors: &[Rc<Record<F, D>>],
        parent: &Rc<Record<F, D>>,
        leaves: Location<F>,
    ) -> Result<Self, AllocError>
        requires { leaves ≤ F.MAX_LEAVES }
        ensures size { IfOk result (λ d. d.before ≡ after parent.now.value) }
        ensures kept { IfOk result (λ d. d.kept ≡ map (λ r. r.value) ancestors.now ++ cond (is_changed parent.now.value) (parent.now.value ∷ []) []) }
        ensures nothing { IfOk result (λ d. (d.overwritten ≡ empty) × (d.appended ≡ [])) }
    {
        let mut kept = Vec::new(alloc);
        for record in ancestors {
            kept.push(record.clone()?)?;
        }
        if !parent.is_empty() {
            kept.push(parent.clone()?)?;
        }
        let size_before = parent.size();
        let end = F::location_to_position(leaves);
        let room = end.as_u64().saturating_sub(size_before.as_u64());
        Ok(Draft {
            size_before,
            kept,
            overwrites: Overwrites::new(alloc),
            appended: Vec::with_capacity(alloc, room as usize)?,
        })
    }

    /// Returns the digest of the node at `position` before the batch: from the newest kept record
    /// that has it, or else from the base.
    pub fn read_below<B: Base<F, Digest = D>>(&self, base: &B, position: Position<F>) -> Option<D>
        ensures { result ≡ below self.now (B.contents base.now) position }
    {
        match newest_node(&self.kept, position) {
            Some(digest) => Some(digest),
            None => base.get_node(position),
        }
    }

    // Returns the digest of the node at `position`: an appended one, or for older nodes the
    // overwritten one, or else the one before the batch.
    pub(crate) fn read_node<B: Base<F, Digest = D>>(
        &self,
        base: &B,
        position: Position<F>,
    ) -> Option<D>
        ensures value { result ≡ draft_node self.now (B.contents base.now) position }
        ensures right { IfSome result (λ d. ForTruth self.now (B.contents base.now) (λ truth. d ≡ truth position)) }
        ensures read { IfSome result (λ _. position < self.now.before → is_some (old_node self.now (B.contents base.now) position) ≡ true) }
        ensures missing { IfNone result ((position < self.now.before → old_node self.now (B.contents base.now) position ≡ None)
            × (self.now.before ≤ position → self.now.before + length self.now.appended ≤ position)) }
    {
        if position < self.size_before {
            match self.overwrites.get(position) {
                Some(digest) => Some(digest),
                None => self.read_below(base, position),
            }
        } else {
            self.appended
                .get((position - self.size_before).as_u64() as usize)
                .copied()
        }
    }

    // Returns the size in nodes, with the appended ones.
    pub(crate) fn size(&self) -> Position<F>
        requires { self.now.before + length self.now.appended < 2 ^ 64 }
        ensures { result ≡ self.now.before + length self.now.appended }
    {
        self.size_before + self.appended.len() as u64
    }

    // Appends a node.
    pub(crate) fn push(&mut self, digest: D) -> Result<(), AllocError>
        ensures only { OnlyAppends self.old self.new }
        ensures pushed { OnOk result (self.new.appended ≡ self.old.appended ++ digest ∷ []) }
    {
        self.appended.push(digest)?;
        Ok(())
    }

    /// Returns the digests of the peaks after the batch, oldest first. `leaves` is the leaf count
    /// after it.
    ///
    /// # Errors
    ///
    /// - `Missing` if a peak is held neither by the draft nor by the base
    /// - `OutOfMemory` if a memory request is refused
    pub fn read_peaks<B: Base<F, Digest = D>>(
        &self,
        base: &B,
        leaves: Location<F>,
    ) -> Result<Vec<D>, NodeError<F>>
        requires within { leaves ≤ F.MAX_LEAVES }
        requires sized { self.now.before + length self.now.appended ≡ size F.rule leaves }
        ensures missing { IfErr result (λ e. e ≢ NodeError.OutOfMemory
            → IsMissingPeak F.rule leaves self.now.before (old_node self.now (B.contents base.now)) e) }
        ensures read { IfOk result (λ _. ArePeaksRead F.rule leaves self.now.before (old_node self.now (B.contents base.now))) }
        ensures right { IfOk result (λ v. ForTruth self.now (B.contents base.now) (λ truth. v.items ≡ map truth (peak_positions F.rule leaves))) }
    {
        let mut digests = Vec::with_capacity(*self.appended.allocator(), PEAKS_ROOM)?;
        for (position, _) in F::peaks(F::location_to_position(leaves)) {
            let Some(digest) = self.read_node(base, position) else {
                return Err(NodeError::Missing(position));
            };
            digests.push(digest)?;
        }
        Ok(digests)
    }
}
