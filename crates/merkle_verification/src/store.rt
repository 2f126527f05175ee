//! Stores of accepted range proofs, which prove parts of the proved range.
ghost use Rattle.std.specs.Prelude.{◌≡◌, ◌≢◌, ◌+◌, ◌≤◌, ◌<◌, ℕ, Ok, None, drop, IfOk, IfErr, IsOkUnless};
ghost use Rattle.std.specs.Option.{option_to_list};
ghost use Rattle.merkle_base.specs.Scheme.{Scheme};
ghost use Rattle.merkle_root_theory.specs.Check.{RangeInput};
ghost use Rattle.merkle_root_theory.specs.Range.{AcceptsNonempty};
ghost use Rattle.merkle_hasher.specs.LeafDigests.{bytes_of};
ghost use Rattle.merkle_store_theory.specs.StoreProof.{found_at, first_lacking};
ghost use Rattle.merkle_store_theory.specs.StoreReads.{prefix_at, suffix_at, suffix_refusal_at, proof_at};
ghost use Rattle.merkle_store_theory.specs.StoreValue.{store_of};
ghost use Rattle.merkle_proof.specs.Input.{digest_input_of, input_of};
ghost use Rattle.merkle_verification.specs.PairReads.{IsPrunedAt};
ghost use Rattle.merkle_verification.specs.StoreCalls.{IsPartProof, IsStoreRefusal, RefusesStore, ForStored, ForNonemptyPart, AcceptsPart, IsPartChecked};
ghost use Rattle.merkle_verification.specs.StoreMulti.{IsMultiAnswered, IsStoreMultiRefusal};
ghost use Rattle.merkle_verification.specs.StoreParts.{FitReads, IsFoldedCount, IsInput, counts_with, parts_refusal, shorter_refusal};

use crate::multi_reads::read_known;
use crate::pair_table::PairTable;
use crate::store_reads::{
    Parts, bag_onto, fold_onto, folded_digest, peak_at, push_some, read_each, suffix_front,
};
use merkle_base::error::Error;
use merkle_base::family::{Bagging, Family};
use merkle_base::location::Location;
use merkle_base::position::Position;
use merkle_digest::digest::Digest;
use merkle_hasher::hasher::Hasher;
use merkle_proof::proof::{Proof, multi_proof_positions};
use merkle_proof::range_plan::{RangeCounts, RangePlan};
use std::marker::Model;
use std::ops::Range;

/// What a light client keeps of an accepted range proof, to prove every part of the range itself.
///
/// Contracts model it as the leaf count, the number of inactive peaks and the bagging of the proof,
/// its root and range, the pairs of positions and digests that its check computed or was given, the
/// positions of the peaks that are folded in its suffix, and the digests of its folded prefix and
/// suffix.
///
/// # Examples
///
/// ```
/// // `proof` proves the elements 01 and 02 at the locations 0 and 1 against `root`.
/// let elements: [&[u8]; 2] = [&[1], &[2]];
/// let Ok(store) = ProofStore::new(&hasher, &proof, &elements, Location::new(0), &root) else {
///     return None;
/// };
/// // The second of them alone is now proved without the structure.
/// let Ok(part) = store.range_proof(&hasher, Location::new(1)..Location::new(2)) else {
///     return None;
/// };
/// let checked = part.verify_element_inclusion(&hasher, &[2], Location::new(1), &root);
/// assert!(rt; matches!(&checked, Ok(true)));
/// ```
#[derive(Debug)]
pub struct ProofStore<F: Family, D: Digest> {
    leaves: Location<F>,
    inactive_peaks: usize,
    bagging: Bagging,
    root: D,
    range: Range<Location<F>>,
    pairs: PairTable<F, D>,
    suffix_peaks: Vec<Position<F>>,
    prefix: Option<D>,
    suffix: Option<D>,
    // the number of peaks that are folded in the prefix of the proof
    held: usize,
}

// Written out, it is proved once; derived, it would be proved again in each crate that drops stores.
impl<F: Family, D: Digest> Drop for ProofStore<F, D> {
    fn drop(self) {
        let ProofStore {
            leaves: _,
            inactive_peaks: _,
            bagging: _,
            root: _,
            range: _,
            pairs: _,
            suffix_peaks: _,
            prefix: _,
            suffix: _,
            held: _,
        } = self;
    }
}

impl<F: Family, D: Digest> Model for ProofStore<F, D> {
    ghost use Rattle.std.specs.Prelude.{◌≤◌};
    ghost use Rattle.merkle_store_theory.specs.StoreValue.{StoreValue};
    ghost use Rattle.merkle_store_theory.specs.StoreCode.{store_value_code};
    ghost use Rattle.merkle_verification.specs.StoreParts.{IsFoldedCount};

    ghost Value = { StoreValue D };

    ghost coded = { store_value_code D.code };

    ghost view = { λ v. record {
      leaves = v.leaves;
      inactive = v.inactive_peaks;
      bagging = v.bagging;
      root = v.root;
      start = v.range.start;
      end = v.range.end;
      pairs = v.pairs;
      suffix_peaks = v.suffix_peaks.items;
      prefix = v.prefix;
      suffix = v.suffix;
    } };

    ghost invariant = { λ v. IsFoldedCount F.rule v.bagging v.leaves v.inactive_peaks v.range.start v.held × (v.leaves ≤ F.MAX_LEAVES) };
}

impl<F: Family, D: Digest> ProofStore<F, D> {
    /// Checks the proof of the elements from location `start` on against `root`, and keeps what it
    /// proves.
    ///
    /// # Errors
    ///
    /// The first that applies:
    /// - `InvalidProof` if [`reconstruct_root`](Proof::reconstruct_root) returns an error
    /// - `RootMismatch` if the computed root differs from `root`
    /// - `Empty` if there are no elements
    ///
    /// `OutOfMemory` at any point if a memory request is refused.
    pub fn new<H: Hasher<F, Digest = D>>(
        hasher: &H,
        proof: &Proof<F, D>,
        elements: &[&[u8]],
        start: Location<F>,
        root: &D,
    ) -> Result<Self, Error<F>>
        ensures ok { let s = H.scheme hasher.now in
            IfOk result (λ v. v ≡ store_of s (input_of s proof.now start (bytes_of elements.now)) root.now) }
        ensures accepted { let s = H.scheme hasher.now in
            IfOk result (λ _. AcceptsNonempty s (input_of s proof.now start (bytes_of elements.now)) root.now) }
        ensures err { let s = H.scheme hasher.now in IfErr result (RefusesStore s (input_of s proof.now start (bytes_of elements.now)) root.now elements.now) }
    {
        let pairs = match proof.verify_range_inclusion_and_extract_digests(
            hasher, elements, start, root,
        ) {
            Ok(pairs) => pairs,
            Err(error) => return Err(error),
        };
        if elements.is_empty() {
            return Err(Error::Empty);
        }
        let end = start + elements.len() as u64;
        Self::keep(hasher.root_bagging(), proof, start..end, root, pairs)
    }

    /// Checks the proof of the leaves with these digests, which are those from location `start` on,
    /// against `root`, and keeps what it proves.
    ///
    /// This is [`new`](ProofStore::new) for those who have the digests of leaves in place of the
    /// elements: each is to be what [`leaf_digest`](Hasher::leaf_digest) gives for the leaf's
    /// position and its element, so that the caller vouches for what was hashed.
    ///
    /// # Errors
    ///
    /// The first that applies:
    /// - `InvalidProof` if [`reconstruct_root`](Proof::reconstruct_root) returns an error for
    ///   elements with these digests
    /// - `RootMismatch` if the computed root differs from `root`
    /// - `Empty` if there are no leaves
    ///
    /// `OutOfMemory` at any point if a memory request is refused.
    pub fn from_leaf_digests<H: Hasher<F, Digest = D>>(
        hasher: &H,
        proof: &Proof<F, D>,
        digests: &[D],
        start: Location<F>,
        root: &D,
    ) -> Result<Self, Error<F>>
        ensures ok { let s = H.scheme hasher.now in
            IfOk result (λ v. v ≡ store_of s (digest_input_of proof.now start digests.now) root.now) }
        ensures accepted { let s = H.scheme hasher.now in
            IfOk result (λ _. AcceptsNonempty s (digest_input_of proof.now start digests.now) root.now) }
        ensures err { let s = H.scheme hasher.now in IfErr result (RefusesStore s (digest_input_of proof.now start digests.now) root.now digests.now) }
    {
        let pairs = match proof.verify_leaf_digests_inclusion_and_extract_digests(
            hasher, digests, start, root,
        ) {
            Ok(pairs) => pairs,
            Err(error) => return Err(error),
        };
        if digests.is_empty() {
            return Err(Error::Empty);
        }
        let end = start + digests.len() as u64;
        Self::keep(hasher.root_bagging(), proof, start..end, root, pairs)
    }

    // Creates the store of an accepted proof of at least one element, with the pairs that its check
    // returned.
    fn keep(
        bagging: Bagging,
        proof: &Proof<F, D>,
        range: Range<Location<F>>,
        root: &D,
        pairs: Vec<(Position<F>, D)>,
    ) -> Result<Self, Error<F>>
        requires nonempty { range.start < range.end }
        requires within { range.end ≤ proof.now.leaves }
        requires within_max_leaves { proof.now.leaves ≤ F.MAX_LEAVES }
        ensures ok { IfOk result (λ v. (s : Scheme D) (r : RangeInput D)
            → IsInput s r F.rule bagging proof.now.leaves proof.now.inactive_peaks proof.now.digests.items range.start range.end pairs.items
            → v ≡ store_of s r root.now) }
        ensures only_memory { IsOkUnless result Error.OutOfMemory }
    {
        let alloc = *proof.digests.allocator();
        let start = range.start;
        let end = range.end;
        let plan = match RangePlan::new(alloc, proof.leaves, range) {
            Ok(plan) => plan,
            Err(error) => return Err(error),
        };
        let counts = plan.counts(bagging, proof.inactive_peaks);
        let parts = Parts::new(counts, plan.reads());
        let alone = counts.folded.min(1) + parts.before.len() + parts.after.len();
        let pairs = PairTable::new(pairs)?;
        let suffix_peaks = parts.suffix.to_vec(alloc)?;
        Ok(ProofStore {
            leaves: proof.leaves,
            inactive_peaks: proof.inactive_peaks,
            bagging,
            root: *root,
            range: start..end,
            pairs,
            suffix_peaks,
            prefix: folded_digest(&proof.digests, 0, counts.folded),
            suffix: folded_digest(&proof.digests, alone, parts.suffix.len()),
            held: counts.folded,
        })
    }

    /// Returns the positions of the peaks that are folded in the suffix of the proof, oldest first.
    pub fn suffix_peak_positions(&self) -> &[Position<F>]
        ensures { result.now ≡ self.now.suffix_peaks }
    {
        &self.suffix_peaks
    }

    /// Returns the digest of the node at `position`, if the check of the proof computed it or was
    /// given it. A digest to which several peaks are folded is that of no node.
    pub fn get_node(&self, position: Position<F>) -> Option<D>
        ensures { result ≡ found_at self.now.pairs position }
    {
        self.pairs.get(position)
    }

    // Returns the digest of the folded prefix of a proof over the peaks at `positions`, of which
    // the first `held` are folded in the store's own prefix.
    fn prefix_digest<H: Hasher<F, Digest = D>>(
        &self,
        hasher: &H,
        held: usize,
        positions: &[Position<F>],
    ) -> Result<Option<D>, Error<F>>
        ensures held { IfOk result (λ _. first_lacking (found_at self.now.pairs) (drop held positions.now) ≡ None) }
        ensures read { IfOk result (λ o. option_to_list o ≡ prefix_at (H.hashing hasher.now) self.now held positions.now) }
        ensures err { IfErr result (λ e. IsPrunedAt (first_lacking (found_at self.now.pairs) (drop held positions.now)) e) }
    {
        if positions.is_empty() {
            return Ok(None);
        }
        let further = &positions[held.min(positions.len())..];
        fold_onto(hasher, &self.pairs, self.prefix, further)
    }

    // Returns the digest of the folded suffix of a proof over the peaks at `positions`.
    fn suffix_digest<H: Hasher<F, Digest = D>>(
        &self,
        hasher: &H,
        positions: &[Position<F>],
    ) -> Result<Option<D>, Error<F>>
        ensures held { IfOk result (λ _. suffix_refusal_at self.now positions.now ≡ None) }
        ensures read { IfOk result (λ o. option_to_list o ≡ suffix_at (H.hashing hasher.now) self.now positions.now) }
        ensures err { IfErr result (λ e. IsPrunedAt (suffix_refusal_at self.now positions.now) e) }
    {
        if positions.is_empty() {
            return Ok(None);
        }
        match suffix_front(positions, &self.suffix_peaks) {
            Ok(front) => bag_onto(hasher, &self.pairs, self.suffix, front),
            Err(error) => Err(error),
        }
    }

    // Returns the digests of a proof that reads the nodes at `reads`, which have these parts in it.
    fn digests<H: Hasher<F, Digest = D>>(
        &self,
        hasher: &H,
        counts: RangeCounts,
        held: usize,
        reads: &[Position<F>],
    ) -> Result<Vec<D>, Error<F>>
        requires { FitReads counts reads.now }
        ensures held { IfOk result (λ _. parts_refusal self.now (counts_with counts held) reads.now ≡ None) }
        ensures read { IfOk result (λ v. v.items ≡ proof_at (H.hashing hasher.now) self.now (counts_with counts held) reads.now) }
        ensures err { IfErr result (λ e. e ≢ Error.OutOfMemory → IsPrunedAt (parts_refusal self.now (counts_with counts held) reads.now) e) }
    {
        let parts = Parts::new(counts, reads);
        let prefix = match self.prefix_digest(hasher, held, parts.prefix) {
            Ok(prefix) => prefix,
            Err(error) => return Err(error),
        };
        let mut digests = Vec::with_capacity(self.pairs.allocator(), reads.len())?;
        push_some(prefix, &mut digests)?;
        if let Err(error) = read_each(&self.pairs, parts.before, &mut digests) {
            return Err(error);
        }
        if let Err(error) = read_each(&self.pairs, parts.after, &mut digests) {
            return Err(error);
        }
        let suffix = match self.suffix_digest(hasher, parts.suffix) {
            Ok(suffix) => suffix,
            Err(error) => return Err(error),
        };
        push_some(suffix, &mut digests)?;
        if let Err(error) = read_each(&self.pairs, parts.siblings, &mut digests) {
            return Err(error);
        }
        Ok(digests)
    }

    // Returns the position to report if the folded prefix of a proof has fewer peaks than the
    // store's own, and at least one.
    fn lacking_prefix(&self, counts: RangeCounts) -> Option<Position<F>>
        ensures { (held : ℕ) → IsFoldedCount F.rule self.now.bagging self.now.leaves self.now.inactive self.now.start held
            → result ≡ shorter_refusal F.rule self.now.leaves (counts_with counts held) }
    {
        if 0 < counts.folded && counts.folded < self.held {
            peak_at(self.leaves, counts.before)
        } else {
            None
        }
    }

    // Generates the proof of a range of leaves from what the store has.
    fn answer<H: Hasher<F, Digest = D>>(
        &self,
        hasher: &H,
        range: Range<Location<F>>,
    ) -> Result<Proof<F, D>, Error<F>>
        ensures ok { IfOk result (λ p. IsPartProof (H.scheme hasher.now) self.now range.start range.end p) }
        ensures err { IfErr result (λ e. e ≢ Error.OutOfMemory → IsStoreRefusal (H.scheme hasher.now) self.now range.start range.end e) }
    {
        let plan = match RangePlan::new(self.pairs.allocator(), self.leaves, range) {
            Ok(plan) => plan,
            Err(error) => return Err(error),
        };
        let counts = plan.counts(self.bagging, self.inactive_peaks);
        if let Some(position) = self.lacking_prefix(counts) {
            return Err(Error::ElementPruned(position));
        }
        match self.digests(hasher, counts, self.held, plan.reads()) {
            Ok(digests) => Ok(Proof {
                leaves: self.leaves,
                inactive_peaks: self.inactive_peaks,
                digests,
            }),
            Err(error) => Err(error),
        }
    }

    /// Generates the proof of the leaves in `range` from what the store has.
    ///
    /// Every part of the store's own range is proved, and the check accepts the proof against the
    /// store's root. Other ranges are proved too if the store has all that the proof reads.
    ///
    /// # Errors
    ///
    /// The first that applies:
    /// - `Empty` if the range has no leaves
    /// - `RangeOutOfBounds` of the end of the range if it exceeds the leaf count
    /// - `ElementPruned` of a node that the store does not have, or of a peak whose digest it has
    ///   only folded with those of other peaks
    ///
    /// `OutOfMemory` at any point if a memory request is refused.
    pub fn range_proof<H: Hasher<F, Digest = D>>(
        &self,
        hasher: &H,
        range: Range<Location<F>>,
    ) -> Result<Proof<F, D>, Error<F>>
        ensures ok { IfOk result (λ p. IsPartProof (H.scheme hasher.now) self.now range.start range.end p) }
        ensures err { IfErr result (λ e. e ≢ Error.OutOfMemory → IsStoreRefusal (H.scheme hasher.now) self.now range.start range.end e) }

        // The store of an accepted proof proves each part of its range, unless memory is refused.
        ensures unrefused { ForStored (H.scheme hasher.now) self.now (λ r root.
            ForNonemptyPart r range.start range.end (IfErr result (λ e. e ≡ Error.OutOfMemory))) }

        // And the check accepts what it returns.
        ensures accepted { let s = H.scheme hasher.now in ForStored s self.now (λ r root. AcceptsPart s r root range.start range.end result) }

        // In the words of the check: if it accepts a proof with some elements, it also accepts what the store of that proof returns,
        // with those of the elements that are in the range.
        ensures checked { IsPartChecked (H.scheme hasher.now) self.now range.start range.end result }
    {
        self.answer(hasher, range)
    }

    /// Generates the proof of the leaves at `locations` from what the store has and from `peaks`,
    /// the digests of peaks that the caller supplies.
    ///
    /// If `peaks` has several digests for a position, the last one is used. They are not checked: a
    /// proof with a wrong one is not accepted.
    ///
    /// # Errors
    ///
    /// Those of [`multi_proof_positions`], and then, for the first node whose digest neither the
    /// store nor `peaks` has:
    /// - `CompressedDigest` of its position if it is one of the peaks that are folded in the suffix
    ///   of the store's proof
    /// - `ElementPruned` of its position otherwise
    ///
    /// `OutOfMemory` at any point if a memory request is refused.
    pub fn multi_proof(
        &self,
        locations: &[Location<F>],
        peaks: &[(Position<F>, D)],
    ) -> Result<Proof<F, D>, Error<F>>
        ensures ok { IfOk result (λ p. IsMultiAnswered F.rule F.MAX_LEAVES self.now locations.now peaks.now p) }
        ensures err { IfErr result (λ e. e ≢ Error.OutOfMemory → IsStoreMultiRefusal F.rule F.MAX_LEAVES self.now locations.now peaks.now e) }
    {
        let positions = match multi_proof_positions(
            self.pairs.allocator(),
            self.leaves,
            locations,
        ) {
            Ok(positions) => positions,
            Err(error) => return Err(error),
        };
        match read_known(&self.pairs, peaks, &self.suffix_peaks, &positions) {
            Ok(digests) => Ok(Proof {
                leaves: self.leaves,
                inactive_peaks: self.inactive_peaks,
                digests,
            }),
            Err(error) => Err(error),
        }
    }
}
