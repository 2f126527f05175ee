//! Merkle structures in memory.
ghost use Rattle.std.specs.Prelude.{◌≡◌, ◌≢◌, ◌+◌, ◌<◌, ◌≤◌, ◌&&◌, List, [], Err, None, Ok, is_some, map, nat_lt, take, true, length, OnErr, OnOk, IfOk, IfErr, IsOkUnless};
ghost use Rattle.std.specs.FinMap.{get};
ghost use Rattle.merkle_base.specs.Places.{peaks_of, placed};
ghost use Rattle.merkle_base.specs.Forest.{size};
ghost use Rattle.merkle_base.specs.Shows.{Shows};
ghost use Rattle.merkle_forest_theory.specs.FewPeaks.{FewPeaks};
ghost use Rattle.merkle_batch_theory.specs.MemModel.{contents, no_leaves};
ghost use Rattle.merkle_base.specs.Hashing.{Hashing};
ghost use Rattle.merkle_batch_theory.specs.Applying.{IsApplied};
ghost use Rattle.merkle_batch_theory.specs.Contents.{Agrees, held_peaks, is_kept};
ghost use Rattle.merkle_batch_theory.specs.Unmerkleized.{forked};
ghost use Rattle.merkle_batch_theory.specs.Roots.{root_batch};
ghost use Rattle.merkle_batch_theory.specs.Replay.{applied, apply_error, match_of};
ghost use Rattle.merkle_proof.specs.ProofRefusals.{RefusesLeaf, RefusesRange};
ghost use Rattle.merkle_root_theory.specs.Range.{IsHonestRange};
ghost use Rattle.merkle_proof.specs.RangePlans.{IsBuildRefusal, IsBuiltProof, list_input, IsBuiltLeaf, IsBuiltRange, IsProvedLeaf, IsProvedRange};
ghost use Rattle.merkle_batch_theory.specs.ForLists.{ForList, ForHeldLeaf, ForHeldRange, BeginsAt, IsPeaksRoot, IsListRoot, IsPeaksRefusal};

pub use crate::components::Config;
pub use crate::config_codec::ConfigLimits;
use crate::find::{find_state, refusal};
use merkle_base::error::Error;
use merkle_base::family::Family;
use merkle_base::location::Location;
use merkle_base::position::Position;
use merkle_batch::batch::{MerkleizedBatch, UnmerkleizedBatch};
pub use merkle_batch::leaf_digests::LeafDigests;
use merkle_digest::digest::Digest;
use merkle_draft::base::Base;
use merkle_draft::held_nodes::HeldNodes;
use merkle_draft::record::Record;
use merkle_draft::replay::{apply_record, apply_records};
use merkle_hasher::hasher::Hasher;
use merkle_hasher::read::Readable;
use merkle_proof::proof::Proof;
use merkle_proof::range_plan::RangePlan;
use std::alloc::{AllocError, Global};
use std::marker::Model;
use std::ops::Range;

/// The greatest number of peaks of a structure, in every family.
const MAX_PEAKS: usize = 64;

// Returns the first `count` digests.
fn front<D>(digests: &[D; MAX_PEAKS], count: usize) -> &[D]
    requires { count ≤ MAX_PEAKS }
    ensures { result.now ≡ take count digests.now }
{
    &digests[..count]
}

/// A Merkle structure in memory, changed by batches.
///
/// It holds the nodes from the position of its pruning boundary on, and pins the peaks of the
/// leaves before it. Contracts model it as its pruning boundary, its leaf count, its size in nodes
/// and the nodes that it holds.
///
/// # Examples
///
/// ```
/// let hasher = Standard::<Sha256Plain>::new(Bagging::ForwardFold);
/// let mut log: Mmr<Sha256Digest> = Mem::new(alloc);
///
/// let Ok(mut batch) = log.new_batch() else {
///     return None;
/// };
/// for element in [b"a", b"b", b"c"] {
///     let Ok(longer) = batch.add(&hasher, element) else {
///         return None;
///     };
///     batch = longer;
/// }
/// let Ok(batch) = batch.merkleize(&log, &hasher) else {
///     return None;
/// };
/// let Ok(()) = log.apply_batch(&batch) else {
///     return None;
/// };
///
/// // Three leaves have four nodes; the peaks are at the positions 2 and 3.
/// assert!(rt; log.leaves() == Location::new(3) && log.size() == Position::new(4));
/// let Ok(root) = log.root(&hasher, 0) else {
///     return None;
/// };
/// let Ok(proof) = log.proof(&hasher, Location::new(1), 0) else {
///     return None;
/// };
/// let checked = proof.verify_element_inclusion(&hasher, b"b", Location::new(1), &root);
/// assert!(rt; matches!(&checked, Ok(true)));
/// ```
#[derive(Debug)]
pub struct Mem<F: Family, D: Digest> {
    // all nodes from the boundary's position on, and the peaks of `boundary` leaves
    pub(crate) held: HeldNodes<F, D>,
    pub(crate) boundary: Location<F>,
    pub(crate) leaves: Location<F>,
}

// Written out, it is proved once; derived, it would be proved again in each crate that drops structures.
impl<F: Family, D: Digest> Drop for Mem<F, D> {
    fn drop(self) {
        let Mem {
            held: _,
            boundary: _,
            leaves: _,
        } = self;
    }
}

impl<F: Family, D: Digest> Model for Mem<F, D> {
    ghost use Rattle.merkle_batch_theory.specs.MemModel.{MemModel, mem_model_code};

    ghost Value = { MemModel D };

    ghost coded = { mem_model_code D.code };

    ghost use Rattle.merkle_batch_theory.specs.MemValid.{IsMemValid};

    ghost view = { λ m. record { boundary = m.boundary; leaves = m.leaves; size = m.held.size; stored = m.held.stored } };

    ghost invariant = { λ m. IsMemValid F.rule F.MAX_LEAVES m.boundary m.leaves m.held };
}

impl<F: Family, D: Digest> Mem<F, D> {
    /// Creates the structure without leaves. No memory is requested.
    pub fn new(alloc: Global) -> Self
        ensures empty { result ≡ no_leaves }
        ensures agrees { (h : Hashing D) → Agrees h F.rule (contents result) [] }
    {
        Mem {
            held: HeldNodes::new(alloc),
            boundary: Location::new(0),
            leaves: Location::new(0),
        }
    }

    /// Returns the size in nodes, including pruned ones.
    pub fn size(&self) -> Position<F>
        ensures { result ≡ self.now.size }
    {
        self.held.size()
    }

    /// Returns the leaf count, including pruned leaves.
    pub fn leaves(&self) -> Location<F>
        ensures count { result ≡ self.now.leaves }
        ensures sized { size F.rule result ≡ self.now.size }
        ensures bounded { result ≤ F.MAX_LEAVES }
    {
        self.leaves
    }

    /// Returns the location that the structure was pruned to; the leaves before it were dropped.
    pub fn pruning_boundary(&self) -> Location<F>
        ensures boundary { result ≡ self.now.boundary }
        ensures within { result ≤ self.now.leaves }
    {
        self.boundary
    }

    /// Returns the digest of the node at `position`, or `None` if it is not held.
    ///
    /// Exactly the nodes from the boundary's position on are held, and the peaks of the leaves
    /// before the boundary.
    pub fn get_node(&self, position: Position<F>) -> Option<D>
        ensures node { result ≡ get self.now.stored position }
        ensures held { is_some result ≡ nat_lt position self.now.size && is_kept F.rule self.now.boundary position }
    {
        self.held.get(position)
    }

    /// Returns the locations of the leaves that are held: from the pruning boundary to the leaf
    /// count.
    pub fn bounds(&self) -> Range<Location<F>>
        ensures start { result.start ≡ self.now.boundary }
        ensures end { result.end ≡ self.now.leaves }
        ensures ordered { result.start ≤ result.end }
        ensures sized { size F.rule result.end ≡ self.now.size }
        ensures bounded { result.end ≤ F.MAX_LEAVES }
    {
        self.boundary..self.leaves
    }

    /// Iterates over the peaks, as pairs of position and height, from the oldest on.
    pub fn peak_iterator(&self) -> F::Peaks
        ensures { F.Peaks.left result ≡ map placed (peaks_of F.rule self.now.leaves) }
    {
        let nodes = self.held.size();
        F::peaks(nodes)
    }

    // Returns the allocator of the structure.
    pub(crate) fn allocator(&self) -> Global {
        self.held.allocator()
    }

    /// Returns a deep copy.
    ///
    /// # Errors
    ///
    /// - `AllocError` if a memory request is refused
    pub fn clone(&self) -> Result<Self, AllocError>
        ensures { IfOk result (λ m. m ≡ self.now) }
    {
        Ok(Mem {
            held: self.held.clone()?,
            boundary: self.boundary,
            leaves: self.leaves,
        })
    }

    // Writes the digests of the peaks, oldest first, and returns how many there are.
    fn write_peaks(&self, digests: &mut [D; MAX_PEAKS]) -> usize
        ensures at_most_max_peaks { result ≤ MAX_PEAKS }
        ensures held { take result digests.new ≡ held_peaks F.rule self.now.leaves (contents self.now) }
        ensures many { length (held_peaks F.rule self.now.leaves (contents self.now)) ≡ length (peaks_of F.rule self.now.leaves) }
    {
        let mut count = 0;
        for (position, _) in F::peaks(self.held.size()) {
            if let Some(digest) = self.get_node(position) {
                digests[count] = digest;
                count += 1;
            }
        }
        count
    }

    /// Returns the root with `inactive` inactive peaks, which are the oldest ones.
    ///
    /// # Errors
    ///
    /// - `InvalidInactivePeaks` if `inactive` exceeds the number of peaks
    pub fn root<H: Hasher<F, Digest = D>>(&self, hasher: &H, inactive: usize) -> Result<D, Error<F>>
        ensures ok { let n = self.now.leaves in IsPeaksRoot (H.scheme hasher.now) F.rule n inactive (held_peaks F.rule n (contents self.now)) result }
        ensures err { let count = length (peaks_of F.rule self.now.leaves) in count < inactive → result ≡ Err (Error.InvalidInactivePeaks inactive count) }

        // It is the root of every list that the structure agrees with.
        ensures listed { ForList (H.hashing hasher.now) F.rule (contents self.now) (IsListRoot (H.scheme hasher.now) F.rule inactive result) }
        ensures too_many { ForList (H.hashing hasher.now) F.rule (contents self.now) (IsPeaksRefusal F.rule inactive result) }
    {
        let mut digests = [D::EMPTY; MAX_PEAKS];
        let count = self.write_peaks(&mut digests);
        hasher.root(self.leaves(), inactive, front(&digests, count))
    }

    // Builds the proof of a plan from the nodes that are held.
    fn build_proof<H: Hasher<F, Digest = D>>(
        &self,
        plan: RangePlan<F>,
        hasher: &H,
        inactive: usize,
    ) -> Result<Proof<F, D>, Error<F>>
        ensures built { let s = H.scheme hasher.now in
            IfOk result (λ p. IsBuiltProof s (get self.now.stored) inactive plan p) }
        ensures honest { let s = H.scheme hasher.now in
            (X : List D) → length X ≡ plan.leaves → Agrees (H.hashing hasher.now) F.rule (contents self.now) X
            → IfOk result (λ p. IsHonestRange s X inactive (list_input p X plan.start plan.end)) }
        ensures err { let bagging = H.bagging_of hasher.now in
            IfErr result (λ e. e ≢ Error.OutOfMemory → IsBuildRefusal bagging F.rule plan inactive (λ p r. r ≡ get self.now.stored p) e) }
    {
        plan.build(hasher, inactive, |position| self.get_node(position))
    }

    /// Generates the proof of the leaf at `location`, with `inactive` inactive peaks.
    ///
    /// # Errors
    ///
    /// The first that applies:
    /// - `LocationOverflow` of the location if it is not below [`MAX_LEAVES`](Family::MAX_LEAVES)
    /// - `LeafOutOfBounds` of the location if there is no such leaf
    /// - `InvalidProof` if `inactive` exceeds the number of peaks
    /// - `ElementPruned` of the first node that is not held; the nodes are read in this order: the
    ///   peaks before the leaf, the individual peaks after it, the folded peaks after it from the
    ///   last one on, and the path siblings
    ///
    /// `OutOfMemory` at any point if a memory request is refused. Nothing is changed.
    pub fn proof<H: Hasher<F, Digest = D>>(
        &self,
        hasher: &H,
        location: Location<F>,
        inactive: usize,
    ) -> Result<Proof<F, D>, Error<F>>
        ensures built { let s = H.scheme hasher.now in IfOk result (IsBuiltLeaf s (get self.now.stored) inactive self.now.leaves location) }

        // It is the honest proof of every list that the structure agrees with.
        ensures honest { let s = H.scheme hasher.now in ForList (H.hashing hasher.now) F.rule (contents self.now) (IsProvedLeaf s inactive location result) }
        ensures granted { (h : Hashing D) → ForHeldLeaf h F.rule (contents self.now) inactive location (IsOkUnless result Error.OutOfMemory) }
        ensures at_most_122 { FewPeaks F.rule F.MAX_LEAVES → IfOk result (λ p. length p.digests.items ≤ 122) }
        ensures err { IfErr result (RefusesLeaf (H.bagging_of hasher.now) F.rule F.MAX_LEAVES self.now.leaves location inactive (get self.now.stored)) }
    {
        let leaves = self.leaves();
        if !location.is_valid_index() {
            return Err(Error::LocationOverflow(location));
        }
        if location >= leaves {
            return Err(Error::LeafOutOfBounds(location));
        }
        let alloc = self.allocator();
        match RangePlan::new(alloc, leaves, location..location + 1) {
            Ok(plan) => self.build_proof(plan, hasher, inactive),
            Err(error) => Err(error),
        }
    }

    /// Generates the proof of the leaves in `range`, with `inactive` inactive peaks.
    ///
    /// # Errors
    ///
    /// The first that applies:
    /// - `Empty` if the range has no leaves
    /// - `RangeOutOfBounds` of the end of the range if it exceeds the leaf count
    /// - `InvalidProof` if `inactive` exceeds the number of peaks
    /// - `ElementPruned` of the first node that is not held; the nodes are read in this order: the
    ///   peaks before the range, the individual peaks after it, the folded peaks after it from the
    ///   last one on, and the path siblings
    ///
    /// `OutOfMemory` at any point if a memory request is refused. Nothing is changed.
    pub fn range_proof<H: Hasher<F, Digest = D>>(
        &self,
        hasher: &H,
        range: Range<Location<F>>,
        inactive: usize,
    ) -> Result<Proof<F, D>, Error<F>>
        ensures built { let s = H.scheme hasher.now in IfOk result (IsBuiltRange s (get self.now.stored) inactive self.now.leaves range.start range.end) }

        // It is the honest proof of every list that the structure agrees with.
        ensures honest { ForList (H.hashing hasher.now) F.rule (contents self.now) (IsProvedRange (H.scheme hasher.now) inactive range.start range.end result) }
        ensures granted { (h : Hashing D) → ForHeldRange h F.rule (contents self.now) inactive range.start range.end (IsOkUnless result Error.OutOfMemory) }
        ensures err { IfErr result (
            RefusesRange (H.bagging_of hasher.now) F.rule F.MAX_LEAVES self.now.leaves range.start range.end inactive (get self.now.stored)) }
    {
        let leaves = self.leaves();
        match RangePlan::new(self.allocator(), leaves, range) {
            Ok(plan) => self.build_proof(plan, hasher, inactive),
            Err(error) => Err(error),
        }
    }

    /// Creates a batch without changes, forked from this structure.
    ///
    /// # Errors
    ///
    /// - `OutOfMemory` if a memory request is refused
    pub fn new_batch(&self) -> Result<UnmerkleizedBatch<F, D>, Error<F>>
        ensures forked { IfOk result (λ b. b ≡ forked (root_batch F.rule self.now.leaves (contents self.now))) }
        ensures of_list { IfOk result (λ b. BeginsAt F.rule (contents self.now) b.parent) }
        ensures refused { IsOkUnless result Error.OutOfMemory }
    {
        match MerkleizedBatch::from_mem(self) {
            Ok(parent) => Ok(UnmerkleizedBatch::new(parent)),
            Err(error) => Err(error),
        }
    }

    /// Applies the records of a batch that follow the state that this structure is at.
    ///
    /// The batch is accepted if the size and the peak digests of the structure are those before the
    /// oldest record that the batch keeps (its own if it keeps no ancestors), or those after one of
    /// its kept ancestors. The state before the oldest record is tried first, then those after the
    /// ancestors from the newest on. The records that follow the matching state are applied in
    /// order, the oldest first: each overwrites nodes and appends nodes. A new digest of a node
    /// that is not held is dropped.
    ///
    /// # Errors
    ///
    /// The first that applies:
    /// - `AncestorDropped` if the structure is at none of these states, and its size is at least
    ///   that of the structure that the chain of batches was forked from and less than that before
    ///   the oldest kept record
    /// - `StaleBatch` if the structure is at none of these states otherwise
    /// - `OutOfMemory` if a memory request is refused
    ///
    /// On error the structure is unchanged.
    pub fn apply_batch(&mut self, batch: &MerkleizedBatch<F, D>) -> Result<(), Error<F>>
        ensures unchanged { OnErr result (self.new ≡ self.old) }
        ensures done { OnOk result (applied {F = F} D.eq F.rule self.old.leaves batch.now (contents self.old) ≡ Ok (contents self.new)) }
        ensures counted { OnOk result (self.new.leaves ≡ batch.now.leaves) }
        ensures accepted { is_some (match_of D.eq F.rule self.old batch.now) ≡ true → IsOkUnless result Error.OutOfMemory }
        ensures refused { match_of D.eq F.rule self.old batch.now ≡ None → result ≡ Err (apply_error self.old.size batch.now) }

        // If the structure agreed with a list and some lists are a history of the batch, then it
        // was accepted at one of these: if that is the structure's own list, the structure now
        // agrees with the last of them; if it is a different list, the two collide at a node.
        ensures on_lists { OnOk result (IsApplied D.eq F.rule batch.now (contents self.old) (contents self.new)) }
    {
        let own: &Record<F, D> = &batch.own;
        let mut digests = [D::EMPTY; MAX_PEAKS];
        let count = self.write_peaks(&mut digests);
        let Some(first) = find_state(self.size(), front(&digests, count), batch) else {
            return Err(refusal(self.size(), batch));
        };
        let added = batch.size() - self.size();
        self.held.reserve(added.as_u64() as usize)?;
        apply_records(&mut self.held, &batch.ancestors[first..]);
        apply_record(&mut self.held, own);
        self.leaves = batch.leaves;
        Ok(())
    }
}

impl<F: Family, D: Digest> Readable for Mem<F, D> {
    type Family = F;

    type Digest = D;

    ghost size = { λ m. m.size };

    ghost node = { λ m. get m.stored };

    fn size(&self) -> Position<F>
        ensures count { result ≡ self.now.size }

        // It shows every list that it agrees with.
        ensures shows { (h : Hashing D) → (X : List D) → Agrees h F.rule (contents self.now) X → Shows h F.rule self.now.size (get self.now.stored) X }
    {
        Mem::size(self)
    }

    fn get_node(&self, position: Position<F>) -> Option<D>
        ensures { result ≡ get self.now.stored position }
    {
        Mem::get_node(self, position)
    }
}

impl<F: Family, D: Digest> Base<F> for Mem<F, D> {
    type Digest = D;

    ghost contents = { contents };

    ghost leaves = { λ m. m.leaves };

    fn size(&self) -> Position<F> {
        Readable::size(self)
    }

    fn leaves(&self) -> Location<F> {
        Mem::leaves(self)
    }

    fn pruning_boundary(&self) -> Location<F> {
        Mem::pruning_boundary(self)
    }

    fn get_node(&self, position: Position<F>) -> Option<D>
        ensures { result ≡ get self.now.stored position }
    {
        Readable::get_node(self, position)
    }

    fn peak_digests(&self) -> Result<Vec<D>, AllocError>
        ensures held { IfOk result (λ v. v.items ≡ held_peaks F.rule self.now.leaves (contents self.now)) }
        ensures many { IfOk result (λ v. length v.items ≡ length (peaks_of F.rule self.now.leaves)) }
    {
        let mut digests = [D::EMPTY; MAX_PEAKS];
        let count = self.write_peaks(&mut digests);
        front(&digests, count).to_vec(self.allocator())
    }
}
