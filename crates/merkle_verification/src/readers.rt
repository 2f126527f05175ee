//! Proofs over any reader of nodes.
ghost use Rattle.std.specs.Prelude.{◌≡◌, ◌≢◌, ◌<◌, ◌≤◌, ℕ, List, Some, length, map, take, IfOk, IfErr};
ghost use Rattle.std.specs.List.Sorted.{IsStrictlyIncreasing};
ghost use Rattle.merkle_base.specs.Forest.{size};
ghost use Rattle.merkle_base.specs.Places.{peaks_of};
ghost use Rattle.merkle_base.specs.Scheme.{Scheme};
ghost use Rattle.merkle_base.specs.Shows.{Shows};
ghost use Rattle.merkle_root_theory.specs.Range.{IsHonestRange};
ghost use Rattle.merkle_base.specs.Table.{digest_for};
ghost use Rattle.merkle_scattered.specs.Positions.{range_positions};
ghost use Rattle.merkle_proof.specs.RangePlans.{AnswersList, IsBuildRefusal, IsBuiltProof, IsFirstMissing, list_input, IsBuiltFor};
ghost use Rattle.merkle_verification.specs.ReaderProofs.{IsBuiltMulti};
ghost use Rattle.merkle_verification.specs.ReaderRefusals.{IsHistoricalRefusal, IsLocationsRefusal, RefusesMulti};
ghost use Rattle.merkle_verification.specs.ReaderRefusals.{IsReadRefusal, IsReaderRefusal, IsSizeRefusal};
ghost use Rattle.merkle_verification.specs.ShownLists.{IsHonestFor, IsHonestPast, IsHonestMultiFor, GrantsHistorical, GrantsRange, GrantsLocations};
ghost use Rattle.merkle_base.specs.Refused.{UnlessMemory};

use merkle_base::error::Error;
use merkle_base::family::Family;
use merkle_base::location::Location;
use merkle_base::position::Position;
use merkle_hasher::hasher::Hasher;
use merkle_hasher::read::Readable;
use merkle_proof::proof::{Proof, multi_proof_positions};
use merkle_proof::range_plan::RangePlan;
use merkle_scattered::supplied::SuppliedDigests;
use std::alloc::Global;
use std::ops::Range;

/// Generates the proof of the leaves in `range`, from the nodes of a reader, with `inactive`
/// inactive peaks.
///
/// If the reader shows a list, this is the honest proof of the range of that list. The size that
/// the reader returns need not be true: no loop and no memory request grows with it, only with the
/// number of positions that the proof reads.
///
/// # Errors
///
/// The first that applies:
/// - `PositionOverflow` of the size of the reader if it exceeds [`MAX_NODES`](Family::MAX_NODES)
/// - `NonLeaf` of the size if no leaf count has that many nodes
/// - `Empty` if the range has no leaves
/// - `RangeOutOfBounds` of the end of the range if it exceeds the leaf count
/// - `InvalidProof` if `inactive` exceeds the number of peaks
/// - `ElementPruned` of the least position that the proof reads and the reader has no node for
///
/// `OutOfMemory` at any point if a memory request is refused.
pub fn range_proof<R: Readable, H: Hasher<R::Family, Digest = R::Digest>>(
    alloc: Global,
    hasher: &H,
    reader: &R,
    range: Range<Location<R::Family>>,
    inactive: usize,
) -> Result<Proof<R::Family, R::Digest>, Error<R::Family>>
    ensures sized { IfOk result (λ p. size R.Family.rule p.leaves ≡ R.size reader.now) }
    ensures within { IfOk result (λ p. (range.start < range.end) × (range.end ≤ p.leaves) × (p.leaves ≤ R.Family.MAX_LEAVES)) }
    ensures built { let s = H.scheme hasher.now in IfOk result (λ p. IsBuiltFor s (R.node reader.now) inactive p.leaves range.start range.end p) }

    // It is the honest proof of every list that the reader shows.
    ensures honest { IsHonestFor (H.hashing hasher.now) (H.scheme hasher.now) R.Family.rule
        (R.size reader.now) (R.node reader.now) inactive range.start range.end result }
    ensures held { GrantsRange R.Family.rule R.Family.MAX_LEAVES
        (R.size reader.now) (R.node reader.now) range.start range.end inactive result }
    ensures err { IfErr result (UnlessMemory (IsReaderRefusal R.Family.rule R.Family.MAX_NODES R.Family.MAX_LEAVES
        (R.size reader.now) range.start range.end inactive (R.node reader.now))) }
{
    match leaf_count(reader.size()) {
        Ok(leaves) => historical_range_proof(alloc, hasher, reader, leaves, range, inactive),
        Err(error) => Err(error),
    }
}

/// Generates the proof of the leaves in `range` as of an older state with `leaves` leaves, from the
/// nodes of a reader that may have more, with `inactive` inactive peaks.
///
/// If the reader shows a list, this is the honest proof of the range of the list of its first
/// `leaves` leaves.
///
/// # Errors
///
/// The first that applies:
/// - `Empty` if the range has no leaves
/// - `RangeOutOfBounds` of the end of the range if it exceeds `leaves`
/// - `LocationOverflow` of `leaves` if it exceeds [`MAX_LEAVES`](Family::MAX_LEAVES)
/// - `InvalidProof` if `inactive` exceeds the number of peaks
/// - `ElementPruned` of the least position that the proof reads and the reader has no node for
///
/// `OutOfMemory` at any point if a memory request is refused.
pub fn historical_range_proof<R: Readable, H: Hasher<R::Family, Digest = R::Digest>>(
    alloc: Global,
    hasher: &H,
    reader: &R,
    leaves: Location<R::Family>,
    range: Range<Location<R::Family>>,
    inactive: usize,
) -> Result<Proof<R::Family, R::Digest>, Error<R::Family>>
    ensures within { IfOk result (λ _. (range.start < range.end) × (range.end ≤ leaves) × (leaves ≤ R.Family.MAX_LEAVES)) }
    ensures built { let s = H.scheme hasher.now in IfOk result (λ p. IsBuiltFor s (R.node reader.now) inactive leaves range.start range.end p) }

    // It is the honest proof of the first leaves of every list that the reader shows.
    ensures honest { IsHonestPast (H.hashing hasher.now) (H.scheme hasher.now) R.Family.rule
        (R.size reader.now) (R.node reader.now) leaves inactive range.start range.end result }
    ensures held { GrantsHistorical R.Family.rule R.Family.MAX_LEAVES (R.node reader.now) leaves range.start range.end inactive result }
    ensures err { IfErr result (UnlessMemory (IsHistoricalRefusal R.Family.rule R.Family.MAX_LEAVES leaves range.start range.end inactive
        (R.node reader.now))) }
{
    match RangePlan::new(alloc, leaves, range) {
        Ok(plan) => prove_plan(alloc, hasher, reader, plan, inactive),
        Err(error) => Err(error),
    }
}

// Generates the proof of a plan from the nodes of a reader.
fn prove_plan<R: Readable, H: Hasher<R::Family, Digest = R::Digest>>(
    alloc: Global,
    hasher: &H,
    reader: &R,
    plan: RangePlan<R::Family>,
    inactive: usize,
) -> Result<Proof<R::Family, R::Digest>, Error<R::Family>>
    requires within_max_leaves { plan.leaves ≤ R.Family.MAX_LEAVES }
    ensures built { let s = H.scheme hasher.now in IfOk result (λ p. IsBuiltProof s (R.node reader.now) inactive plan p) }
    ensures honest { let s = H.scheme hasher.now in
        (X : List R.Digest) → Shows (H.hashing hasher.now) R.Family.rule (R.size reader.now) (R.node reader.now) X → plan.leaves ≤ length X
        → IfOk result (λ p. IsHonestRange s (take plan.leaves X) inactive (list_input p (take plan.leaves X) plan.start plan.end)) }
    ensures err { let rule = R.Family.rule in
        IfErr result (λ e. e ≢ Error.OutOfMemory
        → IsReadRefusal rule plan.leaves inactive (R.node reader.now) (range_positions rule plan.leaves plan.start plan.end) e) }
{
    if inactive > peak_count(plan.leaves()) {
        return Err(Error::InvalidProof);
    }
    let positions = match plan.positions() {
        Ok(read) => read,
        Err(error) => return Err(error),
    };
    match read_nodes(alloc, reader, &positions) {
        Ok(digests) => build_proof(plan, hasher, inactive, &positions, &digests),
        Err(error) => Err(error),
    }
}

/// Generates the proof of the leaves at `locations`, from the nodes of a reader, with `inactive`
/// inactive peaks.
///
/// The proof has the digests of the nodes at [`multi_proof_positions`], in that order. If the
/// reader shows a list, this is the honest proof of these leaves of the list. The size that the
/// reader returns need not be true: no loop and no memory request grows with it, only with the
/// number of positions that the proof reads.
///
/// # Errors
///
/// The first that applies:
/// - `PositionOverflow` of the size of the reader if it exceeds [`MAX_NODES`](Family::MAX_NODES)
/// - `NonLeaf` of the size if no leaf count has that many nodes
/// - the error of [`multi_proof_positions`] for that leaf count and the locations
/// - `InvalidProof` if `inactive` exceeds the number of peaks
/// - `ElementPruned` of the least position that the proof reads and the reader has no node for
///
/// `OutOfMemory` at any point if a memory request is refused.
pub fn multi_proof<R: Readable>(
    alloc: Global,
    reader: &R,
    inactive: usize,
    locations: &[Location<R::Family>],
) -> Result<Proof<R::Family, R::Digest>, Error<R::Family>>
    ensures sized { IfOk result (λ p. size R.Family.rule p.leaves ≡ R.size reader.now) }
    ensures built { IfOk result (λ p. IsBuiltMulti R.Family.rule R.Family.MAX_LEAVES (R.node reader.now) inactive p.leaves locations.now p) }

    // It is the honest proof of every list that the reader shows.
    ensures honest { (s : Scheme R.Digest) → s.rule ≡ R.Family.rule
        → IsHonestMultiFor s (R.size reader.now) (R.node reader.now) inactive locations.now result }
    ensures held { GrantsLocations R.Family.rule R.Family.MAX_LEAVES
        (R.size reader.now) (R.node reader.now) locations.now inactive result }
    ensures err { IfErr result (RefusesMulti R.Family.rule R.Family.MAX_NODES R.Family.MAX_LEAVES
        (R.size reader.now) inactive locations.now (R.node reader.now)) }
{
    match leaf_count(reader.size()) {
        Ok(leaves) => prove_locations(alloc, reader, leaves, inactive, locations),
        Err(error) => Err(error),
    }
}

// Generates the proof of the leaves at `locations` of a list of `leaves` leaves, from the nodes of
// a reader.
fn prove_locations<R: Readable>(
    alloc: Global,
    reader: &R,
    leaves: Location<R::Family>,
    inactive: usize,
    locations: &[Location<R::Family>],
) -> Result<Proof<R::Family, R::Digest>, Error<R::Family>>
    ensures built { IfOk result (λ p. IsBuiltMulti R.Family.rule R.Family.MAX_LEAVES (R.node reader.now) inactive leaves locations.now p) }
    ensures err { IfErr result (λ e. e ≢ Error.OutOfMemory
        → IsLocationsRefusal R.Family.rule R.Family.MAX_LEAVES leaves inactive locations.now (R.node reader.now) e) }
{
    let positions = match multi_proof_positions(alloc, leaves, locations) {
        Ok(positions) => positions,
        Err(error) => return Err(error),
    };
    if inactive > peak_count(leaves) {
        return Err(Error::InvalidProof);
    }
    match read_nodes(alloc, reader, &positions) {
        Ok(digests) => Ok(Proof {
            leaves,
            inactive_peaks: inactive,
            digests,
        }),
        Err(error) => Err(error),
    }
}

// Returns the leaf count of a structure with `nodes` nodes.
fn leaf_count<F: Family>(nodes: Position<F>) -> Result<Location<F>, Error<F>>
    ensures ok { IfOk result (λ n. (size F.rule n ≡ nodes) × (nodes ≤ F.MAX_NODES)) }
    ensures err { IfErr result (λ e. IsSizeRefusal F.rule F.MAX_NODES nodes e) }
{
    if !nodes.is_valid() {
        return Err(Error::PositionOverflow(nodes));
    }
    match F::position_to_location(nodes) {
        Some(leaves) => Ok(leaves),
        None => Err(Error::NonLeaf(nodes)),
    }
}

// Returns the number of peaks of `leaves` leaves.
pub(crate) fn peak_count<F: Family>(leaves: Location<F>) -> usize
    requires { leaves ≤ F.MAX_LEAVES }
    ensures { result ≡ length (peaks_of F.rule leaves) }
{
    F::inactive_peaks(leaves, leaves)
}

// Returns the digests of the nodes at the positions, reading each once, in order.
fn read_nodes<R: Readable>(
    alloc: Global,
    reader: &R,
    positions: &[Position<R::Family>],
) -> Result<Vec<R::Digest>, Error<R::Family>>
    ensures ok { IfOk result (λ v. map Some v.items ≡ map (R.node reader.now) positions.now) }
    ensures err { IfErr result (λ e. e ≢ Error.OutOfMemory → (p : ℕ) × (e ≡ Error.ElementPruned p)
        × IsFirstMissing (λ q o. o ≡ R.node reader.now q) positions.now p) }
{
    let mut digests = Vec::with_capacity(alloc, positions.len())?;
    for position in positions {
        match reader.get_node(*position) {
            Some(digest) => digests.push(digest)?,
            None => return Err(Error::ElementPruned(*position)),
        }
    }
    Ok(digests)
}

// Builds the proof of a plan from digests that are listed by position.
fn build_proof<F: Family, H: Hasher<F>>(
    plan: RangePlan<F>,
    hasher: &H,
    inactive: usize,
    positions: &[Position<F>],
    digests: &[H::Digest],
) -> Result<Proof<F, H::Digest>, Error<F>>
    requires { IsStrictlyIncreasing positions.now }
    ensures built { let s = H.scheme hasher.now in IfOk result (λ p. IsBuiltProof s (digest_for positions.now digests.now) inactive plan p) }
    ensures honest { let s = H.scheme hasher.now in let node = digest_for positions.now digests.now in
        (xs : List H.Digest) → length xs ≡ plan.leaves → AnswersList (H.hashing hasher.now) F.rule xs (λ p r. r ≡ node p)
        → IfOk result (λ p. IsHonestRange s xs inactive (list_input p xs plan.start plan.end)) }
    ensures err { let bagging = H.bagging_of hasher.now in let node = digest_for positions.now digests.now in
        IfErr result (λ e. e ≢ Error.OutOfMemory → IsBuildRefusal bagging F.rule plan inactive (λ p r. r ≡ node p) e) }
{
    let told = SuppliedDigests { positions, digests };
    plan.build(
        hasher,
        inactive,
        move |position|
            requires { IsStrictlyIncreasing told.positions.now }
        { told.get(position) },
    )
}
