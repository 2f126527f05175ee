//! The digests of a proof, read from pairs by the positions of their nodes.
ghost use Rattle.std.specs.Prelude.{◌≡◌, ◌≢◌, ◌+◌, ◌++◌, ◌-◌, ◌≤◌, None, true, drop, length};
ghost use Rattle.std.specs.Prelude.{min, reverse, take, slice_get, IfOk, IfErr};
ghost use Rattle.std.specs.Option.{option_to_list};
ghost use Rattle.merkle_base.specs.Hashing.{Hashing};
ghost use Rattle.merkle_base.specs.Places.{peak_positions};
ghost use Rattle.merkle_base.specs.Root.{right_fold, folded};
ghost use Rattle.merkle_base.specs.declared.family.Bagging.TheVariants.{ForwardFold};
ghost use Rattle.merkle_store_theory.specs.StoreProof.{found_at, ends_with, first_lacking};
ghost use Rattle.merkle_verification.specs.PairReads.{IsPrunedAt, read_all};
ghost use Rattle.merkle_verification.specs.StoreParts.{FitReads, IsOtherSuffix};

use crate::pair_table::PairTable;
use merkle_base::error::Error;
use merkle_base::family::Family;
use merkle_base::location::Location;
use merkle_base::position::Position;
use merkle_digest::digest::Digest;
use merkle_hasher::hasher::Hasher;
use merkle_proof::range_plan::RangeCounts;
use std::alloc::AllocError;

/// The positions that a plan reads, by the parts that they have in a proof.
#[derive(Clone, Copy, Debug)]
pub(crate) struct Parts<'a, F> {
    /// The peaks before the range that are folded to one digest.
    pub(crate) prefix: &'a [Position<F>],
    /// The peaks before the range that have a digest of their own.
    pub(crate) before: &'a [Position<F>],
    /// The peaks after the range that have a digest of their own.
    pub(crate) after: &'a [Position<F>],
    /// The peaks after the range that are folded to one digest.
    pub(crate) suffix: &'a [Position<F>],
    /// The path siblings.
    pub(crate) siblings: &'a [Position<F>],
}

impl<'a, F> Parts<'a, F> {
    /// Splits the positions by the counts of the parts.
    pub(crate) fn new(counts: RangeCounts, reads: &'a [Position<F>]) -> Self
        requires { FitReads counts reads.now }
        ensures prefix { result.prefix.now ≡ take counts.folded reads.now }
        ensures before { result.before.now ≡ drop counts.folded (take counts.before reads.now) }
        ensures after { result.after.now ≡ take counts.single (drop counts.before reads.now) }
        ensures suffix { result.suffix.now ≡ drop counts.single (take counts.after (drop counts.before reads.now)) }
        ensures siblings { result.siblings.now ≡ drop (counts.before + counts.after) reads.now }
    {
        let (before, others) = reads.split_at(counts.before);
        let (prefix, before) = before.split_at(counts.folded);
        let (after, siblings) = others.split_at(counts.after);
        let (after, suffix) = after.split_at(counts.single);
        Parts {
            prefix,
            before,
            after,
            suffix,
            siblings,
        }
    }
}

/// Appends the digests at the positions.
pub(crate) fn read_each<F: Family, D: Digest>(
    pairs: &PairTable<F, D>,
    positions: &[Position<F>],
    out: &mut Vec<D>,
) -> Result<(), Error<F>>
    ensures held { IfOk result (λ _. first_lacking (found_at pairs.now) positions.now ≡ None) }
    ensures read { IfOk result (λ _. (h : Hashing D) → out.new.items ≡ out.old.items ++ read_all h pairs.now positions.now) }
    ensures err { IfErr result (λ e. e ≢ Error.OutOfMemory → IsPrunedAt (first_lacking (found_at pairs.now) positions.now) e) }
{
    for position in positions {
        let Some(digest) = pairs.get(*position) else {
            return Err(Error::ElementPruned(*position));
        };
        out.push(digest)?;
    }
    Ok(())
}

/// Appends a digest, if there is one.
pub(crate) fn push_some<D: Digest>(digest: Option<D>, out: &mut Vec<D>) -> Result<(), AllocError>
    ensures { IfOk result (λ _. out.new.items ≡ out.old.items ++ option_to_list digest) }
{
    if let Some(digest) = digest {
        out.push(digest)?;
    }
    Ok(())
}

/// Folds the digests at the positions left to right onto `first`; without `first`, onto the digest
/// at the first position. `None` if there are neither.
pub(crate) fn fold_onto<F: Family, H: Hasher<F>>(
    hasher: &H,
    pairs: &PairTable<F, H::Digest>,
    first: Option<H::Digest>,
    positions: &[Position<F>],
) -> Result<Option<H::Digest>, Error<F>>
    ensures held { IfOk result (λ _. first_lacking (found_at pairs.now) positions.now ≡ None) }
    ensures read { let h = H.hashing hasher.now in
        IfOk result (λ o. o ≡ folded h.fold ForwardFold 0 (option_to_list first ++ read_all h pairs.now positions.now)) }
    ensures err { IfErr result (λ e. IsPrunedAt (first_lacking (found_at pairs.now) positions.now) e) }
{
    let mut folded = first;
    for position in positions {
        let Some(digest) = pairs.get(*position) else {
            return Err(Error::ElementPruned(*position));
        };
        folded = match folded {
            Some(acc) => Some(hasher.fold(&acc, &digest)),
            None => Some(digest),
        };
    }
    Ok(folded)
}

/// Folds the digests at the positions right to left, beginning with `last`; without `last`, with
/// the digest at the last position. `None` if there are neither. They are read from the last
/// position on.
pub(crate) fn bag_onto<F: Family, H: Hasher<F>>(
    hasher: &H,
    pairs: &PairTable<F, H::Digest>,
    last: Option<H::Digest>,
    positions: &[Position<F>],
) -> Result<Option<H::Digest>, Error<F>>
    ensures held { IfOk result (λ _. first_lacking (found_at pairs.now) (reverse positions.now) ≡ None) }
    ensures read { let h = H.hashing hasher.now in
        IfOk result (λ o. o ≡ right_fold h.fold (read_all h pairs.now positions.now ++ option_to_list last)) }
    ensures err { IfErr result (λ e. IsPrunedAt (first_lacking (found_at pairs.now) (reverse positions.now)) e) }
{
    let mut bagged = last;
    let mut index = positions.len();
    while index > 0 {
        index -= 1;
        let position = positions[index];
        let Some(digest) = pairs.get(position) else {
            return Err(Error::ElementPruned(position));
        };
        bagged = match bagged {
            Some(others) => Some(hasher.fold(&digest, &others)),
            None => Some(digest),
        };
    }
    Ok(bagged)
}

/// Returns the peaks of a suffix before those of the store's own suffix, with which it must end.
pub(crate) fn suffix_front<'a, F: Family>(
    positions: &'a [Position<F>],
    own: &[Position<F>],
) -> Result<&'a [Position<F>], Error<F>>
    ensures front { IfOk result (λ front. front.now ≡ take (length positions.now - length own.now) positions.now) }
    ensures ends { IfOk result (λ _. ends_with positions.now own.now ≡ true) }
    ensures err { IfErr result (λ e. IsOtherSuffix positions.now own.now e) }
{
    let Some((first, _)) = own.split_first() else {
        return Ok(positions);
    };
    if !positions.ends_with(own) {
        return Err(Error::ElementPruned(*first));
    }
    Ok(&positions[..positions.len() - own.len()])
}

/// Returns the position of the peak with index `number` of `leaves` leaves, the oldest being 0.
pub(crate) fn peak_at<F: Family>(leaves: Location<F>, number: usize) -> Option<Position<F>>
    requires { leaves ≤ F.MAX_LEAVES }
    ensures { result ≡ slice_get (peak_positions F.rule leaves) number }
{
    let mut left = number;
    for position in F::nodes_to_pin(leaves) {
        if left == 0 {
            return Some(position);
        }
        left -= 1;
    }
    None
}

/// Returns the digest at `index`, to which `peaks` peaks are folded; `None` if `peaks` is 0.
pub(crate) fn folded_digest<D: Digest>(digests: &[D], index: usize, peaks: usize) -> Option<D>
    ensures { result ≡ slice_get (take (min peaks 1) (drop index digests.now)) 0 }
{
    if peaks == 0 {
        return None;
    }
    digests.get(index).copied()
}
