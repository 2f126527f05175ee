//! What is hashed above the peaks: the folds and the byte string of the root.
ghost use Rattle.std.specs.Prelude.{◌≡◌, ◌≢◌, ◌<◌, ◌+◌, ◌++◌, ◌∷◌, [], ◌^◌, Some, IfOk, OnOk, map, length, fold, option_map, max};
ghost use Rattle.merkle_base.specs.Hashing.{Hashing, IsOver};
ghost use Rattle.merkle_base.specs.Root.{folded, root_string};
ghost use Rattle.merkle_base.specs.declared.family.Bagging.TheVariants.{BackwardFold};
ghost use Rattle.merkle_audit_theory.specs.Differences.{is_difference, difference_for, first_difference};
ghost use Rattle.merkle_audit_theory.specs.Folds.{left_inputs, right_value, right_inputs, numbered_inputs};
ghost use Rattle.merkle_root_theory.specs.Expression.{Pair};
ghost use Rattle.merkle_walks.specs.Places.{place_of};
ghost use Rattle.merkle_walks.specs.Hashed.{fold_at, located, roots_apart, HasRootString, HasFolds, FindsFold};

use crate::collision::Collision;
use crate::place::{Argument, Place};
use merkle_base::error::OutOfMemory;
use merkle_base::family::{Bagging, Family};
use merkle_base::location::Location;
use merkle_digest::digest::Digest;
use merkle_hasher::hasher::{Hasher, root_string};
use std::alloc::{AllocError, Global};

/// Two digests that are folded.
#[derive_where(Clone, Copy; D)]
pub struct Fold<F, D> {
    pub place: Place<F>,
    pub left: D,
    pub right: D,
}

impl<F, D> Fold<F, D> {
    // Two digests that are folded at a place.
    fn new(place: Place<F>, left: D, right: D) -> Self
        ensures { fold_at result ≡ record { place = place_of place; argument = Pair left right } }
    {
        Fold { place, left, right }
    }
}

/// The byte string of a root, and the folds, in order.
#[derive(Drop)]
pub struct Top<F, D: Digest> {
    pub root: Vec<u8>,
    pub folds: Vec<Fold<F, D>>,
}

/// Where the peaks are: of what root, and how many of them the first digest stands for.
#[derive_where(Clone, Copy)]
pub struct Shape<F> {
    pub leaves: Location<F>,
    pub inactive: usize,
    /// How many of the digests are folded left to right, if the bagging is backward.
    pub apart: usize,
    /// How many peaks the first digest stands for.
    pub number: usize,
}

// Folds digests onto `start`, left to right, and appends the folds, the last first; the first of the
// digests has this number.
fn fold_left<F: Family, H: Hasher<F>>(
    hasher: &H,
    start: H::Digest,
    number: usize,
    digests: &[H::Digest],
    folds: &mut Vec<Fold<F, H::Digest>>,
) -> Result<H::Digest, AllocError>
    requires { number + length digests.now < 2 ^ 64 }
    ensures digest { IfOk result (λ d. d ≡ fold (H.hashing hasher.now).fold start digests.now) }
    ensures hashed { let h = H.hashing hasher.now in
        OnOk result (map fold_at folds.new.items ≡ map fold_at folds.old.items ++ left_inputs h start number digests.now) }
{
    let Some((next, others)) = digests.split_first() else {
        return Ok(start);
    };
    let digest = hasher.fold(&start, next);
    let all = fold_left(hasher, digest, number + 1, others, folds)?;
    folds.push(Fold::new(Place::PrefixFold(number), start, *next))?;
    Ok(all)
}

// Folds a digest and others, right to left, and appends the folds, the last first; the digest has
// this number.
fn fold_right<F: Family, H: Hasher<F>>(
    hasher: &H,
    number: usize,
    digest: H::Digest,
    others: &[H::Digest],
    folds: &mut Vec<Fold<F, H::Digest>>,
) -> Result<H::Digest, AllocError>
    requires { number + length others.now < 2 ^ 64 }
    ensures digest { let h = H.hashing hasher.now in IfOk result (λ d. d ≡ right_value h digest others.now) }
    ensures hashed { let h = H.hashing hasher.now in
        OnOk result (map fold_at folds.new.items ≡ map fold_at folds.old.items ++ right_inputs h number digest others.now) }
{
    let Some((next, rest)) = others.split_first() else {
        return Ok(digest);
    };
    let own = folds.len();
    // It stands there until the digest of the others is known.
    folds.push(Fold::new(Place::SuffixFold(number), digest, digest))?;
    let right = fold_right(hasher, number + 1, *next, rest, folds)?;
    folds[own] = Fold::new(Place::SuffixFold(number), digest, right);
    Ok(hasher.fold(&digest, &right))
}

// Folds the first `apart` digests left to right and the others right to left, and joins the two.
fn fold_apart<F: Family, H: Hasher<F>>(
    hasher: &H,
    shape: &Shape<F>,
    first: H::Digest,
    others: &[H::Digest],
    folds: &mut Vec<Fold<F, H::Digest>>,
) -> Result<H::Digest, AllocError>
    requires room { max shape.now.number (shape.now.inactive + 1) + length others.now < 2 ^ 64 }
    requires none { folds.old.items ≡ [] }
    ensures digest { let f = (H.hashing hasher.now).fold in
        IfOk result (λ d. Some d ≡ folded f BackwardFold shape.now.apart (first ∷ others.now)) }
    ensures hashed { let h = H.hashing hasher.now in
        OnOk result (map fold_at folds.new.items
        ≡ numbered_inputs h BackwardFold shape.now.inactive shape.now.apart shape.now.number (first ∷ others.now)) }
{
    let count = shape.apart.saturating_sub(1).min(others.len());
    let (before, after) = others.split_at(count);
    let Some((next, rest)) = after.split_first() else {
        return fold_left(hasher, first, shape.number, before, folds);
    };
    // It stands there until both digests are known.
    folds.push(Fold::new(Place::Join, first, *next))?;
    let left = fold_left(hasher, first, shape.number, before, folds)?;
    let right = fold_right(hasher, shape.inactive.max(1), *next, rest, folds)?;
    folds[0] = Fold::new(Place::Join, left, right);
    Ok(hasher.fold(&left, &right))
}

/// Returns what is hashed above peaks with these digests, of which the first may stand for several
/// oldest ones, and the last for several newest ones.
///
/// Requires that the peaks are fewer than 2^64, with those that the first digest stands for.
///
/// # Errors
///
/// - `OutOfMemory` if a memory request is refused
pub fn above_peaks<F: Family, H: Hasher<F>>(
    alloc: Global,
    hasher: &H,
    shape: &Shape<F>,
    digests: &[H::Digest],
) -> Result<Top<F, H::Digest>, OutOfMemory>
    requires { max shape.now.number (shape.now.inactive + 1) + length digests.now < 2 ^ 64 }
    ensures root { IfOk result (
        HasRootString (H.scheme hasher.now) shape.now.leaves shape.now.inactive shape.now.apart digests.now) }
    ensures folds { IfOk result (HasFolds (H.scheme hasher.now) shape.now.inactive shape.now.apart shape.now.number digests.now) }
{
    let bagging = hasher.root_bagging();
    let mut folds = Vec::new(alloc);
    let folded = match (digests.split_first(), bagging) {
        (None, _) => None,
        (Some((first, others)), Bagging::ForwardFold) => {
            Some(fold_left(hasher, *first, shape.number, others, &mut folds)?)
        }
        (Some((first, others)), Bagging::BackwardFold) => {
            Some(fold_apart(hasher, shape, *first, others, &mut folds)?)
        }
    };
    let root = root_string(
        alloc,
        F::DOMAIN,
        bagging,
        shape.leaves,
        shape.inactive,
        folded.as_ref(),
    )?;
    Ok(Top { root, folds })
}

// Whether two different pairs are folded at one place.
fn differ<F: Family, D: Digest>(claimed: &Fold<F, D>, listed: &Fold<F, D>) -> bool
    ensures { (h : Hashing D) → IsOver h D.bytes D.eq D.EMPTY → result ≡ is_difference h (fold_at claimed.now) (fold_at listed.now) }
{
    if claimed.place != listed.place {
        return false;
    }
    claimed.left != listed.left || claimed.right != listed.right
}

// Returns the first of the claimed folds that differs from one at its place.
fn first_for<F: Family, D: Digest>(
    claimed: &[Fold<F, D>],
    listed: &Fold<F, D>,
) -> Option<Collision<F, D>>
    ensures { (h : Hashing D) → IsOver h D.bytes D.eq D.EMPTY
        → option_map located result ≡ difference_for h (map fold_at claimed.now) (fold_at listed.now) }
{
    let Some((fold, others)) = claimed.split_first() else {
        return None;
    };
    if differ(fold, listed) {
        return Some(Collision {
            place: listed.place,
            claimed: Argument::Pair(fold.left, fold.right),
            listed: Argument::Pair(listed.left, listed.right),
        });
    }
    first_for(others, listed)
}

/// Returns the first of the listed folds from which a claimed one differs.
pub fn first_fold<F: Family, D: Digest>(
    claimed: &[Fold<F, D>],
    listed: &[Fold<F, D>],
) -> Option<Collision<F, D>>
    ensures { (h : Hashing D) → IsOver h D.bytes D.eq D.EMPTY
        → option_map located result ≡ first_difference h (map fold_at claimed.now) (map fold_at listed.now) }
{
    let Some((fold, others)) = listed.split_first() else {
        return None;
    };
    match first_for(claimed, fold) {
        Some(found) => Some(found),
        None => first_fold(claimed, others),
    }
}

/// Returns the first place above the peaks where what is hashed for two equal roots differs: the
/// strings of the roots, and then the folds.
pub fn first_above<F: Family, D: Digest>(
    claimed: Top<F, D>,
    listed: Top<F, D>,
) -> Option<Collision<F, D>>
    ensures apart { claimed.root.items ≢ listed.root.items → option_map located result ≡ Some (roots_apart claimed listed) }
    ensures same { (h : Hashing D) → IsOver h D.bytes D.eq D.EMPTY → claimed.root.items ≡ listed.root.items → FindsFold h claimed listed result }
{
    if claimed.root != listed.root {
        return Some(Collision {
            place: Place::Root,
            claimed: Argument::Bytes(claimed.root),
            listed: Argument::Bytes(listed.root),
        });
    }
    first_fold(&claimed.folds, &listed.folds)
}
