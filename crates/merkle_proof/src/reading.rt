//! The digests of a proof, read by the positions of their nodes.
ghost use Rattle.std.specs.Prelude.{◌≡◌, ◌≢◌, ◌+◌, ◌^◌, ◌<◌, ◌≤◌, ◌++◌, ℕ, List, min, reverse, length, vec_len, vec_capacity, IfOk, IfErr};
ghost use Rattle.std.specs.Option.{option_to_list};
ghost use Rattle.merkle_base.specs.Root.{right_fold, folded};
ghost use Rattle.merkle_base.specs.declared.family.Bagging.TheVariants.{ForwardFold};
ghost use Rattle.merkle_proof.specs.RangePlans.{AreAnswered, IsFirstMissing, IsLaidOut};

use merkle_base::error::Error;
use merkle_base::family::Family;
use merkle_base::position::Position;
use merkle_digest::digest::Digest;
use merkle_hasher::hasher::Hasher;
use std::alloc::Global;

/// There is no digest for a position.
#[derive(Debug, Drop)]
struct Missing<F> {
    position: Position<F>,
}

impl<F> From<Missing<F>> for Error<F> {
    ghost use Rattle.std.specs.Prelude.{◌≡◌};
    ghost use Rattle.merkle_base.specs.declared.error.Error.TheVariants.{ElementPruned};

    ghost from_gives = { λ missing e. e ≡ ElementPruned missing.position };

    fn from(missing: Missing<F>) -> Self {
        Error::ElementPruned(missing.position)
    }
}

// Appends the digests that `get_node` returns for the positions.
fn read_each<F: Family, D: Digest, G: Fn(Position<F>) -> Option<D>>(
    positions: &[Position<F>],
    get_node: &G,
    out: &mut Vec<D>,
) -> Result<(), Missing<F>>
    requires callable { G.IsAlwaysCallable get_node.now }
    requires room { vec_len out.old + length positions.now ≤ vec_capacity out.old }
    ensures ok { IfOk result (λ _. (ds : List D) × AreAnswered (G.post get_node.now) positions.now ds × (out.new.items ≡ out.old.items ++ ds)) }
    ensures room { IfOk result (λ _. (vec_len out.new ≡ vec_len out.old + length positions.now) × (vec_capacity out.new ≡ vec_capacity out.old)) }
    ensures err { IfErr result (λ e. IsFirstMissing (G.post get_node.now) positions.now e.position) }
{
    for position in positions {
        let Some(digest) = get_node(*position) else {
            return Err(Missing {
                position: *position,
            });
        };
        out.push_reserved(digest);
    }
    Ok(())
}

// Folds the digests that `get_node` returns for the positions left to right, and appends the
// result; nothing if there are no positions.
fn read_folded<F: Family, H: Hasher<F>, G: Fn(Position<F>) -> Option<H::Digest>>(
    hasher: &H,
    positions: &[Position<F>],
    get_node: &G,
    out: &mut Vec<H::Digest>,
) -> Result<(), Missing<F>>
    requires callable { G.IsAlwaysCallable get_node.now }
    requires room { vec_len out.old + min (length positions.now) 1 ≤ vec_capacity out.old }
    ensures ok { IfOk result (λ _. (ds : List H.Digest) × AreAnswered (G.post get_node.now) positions.now ds
        × (out.new.items ≡ out.old.items ++ option_to_list (folded (H.hashing hasher.now).fold ForwardFold 0 ds))) }
    ensures room { IfOk result (λ _. (vec_len out.new ≡ vec_len out.old + min (length positions.now) 1) × (vec_capacity out.new ≡ vec_capacity out.old)) }
    ensures err { IfErr result (λ e. IsFirstMissing (G.post get_node.now) positions.now e.position) }
{
    let mut folded = None;
    for position in positions {
        let Some(digest) = get_node(*position) else {
            return Err(Missing {
                position: *position,
            });
        };
        folded = match folded {
            Some(acc) => Some(hasher.fold(&acc, &digest)),
            None => Some(digest),
        };
    }
    if let Some(digest) = folded {
        out.push_reserved(digest);
    }
    Ok(())
}

// Folds the digests that `get_node` returns for the positions right to left, and appends the
// result; nothing if there are no positions. They are read from the last one on.
fn read_bagged<F: Family, H: Hasher<F>, G: Fn(Position<F>) -> Option<H::Digest>>(
    hasher: &H,
    positions: &[Position<F>],
    get_node: &G,
    out: &mut Vec<H::Digest>,
) -> Result<(), Missing<F>>
    requires callable { G.IsAlwaysCallable get_node.now }
    requires room { vec_len out.old + min (length positions.now) 1 ≤ vec_capacity out.old }
    ensures ok { IfOk result (λ _. (ds : List H.Digest) × AreAnswered (G.post get_node.now) positions.now ds
        × (out.new.items ≡ out.old.items ++ option_to_list (right_fold (H.hashing hasher.now).fold ds))) }
    ensures room { IfOk result (λ _. (vec_len out.new ≡ vec_len out.old + min (length positions.now) 1) × (vec_capacity out.new ≡ vec_capacity out.old)) }
    ensures err { IfErr result (λ e. IsFirstMissing (G.post get_node.now) (reverse positions.now) e.position) }
{
    let mut bagged = None;
    let mut index = positions.len();
    while index > 0 {
        index -= 1;
        let position = positions[index];
        let Some(digest) = get_node(position) else {
            return Err(Missing { position });
        };
        bagged = match bagged {
            Some(others) => Some(hasher.fold(&digest, &others)),
            None => Some(digest),
        };
    }
    if let Some(digest) = bagged {
        out.push_reserved(digest);
    }
    Ok(())
}

/// Returns the digests of a proof, read by `get_node`: the prefix folded left to right to one, the
/// single ones, the suffix folded right to left to one, and the siblings.
///
/// They are read in this order, the suffix from its last position on.
pub(crate) fn read_digests<F: Family, H: Hasher<F>, G: Fn(Position<F>) -> Option<H::Digest>>(
    alloc: Global,
    hasher: &H,
    prefix: &[Position<F>],
    single: &[Position<F>],
    suffix: &[Position<F>],
    siblings: &[Position<F>],
    get_node: &G,
) -> Result<Vec<H::Digest>, Error<F>>
    requires callable { G.IsAlwaysCallable get_node.now }
    requires fits { length prefix.now + length single.now + length suffix.now + length siblings.now < 2 ^ 64 }
    ensures ok { IfOk result (λ v. IsLaidOut (H.hashing hasher.now).fold (G.post get_node.now) prefix.now single.now suffix.now siblings.now v.items) }
    ensures err { IfErr result (λ e. e ≢ Error.OutOfMemory → (p : ℕ) × (e ≡ Error.ElementPruned p)
        × IsFirstMissing (G.post get_node.now) (prefix.now ++ (single.now ++ (reverse suffix.now ++ siblings.now))) p) }
{
    let count = prefix.len().min(1) + single.len() + suffix.len().min(1) + siblings.len();
    let mut digests = Vec::with_capacity(alloc, count)?;
    read_folded(hasher, prefix, get_node, &mut digests)?;
    read_each(single, get_node, &mut digests)?;
    read_bagged(hasher, suffix, get_node, &mut digests)?;
    read_each(siblings, get_node, &mut digests)?;
    Ok(digests)
}
