//! The digests of many nodes, computed several at a time.
ghost use Rattle.std.specs.Prelude.{◌≡◌, ◌≤◌, ◌++◌, ◌∷◌, [], OnOk, map, length};

use crate::hasher::{Hasher, Parent};
use merkle_base::family::Family;
use std::alloc::AllocError;

/// Appends the digests of parent nodes to `digests`, in the order of the nodes.
///
/// A node is given as its position and the digests of its left and its right child. The digests are
/// computed four at a time, and then those of the last three, two or one. So a hasher without a
/// [`node_digests_four`](Hasher::node_digests_four) and a [`node_digests_three`](Hasher::node_digests_three)
/// of its own computes n / 2 pairs, and one more node if n is odd.
///
/// # Errors
///
/// - `AllocError` if a memory request is refused. `digests` may then have some of the digests.
///
/// # Examples
///
/// ```
/// let hasher = StandardHasher::<Sha256Plain>::new(Bagging::ForwardFold);
/// let leaves = [b"a", b"b", b"c", b"d"].map(|part| Sha256Plain::hash(&[part]));
/// let [a, b, c, d] = leaves;
/// let mut digests = Vec::new(rt.alloc());
/// // The parents of the leaves at positions 0 and 1, and at positions 3 and 4.
/// let nodes = [(Position::new(2), a, b), (Position::new(5), c, d)];
/// node_digests(&hasher, &nodes, &mut digests)?;
/// ```
pub fn node_digests<F: Family, T: Hasher<F>>(
    hasher: &T,
    nodes: &[Parent<F, T::Digest>],
    digests: &mut Vec<T::Digest>,
) -> Result<(), AllocError>
    ensures { OnOk result (digests.new.items ≡ digests.old.items ++ map (λ n. (T.hashing hasher.now).node n.0 n.1 n.2) nodes.now) }
{
    let mut rest = nodes;
    while rest.len() >= 4 {
        let (four, others) = rest.split_at(4);
        push_four(hasher, four, digests)?;
        rest = others;
    }
    push_few(hasher, rest, digests)
}

fn push_four<F: Family, T: Hasher<F>>(
    hasher: &T,
    nodes: &[Parent<F, T::Digest>],
    digests: &mut Vec<T::Digest>,
) -> Result<(), AllocError>
    requires { length nodes.now ≡ 4 }
    ensures { OnOk result (digests.new.items ≡ digests.old.items ++ map (λ n. (T.hashing hasher.now).node n.0 n.1 n.2) nodes.now) }
{
    let (first, second, third, fourth) = hasher.node_digests_four(nodes);
    digests.push(first)?;
    digests.push(second)?;
    digests.push(third)?;
    digests.push(fourth)?;
    Ok(())
}

// At most three nodes.
fn push_few<F: Family, T: Hasher<F>>(
    hasher: &T,
    nodes: &[Parent<F, T::Digest>],
    digests: &mut Vec<T::Digest>,
) -> Result<(), AllocError>
    requires { length nodes.now ≤ 3 }
    ensures { OnOk result (digests.new.items ≡ digests.old.items ++ map (λ n. (T.hashing hasher.now).node n.0 n.1 n.2) nodes.now) }
{
    match nodes {
        [_, _, _] => push_three(hasher, nodes, digests)?,
        [a, b] => {
            let (first, second) = hasher.node_digest_pair([*a, *b]);
            digests.push(first)?;
            digests.push(second)?;
        }
        [node] => digests.push(hasher.node_digest(node.0, &node.1, &node.2))?,
        _ => {}
    }
    Ok(())
}

fn push_three<F: Family, T: Hasher<F>>(
    hasher: &T,
    nodes: &[Parent<F, T::Digest>],
    digests: &mut Vec<T::Digest>,
) -> Result<(), AllocError>
    requires { length nodes.now ≡ 3 }
    ensures { OnOk result (digests.new.items ≡ digests.old.items ++ map (λ n. (T.hashing hasher.now).node n.0 n.1 n.2) nodes.now) }
{
    let (first, second, third) = hasher.node_digests_three(nodes);
    digests.push(first)?;
    digests.push(second)?;
    digests.push(third)?;
    Ok(())
}
