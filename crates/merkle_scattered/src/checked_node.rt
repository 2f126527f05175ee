//! Nodes together with the scattered leaves below them.
ghost use Rattle.std.specs.Prelude.{◌≡◌, ◌+◌, ◌≤◌, ◌&&◌, ℕ, drop, length, nat_le, nat_lt};
ghost use Rattle.merkle_base.specs.Tree.{Tree, join};
ghost use Rattle.merkle_scattered.specs.Confirmed.{IsChecked, checked_node, located_before};

use merkle_base::family::Family;
use merkle_base::location::Location;
use merkle_hasher::subtree::Subtree;

/// A node, and which of some leaves, which ascend by location, are below it.
#[derive_where(Clone, Copy)]
pub(crate) struct CheckedNode<F> {
    /// The node.
    pub(crate) subtree: Subtree<F>,
    /// The number of leaves before the node.
    pub(crate) from: usize,
    /// The number of leaves before the node or below it.
    pub(crate) to: usize,
}

impl<F: Family> CheckedNode<F> {
    /// Whether none of the leaves is below the node.
    pub(crate) fn is_unmet(&self) -> bool
        ensures { result ≡ nat_le self.now.to self.now.from }
    {
        self.to <= self.from
    }

    /// Whether the node has children and some of the leaves are below it.
    pub(crate) fn is_parent(&self) -> bool
        ensures { result ≡ (nat_lt self.now.from self.now.to && nat_lt 0 self.now.subtree.height) }
    {
        self.from < self.to && self.subtree.height > 0
    }

    /// Returns the left and the right child of a node that has children.
    pub(crate) fn children<D>(&self, located: &[(Location<F>, D)]) -> (Self, Self)
        requires { (p : ℕ) × (l : Tree) × (r : Tree) × IsChecked F.rule F.MAX_LEAVES located.now self.now (join p l r) }
        ensures { (p : ℕ) (l r : Tree) → IsChecked F.rule F.MAX_LEAVES located.now self.now (join p l r)
            → (result.0 ≡ checked_node located.now l) × (result.1 ≡ checked_node located.now r) }
    {
        let (left, right) = self.subtree.children();
        let middle = count_before(located, self.from, right.first_leaf);
        (
            CheckedNode {
                subtree: left,
                from: self.from,
                to: middle,
            },
            CheckedNode {
                subtree: right,
                from: middle,
                to: self.to,
            },
        )
    }
}

/// Returns the number of leaves before `end`, of which the first `from` are known.
pub(crate) fn count_before<F, D>(
    located: &[(Location<F>, D)],
    from: usize,
    end: Location<F>,
) -> usize
    requires { from ≤ length located.now }
    ensures { result ≡ from + located_before end (drop from located.now) }
{
    for i in from..located.len() {
        if located[i].0 >= end {
            return i;
        }
    }
    located.len()
}
