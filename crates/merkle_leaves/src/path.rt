//! The path from a node, usually a peak, down to a leaf.
ghost use Rattle.std.specs.Prelude.{◌≡◌, length};
ghost use Rattle.std.specs.Iterator.{YieldsFirst, item_count};
ghost use Rattle.merkle_leaves.specs.Path.{IsNodeAbove, IsPath};

use merkle_base::family::Family;
use merkle_base::listed::Listed;
use merkle_base::location::Location;
use merkle_base::position::Position;
use merkle_hasher::subtree::Subtree;
use std::iter;
use std::marker::Model;

/// Iterates over the parent nodes on the path from a node down to a leaf, from the top down.
///
/// Each item is the position of the node, the position of the sibling of the next node on the path,
/// and the height of the node. The number of items is the height of the first node, so a path that
/// begins at a leaf has none. In the tree
///
/// ```text
///          6
///        /   \
///       2     5
///      / \   / \
///     0   1 3   4
/// ```
///
/// the path from node 6 down to the leaf at location 2, which is at position 3, is `(6, 2, 2)`,
/// `(5, 4, 1)`.
#[derive(Debug, Drop)]
pub struct Iterator<F: Family> {
    // the node at which the rest of the path begins
    node: Subtree<F>,
    // the location of the leaf at which the path ends
    target: Location<F>,
}

impl<F: Family> Model for Iterator<F> {
    ghost use Rattle.std.specs.Prelude.{ℕ, List, slice_get};
    ghost use Rattle.merkle_base.specs.Forest.{forest};
    ghost use Rattle.merkle_leaves.specs.Path.{path_from, IsNodeAbove};

    ghost Value = { List (ℕ × ℕ × ℕ) };

    ghost view = { λ s. path_from s.target (slice_get (forest F.rule F.MAX_LEAVES).nodes s.node.position) };

    ghost invariant = { λ s. IsNodeAbove F.rule F.MAX_LEAVES s.node.position s.node.height s.node.first_leaf s.target };
}

impl<F: Family> Iterator<F> {
    /// Iterates over the path from the node at `peak_pos` down to the leaf at `target_loc`.
    ///
    /// Requires that there is a node of height `height` at `peak_pos`, that its first leaf is at
    /// `first_leaf_loc`, and that the target is one of its leaves.
    pub fn new(
        peak_pos: Position<F>,
        height: u32,
        first_leaf_loc: Location<F>,
        target_loc: Location<F>,
    ) -> Self
        requires { IsNodeAbove F.rule F.MAX_LEAVES peak_pos height first_leaf_loc target_loc }
        ensures path { IsPath F.rule peak_pos target_loc result }
        ensures count { length result ≡ height }
    {
        Iterator {
            node: Subtree {
                position: peak_pos,
                height,
                first_leaf: first_leaf_loc,
            },
            target: target_loc,
        }
    }
}

impl<F: Family> iter::Iterator for Iterator<F> {
    type Item = (Position<F>, Position<F>, u32);

    ghost next_gives = { YieldsFirst (λ s. s) };

    ghost remaining = { item_count (λ s. s) };

    fn next(&mut self) -> Option<(Position<F>, Position<F>, u32)> {
        let node = self.node;
        if node.height == 0 {
            return None;
        }
        let (left, right) = node.children();
        if self.target < right.first_leaf {
            self.node = left;
            Some((node.position, right.position, node.height))
        } else {
            self.node = right;
            Some((node.position, left.position, node.height))
        }
    }
}

impl<F: Family> Listed for Iterator<F> {
    ghost left = { λ s. s };

    ghost may_go = { λ _. tt };

    ghost gives_first = { λ _ _ _ h. h };

    ghost ends = { λ _. tt };
}
