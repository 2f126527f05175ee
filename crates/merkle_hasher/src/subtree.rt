//! Nodes together with the leaves below them.
ghost use Rattle.std.specs.Prelude.{◌≡◌, ◌+◌};
ghost use Rattle.merkle_base.specs.Tree.{Tree, join, first_leaf, width};
ghost use Rattle.merkle_hasher.specs.Subtrees.{AreChildSubtrees, Denotes};

use merkle_base::family::Family;
use merkle_base::location::Location;
use merkle_base::position::Position;

/// A node and the leaves below it, which are `2^height` leaves from `first_leaf` on.
#[derive_where(Clone, Copy, Debug)]
pub struct Subtree<F> {
    /// The position of the node.
    pub position: Position<F>,
    /// The height of the node; a leaf has height 0.
    pub height: u32,
    /// The location of the first leaf below the node; of a leaf, its own location.
    pub first_leaf: Location<F>,
}

impl<F: Family> Subtree<F> {
    /// Returns the location after the last leaf below the node.
    pub fn leaf_end(&self) -> Location<F>
        requires { (t : Tree) × Denotes F.rule F.MAX_LEAVES self.now t }
        ensures { (t : Tree) → Denotes F.rule F.MAX_LEAVES self.now t → result ≡ first_leaf t + width t }
    {
        self.first_leaf + (1u64 << self.height)
    }

    /// Returns the left and the right child of the node.
    ///
    /// Requires that the node is not a leaf.
    pub fn children(&self) -> (Self, Self)
        requires { (p : _) × (a : Tree) × (b : Tree) × Denotes F.rule F.MAX_LEAVES self.now (join p a b) }
        ensures { AreChildSubtrees F.rule F.MAX_LEAVES self.now result.0 result.1 }
    {
        let (left, right) = F::children(self.position, self.height);
        let height = self.height - 1;
        (
            Subtree {
                position: left,
                height,
                first_leaf: self.first_leaf,
            },
            Subtree {
                position: right,
                height,
                first_leaf: self.first_leaf + (1u64 << height),
            },
        )
    }
}
