//! Read access to nodes by position.
ghost use Rattle.std.specs.Prelude.{◌≡◌, ℕ, Option};

use merkle_base::family::Family;
use merkle_base::position::Position;
use merkle_digest::digest::Digest;
use std::rc::Rc;

/// Read access to the nodes of a structure by position.
///
/// Both functions depend only on the value: repeated calls return the same result.
pub trait Readable {
    /// The family of the structure.
    type Family: Family;

    /// The digest type of the nodes.
    type Digest: Digest;

    ghost size: { Self → ℕ };

    ghost node: { Self → ℕ → Option Self.Digest };

    /// Returns the size of the structure in nodes, including nodes that are not held.
    fn size(&self) -> Position<Self::Family>
        ensures { result ≡ size self.now };

    /// Returns the digest of the node at `position`, or `None` if it is not held.
    fn get_node(&self, position: Position<Self::Family>) -> Option<Self::Digest>
        ensures { result ≡ node self.now position };
}

impl<R: Readable> Readable for Rc<R> {
    type Family = R::Family;

    type Digest = R::Digest;

    ghost size = { λ r. R.size r.value };

    ghost node = { λ r p. R.node r.value p };

    fn size(&self) -> Position<R::Family> {
        R::size(self)
    }

    fn get_node(&self, position: Position<R::Family>) -> Option<R::Digest>
        ensures { result ≡ R.node self.now.value position }
    {
        R::get_node(self, position)
    }
}
