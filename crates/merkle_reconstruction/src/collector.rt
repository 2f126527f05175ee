//! What is kept of the node digests that a check computes.
ghost use Rattle.std.specs.Prelude.{◌≡◌, false, [], ◌∷◌, ◌++◌, ℕ, List, ⊤, OnOk};
ghost use Rattle.std.proofs.Common.{sym, ap, ◌∙◌, append-nil, append_assoc};

use merkle_base::family::Family;
use merkle_base::position::Position;
use merkle_digest::digest::Digest;
use std::alloc::AllocError;

/// Receives the digests of nodes, with their positions.
pub trait Collector<F: Family, D: Digest> {
    // whether the second value is the first after it took these pairs in order
    ghost Took: { Self → List (ℕ × D) → Self → Type 0 };

    /// Receives the digest of the node at `position`. Fails only if a memory request is refused.
    fn put(&mut self, position: Position<F>, digest: &D) -> Result<(), AllocError>
        ensures { OnOk result (Took self.old ((position, digest.now) ∷ []) self.new) };

    /// Whether the digests that it receives are kept. Where they are not, none need be given.
    fn keeps(&self) -> bool
        ensures { result ≡ false → (ps : List (ℕ × D)) → Took self.now ps self.now };

    ghost took_none: { (s : Self) → Took s [] s };

    ghost took_both: { (s t u : Self) (a b : List (ℕ × D)) → Took s a t → Took t b u → Took s (a ++ b) u };
}

/// A collector that keeps nothing.
#[derive(Clone, Copy)]
pub struct Discard;

impl<F: Family, D: Digest> Collector<F, D> for Discard {
    ghost Took = { λ _ _ _. ⊤ };

    fn put(&mut self, _position: Position<F>, _digest: &D) -> Result<(), AllocError>
        ensures { OnOk result ⊤ }
    {
        Ok(())
    }

    fn keeps(&self) -> bool
        ensures { result ≡ false → List (ℕ × D) → ⊤ }
    {
        false
    }

    ghost took_none = { λ _. tt };

    ghost took_both = { λ _ _ _ _ _ _ _. tt };
}

/// Keeps all pairs, in order.
impl<F: Family, D: Digest> Collector<F, D> for Vec<(Position<F>, D)> {
    ghost Took = { λ s a t. t.items ≡ s.items ++ a };

    fn put(&mut self, position: Position<F>, digest: &D) -> Result<(), AllocError>
        ensures { OnOk result (self.new.items ≡ self.old.items ++ (position, digest.now) ∷ []) }
    {
        self.push((position, *digest))?;
        Ok(())
    }

    fn keeps(&self) -> bool
        ensures { result ≡ false → (ps : List (ℕ × D)) → self.now.items ≡ self.now.items ++ ps }
    {
        true
    }

    ghost took_none = { λ s. sym (append-nil s.items) };

    ghost took_both = { λ s t u a b e f. f ∙ ap (λ z. z ++ b) e ∙ append_assoc s.items a b };
}

/// Passes the digests of two nodes to a collector. Fails only if a memory request is refused.
pub(crate) fn put_both<F: Family, D: Digest, C: Collector<F, D>>(
    left: Position<F>,
    first: &D,
    right: Position<F>,
    second: &D,
    out: &mut C,
) -> Result<(), AllocError>
    ensures { OnOk result (C.Took out.old ((left, first.now) ∷ (right, second.now) ∷ []) out.new) }
{
    out.put(left, first)?;
    out.put(right, second)?;
    Ok(())
}
