//! The batches whose nodes are not computed yet, by their names.

use merkle_core::batch::UnmerkleizedBatch;
use merkle_core::error::Error;
use merkle_core::family::Family;
use merkle_core::hasher::Hasher;
use rows_calls::refusal::refused;
use rows_calls::world::World;
use rows_text::refusal::{Refusal, UNKNOWN};
use rows_text::words::give_name;

/// The draft of that name, which is no longer there.
pub fn take_draft<F: Family, H: Hasher<F> + Drop>(
    world: &mut World<F, H>,
    name: &str,
) -> Result<UnmerkleizedBatch<F, H::Digest>, Refusal> {
    world.drafts.remove(name).ok_or(UNKNOWN)
}

/// Gives a draft that name.
pub fn keep_draft<F: Family, H: Hasher<F> + Drop>(
    world: &mut World<F, H>,
    name: &str,
    draft: UnmerkleizedBatch<F, H::Digest>,
) -> Result<(), Refusal> {
    give_name(world.alloc, &mut world.drafts, name, draft)
}

/// Gives a draft that name, or answers what is written for its error.
pub fn keep_granted<F: Family, H: Hasher<F> + Drop>(
    world: &mut World<F, H>,
    name: &str,
    draft: Result<UnmerkleizedBatch<F, H::Digest>, Error<F>>,
) -> Result<(), Refusal> {
    match draft {
        Ok(draft) => keep_draft(world, name, draft),
        Err(error) => Err(refused(&error)),
    }
}
