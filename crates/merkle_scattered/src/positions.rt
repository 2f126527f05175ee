//! Positions in ascending order.
ghost use Rattle.merkle_scattered.specs.Positions.{IsAscendingOf};

use merkle_base::position::Position;

/// Sorts the positions and drops repeated ones.
pub fn ascending<F>(mut positions: Vec<Position<F>>) -> Vec<Position<F>>
    ensures { IsAscendingOf positions.items result.items }
{
    positions.sort_unstable();
    positions.dedup();
    positions
}
