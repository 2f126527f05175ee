ghost use Rattle.std.specs.Prelude.{◌+◌, ◌*◌, ◌^◌, ◌≤◌};

mod base;
mod counting;
mod fours;
mod hashers;
mod lanes;
mod leaves;
mod locations;
mod mmb;
mod mmr;
mod nodes;
mod paths;
mod room;

use merkle_base::family::{Family, Graftable};
use merkle_base::location::Location;
use merkle_base::position::Position;
use std::process::Abort;

// The SHA-256 digest of `abc`, from FIPS 180-4.
const OF_ABC: [u8; 32] = [
    0xba, 0x78, 0x16, 0xbf, 0x8f, 0x01, 0xcf, 0xea, 0x41, 0x41, 0x40, 0xde, 0x5d, 0xae, 0x22, 0x23,
    0xb0, 0x03, 0x61, 0xa3, 0x96, 0x17, 0x7a, 0x9c, 0xb4, 0x10, 0xff, 0x61, 0xf2, 0x00, 0x15, 0xad,
];

/// Asserts the sums around a family's greatest node count, and those of leaf counts.
fn assert_sums<F: Family>(rt: &impl Abort, max_nodes: u64) {
    let most = Position::<F>::new(max_nodes);
    let positions = [
        Position::<F>::new(u64::MAX).saturating_add(1) == most,
        most.checked_add(1).is_none(),
        most.saturating_sub(10).checked_add(10) == Some(most),
        Position::<F>::new(10).checked_add(5) == Some(Position::new(15)),
    ];
    assert!(rt; positions == [true; 4]);
    let ten = Location::<F>::new(10);
    let fifteen = Location::<F>::new(15);
    let locations = [
        ten.saturating_add(5) == fifteen,
        ten.checked_add(5) == Some(fifteen),
        ten.checked_add(u64::MAX).is_none(),
    ];
    assert!(rt; locations == [true; 3]);
}

/// Whether these are the positions and heights of the maximal nodes inside a chunk of leaves, left to right.
fn has_chunk<F: Graftable>(
    leaves: u64,
    chunk_idx: u64,
    grafting_height: u32,
    peaks: &[(u64, u32)],
) -> bool
    requires { (chunk_idx + 1) * 2 ^ grafting_height ≤ leaves }
{
    let leaves = Location::<F>::new(leaves);
    if !leaves.is_valid() {
        return false;
    }
    let nodes = F::location_to_position(leaves);
    let mut wanted = peaks.iter();
    for (position, height) in F::chunk_peaks(nodes, chunk_idx, grafting_height) {
        match wanted.next() {
            Some(peak) if *peak == (position.as_u64(), height) => {}
            _ => return false,
        }
    }
    wanted.next().is_none()
}

/// The position of the node of a height over the leaves from one on, the leaf that the position leads back to, and the
/// leaf count that the node comes with.
fn root_of<F: Graftable>(leaf_start: u64, height: u32) -> [u64; 3]
    requires low { height ≤ 62 }
    requires within { F.root leaf_start height ≤ F.MAX_NODES }
{
    let position = F::subtree_root_position(Location::new(leaf_start), height);
    [
        position.as_u64(),
        F::leftmost_leaf(position, height).as_u64(),
        F::peak_birth_size(position, height),
    ]
}
