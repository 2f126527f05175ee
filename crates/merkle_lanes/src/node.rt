//! The hash values of N messages of 72 bytes, as those of parent nodes are: a position, and the digests
//! of two children. The padded message has two blocks, the last of which is nearly all padding: its
//! words are constants here, which saves a tenth of the time.

ghost use Rattle.std.specs.Prelude.{◌≡◌, ℕ, List, ◌+◌, ◌*◌, ◌<◌, slice_index, length};
ghost use Rattle.sha2.specs.Sha256.{digest_bytes, padded_message, sha256, word_at};
ghost use Rattle.merkle_lanes.specs.Lanes.{lane, message, node_message, state_lane};

use crate::blocks::{initialize, load_words, words};
use crate::compress::compress;
use crate::vectors::splat;
use std::simd::Simd;

// Sets `block` to the first 64 bytes of each message.
#[inline(always)]
fn load_first_block<const N: usize>(
    block: &mut [Simd<u32, N>; 16],
    positions: &[&[u8]],
    lefts: &[&[u8]],
    rights: &[&[u8]],
)
    requires positions { length positions.now ≡ N }
    requires lefts { length lefts.now ≡ N }
    requires rights { length rights.now ≡ N }
    requires long_positions { (j : ℕ) → j < N → length (message positions.now j) ≡ 8 }
    requires long_lefts { (j : ℕ) → j < N → length (message lefts.now j) ≡ 32 }
    requires long_rights { (j : ℕ) → j < N → length (message rights.now j) ≡ 32 }
    ensures { (j : ℕ) → j < N → (k : ℕ) → k < 16
        → slice_index (lane j block.new) k ≡ word_at (node_message positions.now lefts.now rights.now j) (0 + 4 * k) }
{
    load_words(block, 0, 2, positions, 0);
    load_words(block, 2, 8, lefts, 0);
    load_words(block, 10, 6, rights, 0);
}

// Sets `block` to the last eight bytes of each message, which end the digests `rights`, and the padding of
// FIPS 180-4, section 5.1.1: a bit 1, zeros, and the length, 576 bits.
#[inline(always)]
fn load_last_block<const N: usize>(block: &mut [Simd<u32, N>; 16], rights: &[&[u8]])
    requires number { length rights.now ≡ N }
    requires long { (j : ℕ) → j < N → length (message rights.now j) ≡ 32 }
    ensures { (j : ℕ) → j < N → (m : List ℕ) → length m ≡ 72
        → word_at m 64 ≡ word_at (message rights.now j) 24 → word_at m 68 ≡ word_at (message rights.now j) 28
        → (k : ℕ) → k < 16 → slice_index (lane j block.new) k ≡ word_at (padded_message m) (64 + 4 * k) }
{
    let zero = splat(0);
    block[0] = words(rights, 24);
    block[1] = words(rights, 28);
    block[2] = splat(0x8000_0000);
    block[3] = zero;
    block[4] = zero;
    block[5] = zero;
    block[6] = zero;
    block[7] = zero;
    block[8] = zero;
    block[9] = zero;
    block[10] = zero;
    block[11] = zero;
    block[12] = zero;
    block[13] = zero;
    block[14] = zero;
    block[15] = splat(576);
}

/// Sets `state` to the words of the digests of the messages. `block` is room for a block of each.
///
/// Requires that there are N positions of 8 bytes, and N digests of 32 bytes of each side.
#[inline(always)]
pub fn compress_nodes<const N: usize>(
    state: &mut [Simd<u32, N>; 8],
    block: &mut [Simd<u32, N>; 16],
    positions: &[&[u8]],
    lefts: &[&[u8]],
    rights: &[&[u8]],
)
    requires positions { length positions.now ≡ N }
    requires lefts { length lefts.now ≡ N }
    requires rights { length rights.now ≡ N }
    requires long_positions { (j : ℕ) → j < N → length (message positions.now j) ≡ 8 }
    requires long_lefts { (j : ℕ) → j < N → length (message lefts.now j) ≡ 32 }
    requires long_rights { (j : ℕ) → j < N → length (message rights.now j) ≡ 32 }
    ensures { (j : ℕ) → j < N
        → digest_bytes (state_lane j state.new) 8 ≡ sha256 (node_message positions.now lefts.now rights.now j) }
{
    initialize(state);
    load_first_block(block, positions, lefts, rights);
    compress(state, block);
    load_last_block(block, rights);
    compress(state, block);
}
