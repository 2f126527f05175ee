//! The hash values of N messages of 40 bytes, as those of leaves with an element of 32 bytes are: a position, and the
//! element. The padded message has one block, six of whose words are constants.

ghost use Rattle.std.specs.Prelude.{◌≡◌, ℕ, ◌+◌, ◌*◌, ◌<◌, slice_index, length};
ghost use Rattle.sha2.specs.Sha256.{digest_bytes, padded_message, padding, sha256, word_at};
ghost use Rattle.merkle_lanes.specs.Lanes.{lane, leaf_message, message, state_lane};

use crate::blocks::{initialize, load_words};
use crate::compress::compress;
use crate::vectors::splat;
use std::simd::Simd;

// Sets the last six words of `block` to the padding of FIPS 180-4, section 5.1.1, of 40 bytes: a bit 1, zeros, and the
// length, 320 bits.
#[inline(always)]
fn load_padding<const N: usize>(block: &mut [Simd<u32, N>; 16])
    ensures kept { (j : ℕ) → j < N → (k : ℕ) → k < 10
        → slice_index (lane j block.new) k ≡ slice_index (lane j block.old) k }
    ensures loaded { (j : ℕ) → j < N → (k : ℕ) → k < 6
        → slice_index (lane j block.new) (10 + k) ≡ word_at (padding 40) (4 * k) }
{
    let zero = splat(0);
    block[10] = splat(0x8000_0000);
    block[11] = zero;
    block[12] = zero;
    block[13] = zero;
    block[14] = zero;
    block[15] = splat(320);
}

// Sets `block` to each message with its padding.
#[inline(always)]
fn load_padded<const N: usize>(
    block: &mut [Simd<u32, N>; 16],
    positions: &[&[u8]],
    elements: &[&[u8]],
)
    requires positions { length positions.now ≡ N }
    requires elements { length elements.now ≡ N }
    requires long_positions { (j : ℕ) → j < N → length (message positions.now j) ≡ 8 }
    requires long_elements { (j : ℕ) → j < N → length (message elements.now j) ≡ 32 }
    ensures { (j : ℕ) → j < N → (k : ℕ) → k < 16
        → slice_index (lane j block.new) k ≡ word_at (padded_message (leaf_message positions.now elements.now j)) (4 * k) }
{
    load_words(block, 0, 2, positions, 0);
    load_words(block, 2, 8, elements, 0);
    load_padding(block);
}

/// Sets `state` to the words of the digests of the messages. `block` is room for a block of each.
///
/// Requires that there are N positions of 8 bytes, and N elements of 32 bytes.
#[inline(always)]
pub fn compress_leaves<const N: usize>(
    state: &mut [Simd<u32, N>; 8],
    block: &mut [Simd<u32, N>; 16],
    positions: &[&[u8]],
    elements: &[&[u8]],
)
    requires positions { length positions.now ≡ N }
    requires elements { length elements.now ≡ N }
    requires long_positions { (j : ℕ) → j < N → length (message positions.now j) ≡ 8 }
    requires long_elements { (j : ℕ) → j < N → length (message elements.now j) ≡ 32 }
    ensures { (j : ℕ) → j < N → digest_bytes (state_lane j state.new) 8 ≡ sha256 (leaf_message positions.now elements.now j) }
{
    initialize(state);
    load_padded(block, positions, elements);
    compress(state, block);
}
