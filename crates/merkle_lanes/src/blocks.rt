//! The hash values of N messages after the same number of blocks of each, that of message j in lane j.

ghost use Rattle.std.specs.Prelude.{◌≡◌, ℕ, ◌+◌, ◌*◌, ◌<◌, ◌≤◌, slice_index, length};
ghost use Rattle.sha2.specs.Sha256.{digest_bytes, hash_after, initial_hash_256, word_at};
ghost use Rattle.merkle_lanes.specs.Lanes.{lane, message, state_lane};

use crate::compress::compress;
use crate::vectors::splat;
use std::simd::Simd;

// The word at byte `i`, the most significant byte first.
#[inline(always)]
pub fn load(bytes: &[u8], i: usize) -> u32
    requires { i + 4 ≤ length bytes.now }
    ensures { result ≡ word_at bytes.now i }
{
    u32::from_be_bytes([bytes[i], bytes[i + 1], bytes[i + 2], bytes[i + 3]])
}

// The word at byte `i` of each message.
#[inline(always)]
pub fn words<const N: usize>(messages: &[&[u8]], i: usize) -> Simd<u32, N>
    requires number { length messages.now ≡ N }
    requires long { (j : ℕ) → j < N → i + 4 ≤ length (message messages.now j) }
    ensures { (j : ℕ) → j < N → slice_index result j ≡ word_at (message messages.now j) i }
{
    let mut words = [0; N];
    for j in 0..N {
        words[j] = load(messages[j], i);
    }
    Simd::from_array(words)
}

// Sets `count` words of `block` from word `place` on to those of each message from byte `start` on.
#[inline(always)]
pub fn load_words<const N: usize>(
    block: &mut [Simd<u32, N>; 16],
    place: usize,
    count: usize,
    messages: &[&[u8]],
    start: usize,
)
    requires number { length messages.now ≡ N }
    requires place { place + count ≤ 16 }
    requires start { start ≤ 4096 }
    requires long { (j : ℕ) → j < N → start + 4 * count ≤ length (message messages.now j) }
    ensures kept { (j : ℕ) → j < N → (k : ℕ) → k < place
        → slice_index (lane j block.new) k ≡ slice_index (lane j block.old) k }
    ensures loaded { (j : ℕ) → j < N → (k : ℕ) → k < count
        → slice_index (lane j block.new) (place + k) ≡ word_at (message messages.now j) (start + 4 * k) }
{
    for i in 0..count {
        block[place + i] = words(messages, start + 4 * i);
    }
}

// Sets `block` to the 64 bytes from byte `start` on of each message.
#[inline(always)]
pub fn load_block<const N: usize>(block: &mut [Simd<u32, N>; 16], messages: &[&[u8]], start: usize)
    requires number { length messages.now ≡ N }
    requires start { start ≤ 4096 }
    requires long { (j : ℕ) → j < N → start + 64 ≤ length (message messages.now j) }
    ensures { (j : ℕ) → j < N → (k : ℕ) → k < 16
        → slice_index (lane j block.new) k ≡ word_at (message messages.now j) (start + 4 * k) }
{
    load_words(block, 0, 16, messages, start);
}

// Sets each lane to the initial hash value of FIPS 180-4, section 5.3.3.
#[inline(always)]
pub fn initialize<const N: usize>(state: &mut [Simd<u32, N>; 8])
    ensures { (j : ℕ) → j < N → state_lane j state.new ≡ initial_hash_256 }
{
    state[0] = splat(0x6a09_e667);
    state[1] = splat(0xbb67_ae85);
    state[2] = splat(0x3c6e_f372);
    state[3] = splat(0xa54f_f53a);
    state[4] = splat(0x510e_527f);
    state[5] = splat(0x9b05_688c);
    state[6] = splat(0x1f83_d9ab);
    state[7] = splat(0x5be0_cd19);
}

// The bytes of the hash value in lane `j`, the most significant byte of each word first.
#[inline(never)]
pub fn digest<const N: usize>(state: &[Simd<u32, N>; 8], j: usize) -> [u8; 32]
    requires { j < N }
    ensures { result ≡ digest_bytes (state_lane j state.now) 8 }
{
    let mut out = [0u8; 32];
    for i in 0..8 {
        let lanes = state[i].to_array();
        out[4 * i..4 * i + 4].copy_from_slice(&lanes[j].to_be_bytes());
    }
    out
}

/// Takes block `i` of each message into its hash value, in `state`. `block` is room for a block of each.
///
/// Requires that there are N messages, each with such a block.
#[inline(always)]
pub fn compress_next<const N: usize>(
    state: &mut [Simd<u32, N>; 8],
    block: &mut [Simd<u32, N>; 16],
    messages: &[&[u8]],
    i: usize,
)
    requires number { length messages.now ≡ N }
    requires few { i < 64 }
    requires long { (j : ℕ) → j < N → 64 * i + 64 ≤ length (message messages.now j) }
    ensures { (j : ℕ) → j < N → state_lane j state.old ≡ hash_after initial_hash_256 (message messages.now j) i
        → state_lane j state.new ≡ hash_after initial_hash_256 (message messages.now j) (i + 1) }
{
    load_block(block, messages, 64 * i);
    compress(state, block);
}
