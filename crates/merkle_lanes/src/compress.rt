//! The compression of a block, FIPS 180-4, section 6.2.2, on N blocks at once.

ghost use Rattle.std.specs.Prelude.{◌≡◌, ℕ, ◌+◌, ◌*◌, ◌<◌, ◌≤◌, List, slice_index, slice_set, length};
ghost use Rattle.sha2.specs.Sha256.{IsRoundsAt, IsWindow, add_state, compress, rounds, schedule, word_at};
ghost use Rattle.merkle_lanes.specs.Lanes.{lane, lane_at, state_lane};

use crate::vectors::{add, next_word, round};
use std::simd::Simd;

// The constants of the 64 rounds.
pub const K: [u32; 64] = [
    0x428a2f98, 0x71374491, 0xb5c0fbcf, 0xe9b5dba5, 0x3956c25b, 0x59f111f1, 0x923f82a4, 0xab1c5ed5,
    0xd807aa98, 0x12835b01, 0x243185be, 0x550c7dc3, 0x72be5d74, 0x80deb1fe, 0x9bdc06a7, 0xc19bf174,
    0xe49b69c1, 0xefbe4786, 0x0fc19dc6, 0x240ca1cc, 0x2de92c6f, 0x4a7484aa, 0x5cb0a9dc, 0x76f988da,
    0x983e5152, 0xa831c66d, 0xb00327c8, 0xbf597fc7, 0xc6e00bf3, 0xd5a79147, 0x06ca6351, 0x14292967,
    0x27b70a85, 0x2e1b2138, 0x4d2c6dfc, 0x53380d13, 0x650a7354, 0x766a0abb, 0x81c2c92e, 0x92722c85,
    0xa2bfe8a1, 0xa81a664b, 0xc24b8b70, 0xc76c51a3, 0xd192e819, 0xd6990624, 0xf40e3585, 0x106aa070,
    0x19a4c116, 0x1e376c08, 0x2748774c, 0x34b0bcb5, 0x391c0cb3, 0x4ed8aa4a, 0x5b9cca4f, 0x682e6ff3,
    0x748f82ee, 0x78a5636f, 0x84c87814, 0x8cc70208, 0x90befffa, 0xa4506ceb, 0xbef9a3f7, 0xc67178f2,
];

// Round `t`, one of the first 16, whose word of the schedule is word `t` of the block.
#[inline(always)]
fn block_round<const N: usize>(w: &[Simd<u32, N>; 16], v: &mut [Simd<u32, N>; 8], t: usize)
    requires { t < 16 }
    ensures { (j : ℕ) → j < N → (b h : List ℕ) → IsWindow (lane j w.now) (schedule b 48) 16
        → state_lane j v.old ≡ rounds h (schedule b 48) t
        → state_lane j v.new ≡ rounds h (schedule b 48) (t + 1) }
{
    round(v, K[t], w[t]);
}

// The four rounds from `t` on.
#[inline(always)]
fn four_block_rounds<const N: usize>(w: &[Simd<u32, N>; 16], v: &mut [Simd<u32, N>; 8], t: usize)
    requires { t + 4 ≤ 16 }
    ensures { (j : ℕ) → j < N → (b h : List ℕ) → IsWindow (lane j w.now) (schedule b 48) 16
        → state_lane j v.old ≡ rounds h (schedule b 48) t
        → state_lane j v.new ≡ rounds h (schedule b 48) (t + 4) }
{
    block_round(w, v, t);
    block_round(w, v, t + 1);
    block_round(w, v, t + 2);
    block_round(w, v, t + 3);
}

// Round `16 * turn + place`, one from round 16 on, whose word of the schedule is computed first.
#[inline(always)]
fn schedule_round<const N: usize>(
    w: &mut [Simd<u32, N>; 16],
    v: &mut [Simd<u32, N>; 8],
    turn: usize,
    place: usize,
)
    requires low { 1 ≤ turn }
    requires high { turn < 4 }
    requires place { place < 16 }
    ensures { (j : ℕ) → j < N → (b h : List ℕ)
        → IsRoundsAt b h (lane j w.old) (state_lane j v.old) (16 * turn + place)
        → IsRoundsAt b h (lane j w.new) (state_lane j v.new) (16 * turn + (place + 1)) }
{
    let word = next_word(w, place);
    round(v, K[16 * turn + place], word);
}

// The four rounds from `16 * turn + place` on.
#[inline(always)]
fn four_schedule_rounds<const N: usize>(
    w: &mut [Simd<u32, N>; 16],
    v: &mut [Simd<u32, N>; 8],
    turn: usize,
    place: usize,
)
    requires low { 1 ≤ turn }
    requires high { turn < 4 }
    requires place { place + 4 ≤ 16 }
    ensures { (j : ℕ) → j < N → (b h : List ℕ)
        → IsRoundsAt b h (lane j w.old) (state_lane j v.old) (16 * turn + place)
        → IsRoundsAt b h (lane j w.new) (state_lane j v.new) (16 * turn + (place + 4)) }
{
    schedule_round(w, v, turn, place);
    schedule_round(w, v, turn, place + 1);
    schedule_round(w, v, turn, place + 2);
    schedule_round(w, v, turn, place + 3);
}

// Adds the words of the working variables to those of the hash value.
#[inline(always)]
pub fn add_words<const N: usize>(state: &mut [Simd<u32, N>; 8], v: &[Simd<u32, N>; 8])
    ensures { (j : ℕ) → j < N → state_lane j state.new ≡ add_state (state_lane j state.old) (state_lane j v.now) }
{
    let (a, b, c, d) = (state[0], state[1], state[2], state[3]);
    let (e, f, g, h) = (state[4], state[5], state[6], state[7]);
    state[0] = add(a, v[0]);
    state[1] = add(b, v[1]);
    state[2] = add(c, v[2]);
    state[3] = add(d, v[3]);
    state[4] = add(e, v[4]);
    state[5] = add(f, v[5]);
    state[6] = add(g, v[6]);
    state[7] = add(h, v[7]);
}

/// Compresses N blocks into N hash values: vector k of `block` has word k of each block, and vector
/// k of `state` word k of each hash value.
#[inline(always)]
pub fn compress<const N: usize>(state: &mut [Simd<u32, N>; 8], block: &[Simd<u32, N>; 16])
    ensures { (j : ℕ) → j < N → (b : List ℕ)
        → ((k : ℕ) → k < 16 → slice_index (lane j block.now) k ≡ word_at b (4 * k))
        → state_lane j state.new ≡ compress (state_lane j state.old) b }
{
    let mut w = *block;
    let mut v = *state;
    four_block_rounds(&w, &mut v, 0);
    four_block_rounds(&w, &mut v, 4);
    four_block_rounds(&w, &mut v, 8);
    four_block_rounds(&w, &mut v, 12);
    // Sixteen rounds a turn, so that the place of each word in the ring is a constant.
    for turn in 1..4 {
        four_schedule_rounds(&mut w, &mut v, turn, 0);
        four_schedule_rounds(&mut w, &mut v, turn, 4);
        four_schedule_rounds(&mut w, &mut v, turn, 8);
        four_schedule_rounds(&mut w, &mut v, turn, 12);
    }
    add_words(state, &v);
}
