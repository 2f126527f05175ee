//! Which function answers a call.

use crate::{codec, digests, families, plans, proofs, readers};
use merkle_core::family::Family;
use merkle_core::hasher::Hasher;
use rows_text::answer::Answer;
use rows_text::calls::{BytesCall, FamilyCall, GivenCall, PlanCall};
use rows_text::refusal::Refusal;
use rows_text::words::Words;

/// Does what a call of the family says, and writes the answer. The words are those after the name of the call.
pub fn answer_family<F: Family, H: Hasher<F>>(
    call: FamilyCall,
    words: &mut Words,
    answer: &mut Answer,
) -> Result<(), Refusal> {
    match call {
        FamilyCall::Height => families::height::<F>(words, answer),
        FamilyCall::Inactive => families::inactive::<F>(words, answer),
        FamilyCall::IsInactive => families::is_inactive::<F, H::Digest>(words, answer),
        FamilyCall::IsSize => families::is_size::<F>(words, answer),
        FamilyCall::Location => families::location::<F>(words, answer),
        FamilyCall::NearestSize => families::nearest_size::<F>(words, answer),
        FamilyCall::Parents => families::parents::<F>(words, answer),
        FamilyCall::Pins => families::pins::<F>(words, answer),
        FamilyCall::Position => families::position::<F>(words, answer),
    }
}

/// The same for a call of a plan.
pub fn answer_plan<F: Family, H: Hasher<F>>(
    hasher: &H,
    call: PlanCall,
    words: &mut Words,
    answer: &mut Answer,
) -> Result<(), Refusal> {
    match call {
        PlanCall::Groups => plans::groups::<F, H>(hasher, words, answer),
        PlanCall::Plan => plans::plan::<F>(words),
        PlanCall::PlanAbove => plans::plan_above::<F, H>(hasher, words),
        PlanCall::PlanLeaf => plans::plan_leaf::<F>(words, answer),
        PlanCall::PlanLeafAbove => plans::plan_leaf_above::<F, H>(hasher, words),
        PlanCall::Positions => plans::positions::<F>(words, answer),
        PlanCall::PositionsLeaf => plans::positions_leaf::<F>(words, answer),
    }
}

/// The same for a call of proofs and lists of nodes that the line gives.
pub fn answer_given<F: Family, H: Hasher<F>>(
    hasher: &H,
    call: GivenCall,
    words: &mut Words,
    answer: &mut Answer,
) -> Result<(), Refusal> {
    match call {
        GivenCall::Check => proofs::check::<F, H>(hasher, words, answer),
        GivenCall::CheckDigests => proofs::check_digests::<F, H>(hasher, words, answer),
        GivenCall::CheckLeaf => proofs::check_leaf::<F, H>(hasher, words, answer),
        GivenCall::CheckLeafDigest => proofs::check_leaf_digest::<F, H>(hasher, words, answer),
        GivenCall::CheckMulti => proofs::check_multi::<F, H>(hasher, words, answer),
        GivenCall::CheckMultiDigests => {
            proofs::check_multi_digests::<F, H>(hasher, words, answer)
        }
        GivenCall::CheckPinned => proofs::check_pinned::<F, H>(hasher, words, answer),
        GivenCall::CheckPinnedDigests => {
            proofs::check_pinned_digests::<F, H>(hasher, words, answer)
        }
        GivenCall::Extract => proofs::extract::<F, H>(hasher, words, answer),
        GivenCall::MultiPositions => proofs::multi_positions::<F>(words, answer),
        GivenCall::Reconstruct => proofs::reconstruct::<F, H>(hasher, words, answer),
        GivenCall::SliceHistory => readers::slice_history::<F, H>(hasher, words, answer),
        GivenCall::SliceMulti => readers::slice_multi::<F, H::Digest>(words, answer),
        GivenCall::SliceRange => readers::slice_range::<F, H>(hasher, words, answer),
    }
}

/// The same for a call of bytes and digests.
pub fn answer_bytes<F: Family, H: Hasher<F>>(
    hasher: &H,
    call: BytesCall,
    words: &mut Words,
    answer: &mut Answer,
) -> Result<(), Refusal> {
    match call {
        BytesCall::CopyProof => codec::copy_proof::<F, H::Digest>(words, answer),
        BytesCall::LeafDigests => digests::leaf_digests::<F, H>(hasher, words, answer),
        BytesCall::NodeDigests => digests::node_digests::<F, H>(hasher, words, answer),
        BytesCall::ReadConfig => codec::read_config::<F, H::Digest>(words, answer),
        BytesCall::ReadHex => codec::decode(words, answer),
        BytesCall::ReadProof => codec::read_proof::<F, H::Digest>(words, answer),
        BytesCall::RootString => digests::root_string::<F, H>(hasher, words, answer),
        BytesCall::WriteChunk => codec::write_chunk::<H::Digest>(words, answer),
        BytesCall::WriteConfig => codec::write_config::<F, H::Digest>(words, answer),
        BytesCall::WriteHex => codec::encode(words, answer),
        BytesCall::WriteLocation => codec::write_location::<F>(words, answer),
        BytesCall::WritePosition => codec::write_position::<F>(words, answer),
        BytesCall::WriteProof => codec::write_proof::<F, H::Digest>(words, answer),
    }
}
