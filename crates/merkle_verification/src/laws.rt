//! Laws of the calls of a store.
//!
//! Each function is empty. Its contract is a law of the definitions in `specs/`.
ghost use Rattle.merkle_verification.specs.StoreCalls.{NoPartIsRefused, AnsweredIsAccepted, PartHasPartDigests};

/// Laws of a call that returns the proofs of a store.
pub fn store_calls<F, D, Peaks, Heights>()
    // It returns a proof for every part of the range of the store.
    ensures unrefused { NoPartIsRefused F D }

    // The check accepts every proof that it returns for such a part.
    ensures accepted { AnsweredIsAccepted F D Peaks Heights }

    // Its elements have the leaf digests that they have in the whole range.
    ensures digests { PartHasPartDigests D }
{}
