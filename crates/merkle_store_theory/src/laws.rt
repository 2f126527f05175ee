//! Laws of stores, and of the proofs that they return.
//!
//! Each function is empty. Its contract is a law of the definitions in `specs/`.
ghost use Rattle.std.specs.Prelude.{◌≡◌, [], ◌∷◌, Some, None};
ghost use Rattle.merkle_base.specs.declared.family.Bagging.TheVariants.{ForwardFold, BackwardFold};
ghost use Rattle.merkle_store_theory.specs.StoreLaws.{StoreReadsClaim, StoreAnswers, StoreIsAccepted, HonestStoreIsHonest};
ghost use Rattle.merkle_store_theory.specs.StoreLaws.{AnsweredIsHeld, ShorterIsRefused, ShorterIsNext};
ghost use Rattle.merkle_store_theory.specs.StoreProof.{store_proof, store_refusal};
ghost use Rattle.merkle_store_theory.specs.StoreReads.{ReadsByPosition};
ghost use Rattle.merkle_store_theory.specs.StoreRows.{position_scheme, last_three, all_seven, first_six, last_of_seven, of_three, first_of_three, first_of_fifteen};

/// What a store returns, inside its range and beyond.
pub fn stores<D>()
    // Inside its range the digests are those that the claim of the proof has for the part.
    ensures claim { StoreReadsClaim D }

    // There is no error inside its range.
    ensures answers { StoreAnswers D }

    // The check accepts what is returned there, with the elements of the part.
    ensures accepted { StoreIsAccepted D }

    // The store of an honest proof returns the honest proofs of its parts.
    ensures honest { HonestStoreIsHonest D }

    // If there is no error, inside its range or not, every node that is read has a pair.
    ensures held { AnsweredIsHeld D }

    // A folded prefix that is nonempty and shorter than that of the store is an error, which
    // reports the first of the peaks folded in the store that is not wholly before the range.
    ensures shorter { ShorterIsRefused D }

    // It is also the first of all peaks that is not.
    ensures next { ShorterIsNext D }

    // The proof and the error are determined by the positions that a plan of the range reads.
    ensures positions { ReadsByPosition D }
{}

/// The definitions of stores, computed on small cases.
pub fn worked_stores()
    // Forward, the store of the last of seven leaves holds the fold of the peaks 6 and 9 as one
    // digest, and only the pair of peak 10.
    ensures last_pairs { last_of_seven.pairs ≡ (10, 10) ∷ [] }
    ensures last_prefix { last_of_seven.prefix ≡ Some 609 }
    ensures last_suffix { last_of_seven.suffix ≡ None }

    // A prefix that is shorter and nonempty is an error, which reports the first peak that is not
    // wholly before the range.
    ensures last_shorter { store_refusal (position_scheme ForwardFold) last_of_seven 4 6 ≡ Some 9 }
    ensures last_shorter_whole { store_refusal (position_scheme ForwardFold) last_of_seven 5 7 ≡ Some 9 }

    // An empty prefix is no error.
    ensures last_none { store_refusal (position_scheme ForwardFold) last_of_seven 0 6 ≡ None }
    ensures last_none_proof { store_proof (position_scheme ForwardFold) last_of_seven 0 6 ≡ 10 ∷ [] }

    // Then an individual peak may be missing, or a sibling.
    ensures last_single { store_refusal (position_scheme ForwardFold) last_of_seven 0 3 ≡ Some 9 }
    ensures last_siblings { store_refusal (position_scheme ForwardFold) last_of_seven 1 6 ≡ Some 0 }

    // For its own range it returns its own proof.
    ensures last_own { store_proof (position_scheme ForwardFold) last_of_seven 6 7 ≡ 609 ∷ [] }

    // A longer prefix continues the store's own fold, or begins with its pairs if it has none.
    ensures prefix_more { store_proof (position_scheme ForwardFold) (last_three ForwardFold 0) 6 7 ≡ 609 ∷ [] }
    ensures prefix_first { store_proof (position_scheme ForwardFold) (all_seven ForwardFold) 6 7 ≡ 609 ∷ [] }
    ensures prefix_same { store_proof (position_scheme ForwardFold) (last_three ForwardFold 0) 4 5 ≡ 6 ∷ 10 ∷ 8 ∷ [] }

    // Backward, only the inactive peaks before a range are folded, and the active peaks after it.
    ensures inactive_two { store_proof (position_scheme BackwardFold) (last_three BackwardFold 2) 6 7 ≡ 609 ∷ [] }
    ensures inactive_one { store_proof (position_scheme BackwardFold) (last_three BackwardFold 1) 6 7 ≡ 6 ∷ 9 ∷ [] }
    ensures inactive_none { store_proof (position_scheme BackwardFold) (last_three BackwardFold 0) 6 7 ≡ 6 ∷ 9 ∷ [] }
    ensures suffix_first { store_proof (position_scheme BackwardFold) (all_seven BackwardFold) 0 4 ≡ 910 ∷ [] }
    ensures suffix_more { store_proof (position_scheme BackwardFold) (first_six 0) 0 4 ≡ 910 ∷ [] }
    ensures suffix_inactive { store_proof (position_scheme BackwardFold) (first_six 2) 0 4 ≡ 9 ∷ 10 ∷ [] }

    // The store of the first of three leaves proves the last one, whose suffix is empty.
    ensures three_pairs { first_of_three.pairs ≡ (0, 1) ∷ (1, 3) ∷ (2, 0) ∷ [] }
    ensures three_suffix { first_of_three.suffix ≡ Some 7 }
    ensures three_proof { store_proof of_three first_of_three 2 3 ≡ 0 ∷ [] }
    ensures three_answers { store_refusal of_three first_of_three 2 3 ≡ None }

    // The store of the first of fifteen leaves folds the peaks 21, 24 and 25.
    ensures fifteen_suffix { first_of_fifteen.suffix_peaks ≡ 21 ∷ 24 ∷ 25 ∷ [] }
    ensures fifteen_own { store_proof (position_scheme BackwardFold) first_of_fifteen 0 1 ≡ 212425 ∷ 1 ∷ 5 ∷ 13 ∷ [] }

    // A suffix that does not end with them is an error, which reports the first of them.
    ensures fifteen_shorter { store_refusal (position_scheme BackwardFold) first_of_fifteen 8 9 ≡ Some 21 }
    ensures fifteen_single { store_refusal (position_scheme BackwardFold) first_of_fifteen 12 13 ≡ Some 21 }

    // If the suffix is the same, a sibling may be missing.
    ensures fifteen_sibling { store_refusal (position_scheme BackwardFold) first_of_fifteen 4 5 ≡ Some 8 }
{}
