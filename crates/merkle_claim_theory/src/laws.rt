//! Laws of proofs against roots: the theory that the checks build on.
//!
//! Each function is empty. Its contract is a law of the definitions in `specs/`.
ghost use Rattle.merkle_claim_theory.specs.Audit.{AuditsRange, AuditsPair, HonestHasNoCollision};
ghost use Rattle.merkle_root_theory.specs.Check.{HonestRangeAccepted, PlanCheckSound, PairConsistent};
ghost use Rattle.merkle_root_theory.specs.Claim.{HonestAccepted, ClaimSound, PairAgrees};
ghost use Rattle.merkle_root_theory.specs.Collision.{AgreeOrCollide};
ghost use Rattle.merkle_claim_theory.specs.ClaimRoots.{MultiNamesRoot, PinnedNamesRoot};
ghost use Rattle.merkle_claim_theory.specs.ClaimRoots.{MultiOtherListCollides, MultiOtherYesCollides, PinnedOtherListCollides, PinnedOtherYesCollides};
ghost use Rattle.merkle_claim_theory.specs.Complete.{HonestMultiAccepted, HonestPinsAccepted};
ghost use Rattle.merkle_claim_theory.specs.Exact.{SamePeaks, HonestNeverCollides};
ghost use Rattle.merkle_root_theory.specs.Extract.{ExtractsNodes};
ghost use Rattle.merkle_claim_theory.specs.FirstCollision.{FindsFirst};
ghost use Rattle.merkle_root_theory.specs.ListRoot.{RootsAgree};
ghost use Rattle.merkle_claim_theory.specs.MultiClaim.{MultiClaimSound};
ghost use Rattle.merkle_claim_theory.specs.Multiproof.{HonestMultiIsAccepted, MultiSound, MultiSizeBound, MultiByCases};
ghost use Rattle.merkle_claim_theory.specs.Order.{PlacesInOrder, PlacesOnce};
ghost use Rattle.merkle_root_theory.specs.Outside.{OutsideIsLayout};
ghost use Rattle.merkle_claim_theory.specs.Rebuilt.{PinnedIsRebuilt, PinsGiveOldRoot};
ghost use Rattle.merkle_claim_theory.specs.Pinned.{HonestPinnedIsAccepted, AcceptedPinnedIsHonest, PinsAreOldPeaks, PinnedByCases};
ghost use Rattle.merkle_claim_theory.specs.PinnedClaim.{PinnedClaimSound};
ghost use Rattle.merkle_root_theory.specs.Range.{HonestIsAccepted, RangeSound};
ghost use Rattle.merkle_root_theory.specs.Reconstruction.{LeadsIsAccepted};
ghost use Rattle.merkle_root_theory.specs.RootNames.{RootIsNamed, YesNamesRoot, EqualRootsCollide, OtherListCollides, OtherYesCollides};
ghost use Rattle.merkle_root_theory.specs.RootString.{RootStringTellsAll};
ghost use Rattle.merkle_claim_theory.specs.Store.{PartIsAccepted, SiblingsAreRead};
ghost use Rattle.merkle_claim_theory.specs.ThreeLeaves.{ThreeLeaves};
ghost use Rattle.merkle_claim_theory.specs.Verdict.{CheckDecides, ExtractsOnce, Verdicts};

/// Laws of claims: trees of places in which some digests are given and the rest are computed.
pub fn claims<D>()
    // Two claims of one shape and one value agree in what is given, or they collide.
    ensures collide { AgreeOrCollide D }

    // An honest claim has the value of the list.
    ensures honest { HonestAccepted D }

    // A claim with the value of a list is honest, or collides with the list.
    ensures others { ClaimSound D }

    // Two claims of one value agree at the leaves that both choose, or collide.
    ensures pairs { PairAgrees D }
{}

/// Laws of collisions, and of the strings and places in which they are.
pub fn collisions<D>()
    // The search finds the first collision, if there is any.
    ensures first { FindsFirst D }

    // The string of a root determines each of its parts.
    ensures strings { RootStringTellsAll D }

    // Two lists with the same peak digests are the same, or collide at a node.
    ensures peaks { SamePeaks D }

    // An honest claim never collides with its list.
    ensures honest { HonestNeverCollides D }

    // The inputs of a list are in the order of the places.
    ensures order { PlacesInOrder D }

    // No place occurs there with two arguments.
    ensures once { PlacesOnce D }
{}

/// What a root that a check accepts determines.
pub fn root_names<D>()
    // The family's byte, the bagging and the leaf count are part of what was hashed.
    ensures names { YesNamesRoot D }
    ensures multi { MultiNamesRoot D }
    ensures pinned { PinnedNamesRoot D }

    // This holds for every root that is computed, of a list or of a proof of any kind.
    ensures computed { RootIsNamed D }

    // Equal roots of two families or two baggings are two different strings with one hash.
    ensures apart { EqualRootsCollide D }

    // This is also so if an accepted root is that of a list of a different family or bagging.
    ensures lists { OtherListCollides D }

    // And if it is accepted under both.
    ensures checks { OtherYesCollides D }

    // The same holds of checks of scattered leaves, and of checks with pins.
    ensures multi_lists { MultiOtherListCollides D }
    ensures multi_checks { MultiOtherYesCollides D }
    ensures pinned_lists { PinnedOtherListCollides D }
    ensures pinned_checks { PinnedOtherYesCollides D }
{}

/// Laws of claims for which the proof also supplies redundant digests, of nodes that are computed.
pub fn told_digests<D>()
    // Honest multi claims hold and have the value of the list.
    ensures multi { HonestMultiAccepted D }

    // So do honest pinned claims.
    ensures pins { HonestPinsAccepted D }

    // No other multi claims do, except for collisions.
    ensures no_other_multi { MultiClaimSound D }

    // Nor do other pinned claims.
    ensures no_other_pins { PinnedClaimSound D }
{}

/// The parts of a plan outside a range are those of the layout, in its order.
pub fn outside_nodes()
    ensures { OutsideIsLayout }
{}

/// Laws of range checks against a list that is given by its leaf at each location, and of two
/// checks against one root.
pub fn list_checks<D>()
    ensures honest { HonestRangeAccepted D }
    ensures others { PlanCheckSound D }
    ensures pairs { PairConsistent D }
    ensures audit { AuditsRange D }
    ensures audit_pair { AuditsPair D }
    ensures clear { HonestHasNoCollision D }
{}

/// A wrong proof of one of three leaves under exclusive or, which is accepted, and the place of its
/// collision.
pub fn three_leaves()
    ensures { ThreeLeaves }
{}

/// What a range check accepts: the honest inputs and, except for located collisions, no others.
pub fn range_checks<D>()
    ensures honest { HonestIsAccepted D }
    ensures others { RangeSound D }

    // The inputs that lead to a root without an error are those that are accepted against it.
    ensures leads { LeadsIsAccepted D }

    // The check is one test.
    ensures decides { CheckDecides D }

    // What is extracted are nodes of the list.
    ensures nodes { ExtractsNodes D }

    // No position is extracted twice.
    ensures once { ExtractsOnce D }
{}

/// What a check of scattered leaves accepts: the honest inputs and, except for located collisions,
/// no others.
pub fn multi_checks<D>()
    ensures honest { HonestMultiIsAccepted D }
    ensures others { MultiSound D }

    // The two cases, some leaves and none, have one form.
    ensures cases { MultiByCases D }

    // A location needs at most 122 digests.
    ensures at_most_122_each { MultiSizeBound D }
{}

/// What a range check with pins accepts: the honest inputs with the honest pins and, except for
/// located collisions, no others.
pub fn pinned_checks<D>()
    ensures honest { HonestPinnedIsAccepted D }
    ensures others { AcceptedPinnedIsHonest D }

    // The two cases, some leaves and none, have one form.
    ensures cases { PinnedByCases D }

    // The honest pins are the peak digests of the leaves before the range.
    ensures peaks { PinsAreOldPeaks D }

    // The check is the range check and a comparison of what lies before the range with what is
    // rebuilt from the pins.
    ensures parts { PinnedIsRebuilt D }

    // The root over honest pins, for any number of inactive peaks, is that of the leaves before the
    // range.
    ensures old_roots { PinsGiveOldRoot D }
{}

/// Laws of proofs that are derived from a proof of a larger range.
pub fn sub_proofs<D>()
    // What proves a range proves its parts.
    ensures accepted { PartIsAccepted D }

    // The siblings below a peak are read by position.
    ensures read { SiblingsAreRead D }
{}

/// What audits return for accepted inputs: honest, or the first collision.
pub fn verdicts<D>()
    ensures { Verdicts D }
{}

/// The root over the plan of a list's peaks is the root of the list, for every number of inactive
/// peaks and both baggings.
pub fn roots<D>()
    ensures { RootsAgree D }
{}
