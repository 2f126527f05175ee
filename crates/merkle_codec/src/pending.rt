//! Pending chunks: what a grafted structure keeps of a chunk that does not have a single root yet.
ghost use Rattle.std.specs.Prelude.{◌≡◌, ◌≢◌, ◌++◌, [], ℕ, List, Option, None, Ok, IfOk, IfErr, IsOk, IsErrOf, OnOk, OnErr, MatchOption, refl, ⊤};
ghost use Rattle.std.specs.Option.{option_copied};

use crate::codec::{EncodeSize, Read, Write};
use merkle_base::error::{DecodeError, OutOfMemory};
use merkle_base::family::Graftable;
use merkle_digest::digest::Digest;
use merkle_topology::{mmb, mmr};
use std::alloc::Global;
use std::fmt::Debug;

/// What is kept of a pending chunk: a digest, or nothing.
///
/// The value is determined by the digest. Every pending chunk is read back from its encoding,
/// unless memory is refused.
pub trait PendingChunk<D>: Clone + Debug + Eq + Write + Read<Cfg = ()> {
    // the digest that is kept, if any
    ghost held: { Self → Option D };

    /// Returns the digest that is kept, if any.
    fn as_ref(&self) -> Option<&D>
        ensures { option_copied result ≡ held self.now };

    /// Creates the pending chunk that keeps this digest, or none.
    ///
    /// # Errors
    ///
    /// - `Invalid` if no pending chunk of this type keeps it
    fn try_from_option(option: Option<D>) -> Result<Self, DecodeError>
        ensures ok { IfOk result (λ x. held x ≡ option) }
        ensures refused { IfErr result (λ e. (e ≡ DecodeError.Invalid) × ((x : Self) → held x ≢ option)) };

    ghost one_holds: { (x y : Self) → held x ≡ held y → x ≡ y };

    ghost same_equal: { (x y : Self) → Self.same x y → x ≡ y };

    ghost same_spelling: { (x : Self) → Self.spelled_by x ≡ Self.spelling x };

    ghost all_within: { (x : Self) → Self.within tt x };
}

/// A family on whose nodes structures are grafted, with what it keeps of a chunk that does not have
/// a single root yet.
///
/// The Mountain Range has the root of a chunk as soon as all leaves of the chunk are added, so it
/// keeps nothing. The Mountain Belt may get the root only later.
pub trait Grafting<D>: Graftable {
    /// What is kept of a pending chunk with digests of type `D`.
    type PendingChunk: PendingChunk<D>;
}

impl<D: Drop> Grafting<D> for mmr::Family {
    type PendingChunk = Unused;
}

impl<D: Digest> Grafting<D> for mmb::Family {
    type PendingChunk = Option<D>;
}

/// The pending chunk of a family that needs none. It keeps no digest, and its encoding is empty.
#[derive(Clone, Copy, PartialEq, Eq, Debug, Default)]
pub struct Unused;

impl EncodeSize for Unused {
    ghost spelling = { λ _. [] };

    ghost same = { ◌≡◌ };

    fn encode_size(&self) -> usize {
        0
    }

    ghost one_spelling = { λ _ _ _ _ e. (refl, e) };
}

impl Write for Unused {
    fn write(&self, _out: &mut Vec<u8>) -> Result<(), OutOfMemory> {
        Ok(())
    }
}

impl Read for Unused {
    type Cfg = ();

    ghost spelled_by = { λ _. [] };

    ghost within = { λ _ _. ⊤ };

    ghost refuses = { λ _ _ _. ⊥ };

    /// Reads nothing and never fails.
    fn read(_alloc: Global, _input: &mut &[u8], _cfg: &()) -> Result<Self, DecodeError> {
        Ok(Unused)
    }

    ghost refused_spells_none = { λ _ _ _ h. Prim.absurd h };

    ghost one_refusal = { λ _ _ _ _ h. Prim.absurd h };
}

impl<D: Drop> PendingChunk<D> for Unused {
    ghost held = { λ _. None };

    fn as_ref(&self) -> Option<&D> {
        None
    }

    /// Creates the pending chunk without a digest.
    ///
    /// # Errors
    ///
    /// - `Invalid` if `option` is a digest
    fn try_from_option(option: Option<D>) -> Result<Self, DecodeError>
        ensures { MatchOption option (IsOk result) (λ _. IsErrOf result DecodeError.Invalid) }
    {
        match option {
            Some(_) => Err(DecodeError::Invalid),
            None => Ok(Unused),
        }
    }

    ghost one_holds = { λ _ _ _. refl };

    ghost same_equal = { λ _ _ e. e };

    ghost same_spelling = { λ _. refl };

    ghost all_within = { λ _. tt };
}

impl<D: Digest> PendingChunk<D> for Option<D> {
    ghost held = { λ x. x };

    fn as_ref(&self) -> Option<&D> {
        Option::as_ref(self)
    }

    /// Returns `option` itself; never fails.
    fn try_from_option(option: Option<D>) -> Result<Self, DecodeError>
        ensures { result ≡ Ok option }
    {
        Ok(option)
    }

    ghost one_holds = { λ _ _ e. e };

    ghost same_equal = { λ _ _ e. e };

    ghost same_spelling = { λ _. refl };

    ghost all_within = { λ _. tt };
}
