//! What the lines have created so far, for each kind of structure.
ghost use Rattle.std.specs.Prelude.{◌≡◌, ℕ, List, Option, Some, codes};
ghost use Rattle.merkle_commands.specs.Commands.{IsCommand};
ghost use Rattle.merkle_lines.specs.AnswerText.{answer_text};
ghost use Rattle.merkle_lines.specs.StructureState.{empty_structure};
ghost use Rattle.merkle_lines.specs.HoldsState.{HoldsState};
ghost use Rattle.merkle_lines.specs.Transcript.{SessionState, IsCommandAnswered};

use crate::answer::Answer;
use crate::structure::Structure;
use merkle_commands::command::{Command, FamilyName, HashName};
use merkle_core::digest::{Sha256Plain, Xor8};
use merkle_core::family::Bagging;
use merkle_core::{mmb, mmr};
use std::alloc::Global;

/// What the lines so far have created.
#[derive(Drop)]
pub enum Session {
    /// No structure: there was no `new` yet.
    Absent,
    /// A Mountain Range over SHA-256.
    MmrSha256(Structure<mmr::Family, Sha256Plain>),
    /// A Mountain Range over the exclusive or.
    MmrXor8(Structure<mmr::Family, Xor8>),
    /// A Mountain Belt over SHA-256.
    MmbSha256(Structure<mmb::Family, Sha256Plain>),
    /// A Mountain Belt over the exclusive or.
    MmbXor8(Structure<mmb::Family, Xor8>),
}

impl Session {
    fn open(alloc: Global, family: FamilyName, bagging: Bagging, hash: HashName) -> Session
        ensures { HoldsState result (Some (record { family = family; bagging = bagging; hash = hash; structure = empty_structure })) }
    {
        match (family, hash) {
            (FamilyName::Mmr, HashName::Sha256) => {
                Session::MmrSha256(Structure::new(alloc, bagging))
            }
            (FamilyName::Mmr, HashName::Xor8) => Session::MmrXor8(Structure::new(alloc, bagging)),
            (FamilyName::Mmb, HashName::Sha256) => {
                Session::MmbSha256(Structure::new(alloc, bagging))
            }
            (FamilyName::Mmb, HashName::Xor8) => Session::MmbXor8(Structure::new(alloc, bagging)),
        }
    }

    /// Carries out a command, and returns its answer.
    ///
    /// If an `add`, `update` or `commit` fails, there is no pending batch any more, and the
    /// committed structure and its list of leaf digests are unchanged.
    pub fn answer(&mut self, alloc: Global, command: Command<'_>) -> Answer
        ensures { IsCommand command.entry → (told : Option SessionState) → HoldsState self.old told → (u : Option SessionState) × HoldsState self.new u
            × IsCommandAnswered told command.entry u (answer_text result) }
    {
        match command {
            Command::New {
                family,
                bagging,
                hash,
            } => {
                *self = Session::open(alloc, family, bagging, hash);
                Answer::Done
            }
            Command::Ask(request) => match self {
                Session::Absent => Answer::Fault("NoStructure"),
                Session::MmrSha256(structure) => structure.answer(alloc, request),
                Session::MmrXor8(structure) => structure.answer(alloc, request),
                Session::MmbSha256(structure) => structure.answer(alloc, request),
                Session::MmbXor8(structure) => structure.answer(alloc, request),
            },
        }
    }
}
