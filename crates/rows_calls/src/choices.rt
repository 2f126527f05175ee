//! What lines make, in each family and with each hasher that `new` names.

use crate::names::{BAGGINGS, FAMILIES, FamilyName, HASHES, HashName, is_meant, read_hash};
use crate::world::World;
use merkle_core::digest::{Sha256Plain, Xor8};
use merkle_core::family::{Bagging, Family};
use merkle_core::hasher::Standard;
use merkle_core::{mmb, mmr};
use merkle_fixtures::keyed::Keyed;
use merkle_fixtures::{flat, pairs};
use rows_text::refusal::{Refusal, SYNTAX};
use std::alloc::Global;

/// What the lines so far have made in one family, by the hasher.
#[derive(Drop)]
pub enum Hashed<F: Family> {
    Sha256(World<F, Standard<Sha256Plain>>),
    Xor8(World<F, Standard<Xor8>>),
    Keyed(World<F, Keyed>),
}

impl<F: Family> Hashed<F> {
    fn new(alloc: Global, bagging: Bagging, hash: HashName, key: u8) -> Self {
        match hash {
            HashName::Sha256 => Hashed::Sha256(World::new(alloc, Standard::new(bagging))),
            HashName::Xor8 => Hashed::Xor8(World::new(alloc, Standard::new(bagging))),
            HashName::Keyed => Hashed::Keyed(World::new(alloc, Keyed::new(key, bagging))),
        }
    }
}

/// What the lines so far have made, by the family.
#[derive(Drop)]
pub enum Familiar {
    Mmr(Hashed<mmr::Family>),
    Mmb(Hashed<mmb::Family>),
    Flat(Hashed<flat::Family>),
    Pairs(Hashed<pairs::Family>),
}

impl Familiar {
    fn new(alloc: Global, family: FamilyName, bagging: Bagging, hash: HashName, key: u8) -> Self {
        match family {
            FamilyName::Mmr => Familiar::Mmr(Hashed::new(alloc, bagging, hash, key)),
            FamilyName::Mmb => Familiar::Mmb(Hashed::new(alloc, bagging, hash, key)),
            FamilyName::Flat => Familiar::Flat(Hashed::new(alloc, bagging, hash, key)),
            FamilyName::Pairs => Familiar::Pairs(Hashed::new(alloc, bagging, hash, key)),
        }
    }
}

/// What the lines so far have made, in each family and with each hasher that the last `new` named.
pub struct Choices {
    alloc: Global,
    pub all: Vec<Familiar>,
}

// Written out, it is proved once; derived, it would be proved again in the program.
impl Drop for Choices {
    fn drop(self) {
        let Choices { alloc: _, all: _ } = self;
    }
}

impl Choices {
    /// Nothing, of no family.
    pub fn new(alloc: Global) -> Self {
        Choices {
            alloc,
            all: Vec::new(alloc),
        }
    }

    /// Begins anew, in each family and with each hasher that is meant.
    pub fn open(&mut self, family: &str, bagging: &str, hash: &[&str]) -> Result<(), Refusal> {
        let (hash, key) = read_hash(self.alloc, hash)?;
        self.all.clear();
        for (name, bagging_meant) in &BAGGINGS {
            if is_meant(bagging, name) {
                self.open_hashes(family, *bagging_meant, hash, key)?;
            }
        }
        if self.all.is_empty() {
            Err(SYNTAX)
        } else {
            Ok(())
        }
    }

    fn open_hashes(
        &mut self,
        family: &str,
        bagging: Bagging,
        hash: &str,
        key: u8,
    ) -> Result<(), Refusal> {
        for (name, hash_meant) in &HASHES {
            if is_meant(hash, name) {
                self.open_families(family, bagging, *hash_meant, key)?;
            }
        }
        Ok(())
    }

    fn open_families(
        &mut self,
        family: &str,
        bagging: Bagging,
        hash: HashName,
        key: u8,
    ) -> Result<(), Refusal> {
        for (name, family_meant) in &FAMILIES {
            if is_meant(family, name) {
                let opened = Familiar::new(self.alloc, *family_meant, bagging, hash, key);
                self.all.push(opened)?;
            }
        }
        Ok(())
    }
}
