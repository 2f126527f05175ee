//! The program answers a script: lines of all commands, some of them refused or malformed.

use crate::client::Server;
use crate::input::Source;
use crate::tally::{Halt, Tally};
use merkle_core::codec::Write;
use merkle_core::digest::Digest;
use merkle_core::family::{Bagging, Family};
use merkle_core::{mmb, mmr};
use merkle_lines::hex_words::write_hex;
use merkle_lines::run::run;
use std::alloc::{AllocError, Global};

/// How many leaves a chapter of a script adds before it commits.
const ADDED: u64 = 500;

/// The most leaves whose proof a line checks.
const MOST_CHECKED: u64 = 20;

/// Lines, and what they are made of.
#[derive(Drop)]
struct Script {
    alloc: Global,
    lines: Vec<u8>,
    leaves: u64,
}

impl Script {
    // Appends a word, or a part of one.
    fn word(&mut self, word: &str) -> Result<(), AllocError> {
        self.lines.extend_from_slice(word.as_bytes())
    }

    // Appends a number, in front of which is a space.
    fn number(&mut self, number: u64) -> Result<(), Halt> {
        let Ok(digits) = number.to_string(self.alloc) else {
            return Err(Halt::OutOfMemory);
        };
        self.lines.push(b' ')?;
        self.lines.extend_from_slice(digits.as_bytes())?;
        Ok(())
    }

    // Appends the digits of the next element, in front of which is a space; `-` if it is empty.
    fn next_element(&mut self, source: &mut Source) -> Result<(), Halt> {
        let mut element = Vec::new(self.alloc);
        source.append(&mut element)?;
        self.digits(&element)
    }

    // Appends the digits of some bytes, in front of which is a space; `-` if there are none.
    fn digits(&mut self, bytes: &[u8]) -> Result<(), Halt> {
        let digits = granted!(write_hex(self.alloc, bytes));
        self.word(" ")?;
        self.word(if digits.is_empty() { "-" } else { &digits })?;
        Ok(())
    }

    // A line that checks the proof of leaves in a row, with the elements from the leaf `shown` on.
    fn check<F: Family>(
        &mut self,
        server: &Server<F>,
        start: u64,
        shown: u64,
        count: u64,
    ) -> Result<(), Halt> {
        let mut bytes = Vec::new(self.alloc);
        granted!(
            server
                .prove(start, start.saturating_add(count))?
                .write(&mut bytes)
        );
        self.word("check")?;
        self.number(start)?;
        self.number(server.inactive as u64)?;
        self.digits(server.root.as_bytes())?;
        self.digits(&bytes)?;
        for leaf in shown..shown.saturating_add(count) {
            self.digits(server.operations.get(leaf)?)?;
        }
        self.word("\n")?;
        Ok(())
    }

    // Lines that check proofs, of which some are refused.
    fn checks<F: Family>(
        &mut self,
        source: &mut Source,
        server: &Server<F>,
        lines: u64,
    ) -> Result<(), Halt> {
        for line in 0..lines {
            let count = if line % 4 == 0 {
                source.below(MOST_CHECKED).saturating_add(1)
            } else {
                1
            };
            let start = server.next_leaf(source, MOST_CHECKED);
            let shown = if line % 16 == 7 { 0 } else { start };
            self.check(server, start, shown, count)?;
        }
        Ok(())
    }

    // A line that adds a leaf.
    fn add(&mut self, source: &mut Source) -> Result<(), Halt> {
        self.word("add")?;
        self.next_element(source)?;
        self.word("\n")?;
        Ok(())
    }

    // A line that updates a leaf, of which some are pruned.
    fn update(&mut self, source: &mut Source) -> Result<(), Halt> {
        self.word("update")?;
        let leaf = source.below(self.leaves);
        self.number(leaf)?;
        self.next_element(source)?;
        self.word("\n")?;
        Ok(())
    }

    // A line that asks for the proof of leaves in a row.
    fn prove(&mut self, source: &mut Source, most: u64) -> Result<(), Halt> {
        let start = source.below(self.leaves);
        let end = start.saturating_add(source.below(most));
        self.word("prove")?;
        self.number(start)?;
        self.number(end)?;
        self.number(0)?;
        self.word("\n")?;
        Ok(())
    }

    // Lines that are refused.
    fn refused(&mut self, source: &mut Source) -> Result<(), Halt> {
        self.word("add 0\nupdate x 00\n\ncommit now\nroot 99")?;
        self.number(source.below(self.leaves))?;
        self.word("\n")?;
        Ok(())
    }

    // Lines that add leaves, update some, commit, ask for a root and for proofs, and prune.
    fn chapter(&mut self, source: &mut Source) -> Result<(), Halt> {
        for _ in 0..ADDED {
            self.add(source)?;
        }
        self.leaves = self.leaves.saturating_add(ADDED);
        self.word("commit\n")?;
        for _ in 0..ADDED / 5 {
            self.update(source)?;
            self.prove(source, 2)?;
        }
        for _ in 0..ADDED / 50 {
            self.prove(source, 50)?;
            self.refused(source)?;
        }
        self.word("commit\nroot 0\nprune")?;
        self.number(self.leaves / 4)?;
        self.word("\n")?;
        Ok(())
    }
}

// The answers to lines that begin with this one, add that many leaves, and check proofs of a server's journal.
fn answers<F: Family>(
    alloc: Global,
    source: &mut Source,
    first: &str,
    leaves: u64,
    bagging: Bagging,
) -> Result<Vec<u8>, Halt> {
    let mut script = Script {
        alloc,
        lines: Vec::new(alloc),
        leaves: 0,
    };
    script.word(first)?;
    for _ in 0..leaves / ADDED + 1 {
        script.chapter(source)?;
    }
    let server: Server<F> = Server::new(alloc, source, leaves / 10 + 100, bagging)?;
    script.checks(source, &server, leaves / 10)?;
    let mut reader = script.lines.as_slice();
    let mut written = Vec::new(alloc);
    granted!(run(alloc, &mut reader, &mut written));
    Ok(written)
}

/// Scripts for both families that add that many leaves.
pub fn run_script(
    alloc: Global,
    source: &mut Source,
    leaves: u64,
    tally: &mut Tally,
) -> Result<(), Halt> {
    let bagging = Bagging::BackwardFold;
    let written = answers::<mmr::Family>(alloc, source, "new mmr backward\n", leaves, bagging)?;
    tally.keep(&written);
    let bagging = Bagging::ForwardFold;
    let written = answers::<mmb::Family>(alloc, source, "new mmb forward\n", leaves, bagging)?;
    tally.keep(&written);
    Ok(())
}
