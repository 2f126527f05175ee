//! Lines of the program `merkle`: runs that its own lines don't show, and readers and writers that fail.

use merkle_lines::run::{RunError, run};
use std::alloc::Global;
use std::io;

/// Whether the lines have these answers, and the run ends well.
fn has_answers(alloc: Global, lines: &[u8], answers: &str) -> bool {
    let mut reader = lines;
    let mut written = Vec::new(alloc);
    let result = run(alloc, &mut reader, &mut written);
    result.is_ok() && written.as_slice() == answers.as_bytes()
}

// What no line of a text file is: no lines, lines before the first structure, a last line that nothing ends, and lines with
// bytes of no text.
const RUNS: [(&[u8], &str); 10] = [
    (b"", ""),
    // a structure is asked for where the line is well-formed
    (
        b"commit\nadd 01\nroot 0\nadd 0\nnew mmr forward xor8\ncommit\n",
        "error NoStructure\nerror NoStructure\nerror NoStructure\nerror Syntax\nok\nok 0 0\n",
    ),
    (
        b"prune 0\nprove 0 1 0\ncheck 0 0 01 00\naudit 0 0 00\nupdate 0 00\nnew mmb forward xor8\nadd 01\n",
        "error NoStructure\nerror NoStructure\nerror NoStructure\nerror NoStructure\nerror NoStructure\nok\nok 0\n",
    ),
    (b"new mmr forward xor8\ncommit\nroot 0", "ok\nok 0 0\n00\n"),
    (b"new mmr backward xor8\nroot 0", "ok\n01\n"),
    (b"commits", "error Syntax\n"),
    (b"check 0 00", "error Syntax\n"),
    (b"add 01\r\n", "error Syntax\n"),
    (b"add 01\0\n", "error Syntax\n"),
    (b"add \xff\n", "error Syntax\n"),
];

#[test]
fn runs(rt: HostRuntime) {
    for (lines, answers) in &RUNS {
        assert!(rt; has_answers(rt.alloc(), lines, answers), "{answers}");
    }
}

// A session of every command, with updates and errors.
const LINES: &[u8] =
    b"new mmr backward xor8\nadd 01\nadd 02\ncommit\nadd 04\nupdate 0 11\ncommit\nroot 0\nprune 2\nroot 0\n\
    prove 2 3 0\ncheck 2 0 15 03000110 04\ncheck 2 1 15 03000110 04\ncheck 2 0 15 0300011000 04\ncheck 2 0 15 030001 04\n\
    prove 0 1 0\nprune 4\nupdate 0 22\ncheck 0 0 01 000000\ncheck 0 0 0101 0000\n\
    audit 2 0 03000110 04\naudit 2 0 03000111 04";

const ANSWERS: &[u8] = b"ok\nok 0\nok 1\nok 2 3\nok 2\nok\nok 3 4\n15\nok 2 3\n15\n\
    03000110\nyes\nno\nerror Trailing\nerror EndOfBuffer\n\
    error ElementPruned\nerror LeafOutOfBounds\nerror ElementPruned\nyes\nerror Syntax\n\
    honest\nrejected\n";

// A reader in memory that gives few bytes at a time. The call with none left fails, and those after it do not; before that, each
// call with an odd number of calls left is interrupted.
#[derive(Drop)]
struct FailingReader<'a> {
    rest: &'a [u8],
    calls: usize,
    has_failed: bool,
}

impl io::Read for FailingReader<'_> {
    fn read(&mut self, buf: &mut [u8]) -> io::Result<usize> {
        if self.calls == 0 && !self.has_failed {
            self.has_failed = true;
            return Err(io::Error::from(io::ErrorKind::TimedOut));
        }
        self.calls = self.calls.saturating_sub(1);
        if self.calls % 2 == 0 && !self.has_failed {
            return Err(io::Error::from(io::ErrorKind::Interrupted));
        }
        let count = buf.len().min(self.rest.len()).min(5);
        let (front, back) = self.rest.split_at(count);
        buf[..count].copy_from_slice(front);
        self.rest = back;
        Ok(count)
    }
}

// A writer in memory that takes few bytes at a time. The call with none left, of writes and flushes, fails, and those after it do not.
#[derive(Drop)]
struct FailingWriter {
    bytes: [u8; 256],
    len: usize,
    calls: usize,
    has_failed: bool,
}

impl FailingWriter {
    fn new(calls: usize) -> FailingWriter {
        FailingWriter {
            bytes: [0; 256],
            len: 0,
            calls,
            has_failed: false,
        }
    }

    fn written(&self) -> &[u8] {
        if self.len <= 256 {
            &self.bytes[..self.len]
        } else {
            &[]
        }
    }

    // Counts a call, and refuses the one with none left.
    fn count(&mut self) -> io::Result<()> {
        if self.calls == 0 && !self.has_failed {
            self.has_failed = true;
            return Err(io::Error::from(io::ErrorKind::BrokenPipe));
        }
        self.calls = self.calls.saturating_sub(1);
        Ok(())
    }
}

impl io::Write for FailingWriter {
    fn write(&mut self, buf: &[u8]) -> io::Result<usize> {
        self.count()?;
        if self.len >= 256 {
            return Err(io::Error::from(io::ErrorKind::BrokenPipe));
        }
        let count = buf.len().min(3).min(256 - self.len);
        self.bytes[self.len..self.len + count].copy_from_slice(&buf[..count]);
        self.len += count;
        Ok(count)
    }

    fn flush(&mut self) -> io::Result<()> {
        self.count()
    }
}

/// How a run of the lines ended: with which result, whether what is written begins the answers, whether it is all of them, and
/// whether a read or a write failed.
#[derive(Drop)]
struct Ended {
    result: Result<(), RunError>,
    is_start: bool,
    is_whole: bool,
    has_failed: bool,
}

/// Runs the lines with a reader and a writer that fail after so many calls.
fn run_failing(alloc: Global, reads: usize, writes: usize) -> Ended {
    let mut reader = FailingReader {
        rest: LINES,
        calls: reads,
        has_failed: false,
    };
    let mut writer = FailingWriter::new(writes);
    let result = run(alloc, &mut reader, &mut writer);
    let written = writer.written();
    Ended {
        result,
        is_start: ANSWERS.starts_with(written),
        is_whole: ANSWERS == written,
        has_failed: reader.has_failed || writer.has_failed,
    }
}

#[test]
fn each_read_fails_in_turn(rt: HostRuntime) {
    for tried in 0..1000 {
        let ended = run_failing(rt.alloc(), tried, 10_000);
        assert!(rt; ended.is_start, "{tried} reads");
        match ended.result {
            Ok(()) => {
                assert!(rt; ended.is_whole && !ended.has_failed && tried > 10);
                return;
            }
            Err(error) => assert!(rt; error == RunError::ReadFailed, "{tried} reads"),
        }
    }
    panic!(rt; "no run ends well");
}

#[test]
fn each_write_fails_in_turn(rt: HostRuntime) {
    for tried in 0..1000 {
        let ended = run_failing(rt.alloc(), 10_000, tried);
        assert!(rt; ended.is_start, "{tried} writes");
        match ended.result {
            Ok(()) => {
                assert!(rt; ended.is_whole && !ended.has_failed && tried > 10);
                return;
            }
            Err(error) => assert!(rt; error == RunError::WriteFailed, "{tried} writes"),
        }
    }
    panic!(rt; "no run ends well");
}

const TEXTS: [(RunError, &str); 3] = [
    (RunError::ReadFailed, "merkle: read failed"),
    (RunError::WriteFailed, "merkle: write failed"),
    (RunError::OutOfMemory, "merkle: out of memory"),
];

#[test]
fn texts(rt: HostRuntime) {
    for (error, text) in &TEXTS {
        let shown = error.to_string(rt.alloc()).ok().expect(&rt, "memory");
        assert!(rt; shown.as_str() == *text, "{shown}");
    }
}
