//! The loop that reads lines and writes their answers.
ghost use Rattle.std.specs.Prelude.{◌≡◌, ◌<◌, ◌≤◌, ◌==◌, ℕ, [], ◌∷◌, ◌++◌, List, Option, None, OnOk, IfOk, false, length, slice_index, take};
ghost use Rattle.std.specs.List.{AllByRecursion};
ghost use Rattle.std.specs.Io.KnownBytes.{Appends, Consumes, IsAtEnd, Keeps};
ghost use Rattle.merkle_lines.specs.AnswerText.{answer_text};
ghost use Rattle.merkle_lines.specs.HoldsState.{HoldsState};
ghost use Rattle.merkle_lines.specs.Transcript.{SessionState, IsLineAnswered, IsTranscript, ContinuesTo, lines_after, lines_of};

use crate::answer::Answer;
use crate::session::Session;
use merkle_base::room::make_room;
use merkle_commands::command::read_command;
use std::alloc::{AllocError, Global};
use std::io;
use std::str::from_utf8;
use thiserror::Error;

/// What stops the program before the end of its input.
#[derive(Clone, Copy, Debug, PartialEq, Eq, Error)]
pub enum RunError {
    /// The reader returned an error that is not an interruption.
    #[error("merkle: read failed")]
    ReadFailed,
    /// The writer returned an error.
    #[error("merkle: write failed")]
    WriteFailed,
    /// A memory request for a line was refused.
    #[error("merkle: out of memory")]
    OutOfMemory,
}

impl From<AllocError> for RunError {
    fn from(_error: AllocError) -> Self {
        RunError::OutOfMemory
    }
}

// The present session, and the line that is read and not ended yet.
#[derive(Drop)]
struct Answerer {
    alloc: Global,
    session: Session,
    line: Vec<u8>,
}

impl Answerer {
    // Answers the present line.
    fn answer_line(&mut self) -> Answer
        ensures line { self.new.line.items ≡ self.old.line.items }
        ensures answered { (told : Option SessionState) → HoldsState self.old.session told → (v : Option SessionState) × HoldsState self.new.session v
            × IsLineAnswered told self.old.line.items v (answer_text result) }
    {
        let Ok(line) = from_utf8(self.line.as_slice()) else {
            return Answer::Fault("Syntax");
        };
        match read_command(line) {
            Some(command) => self.session.answer(self.alloc, command),
            None => Answer::Fault("Syntax"),
        }
    }

    // Writes the answer to the present line, and begins the next one.
    fn end_line<W: io::Write>(&mut self, writer: &mut W) -> Result<(), RunError>
        ensures next { OnOk result (self.new.line.items ≡ []) }
        ensures answered { OnOk result ((told : Option SessionState) → HoldsState self.old.session told → (v : Option SessionState) × (text : List ℕ)
            × HoldsState self.new.session v
            × IsLineAnswered told self.old.line.items v text × Appends (W.contents writer.old) (W.contents writer.new) (text ++ 10 ∷ [])) }
    {
        let answer = self.answer_line();
        self.line.clear();
        match writeln!(writer, "{answer}") {
            Ok(()) => Ok(()),
            Err(_) => Err(RunError::WriteFailed),
        }
    }

    // Takes the first of the next bytes, of which there are some: those up to one that ends a line, which is answered,
    // or all. Returns the bytes after them. Room in the line is made by the requests that pushing the bytes would make.
    fn take_line<'b, W: io::Write>(
        &mut self,
        bytes: &'b [u8],
        writer: &mut W,
    ) -> Result<&'b [u8], RunError>
        requires some { 0 < length bytes.now }
        ensures fewer { IfOk result (λ rest. length rest.now < length bytes.now) }
        ensures taken { IfOk result (λ rest. (told : Option SessionState) → HoldsState self.old.session told
            → (v : Option SessionState) × (output : List ℕ) × HoldsState self.new.session v × Appends (W.contents writer.old) (W.contents writer.new) output
            × (first : List ℕ) × (first ++ rest.now ≡ bytes.now) × ContinuesTo told self.old.line.items first output v self.new.line.items) }
    {
        let (begun, rest) = bytes.split_at(begun_length(bytes));
        make_room(&mut self.line, begun.len())?;
        self.line.extend_from_slice(begun)?;
        match rest.split_first() {
            Some((_, after)) => {
                self.end_line(writer)?;
                Ok(after)
            }
            None => Ok(rest),
        }
    }

    // Takes the next bytes, and answers each line that they end.
    fn take<W: io::Write>(&mut self, bytes: &[u8], writer: &mut W) -> Result<(), RunError>
        ensures { OnOk result ((told : Option SessionState) → HoldsState self.old.session told → (v : Option SessionState) × (output : List ℕ)
            × HoldsState self.new.session v
            × Appends (W.contents writer.old) (W.contents writer.new) output × ContinuesTo told self.old.line.items bytes.now output v self.new.line.items) }
    {
        let mut rest = bytes;
        while !rest.is_empty() {
            rest = self.take_line(rest, writer)?;
        }
        flush(writer)
    }

    // Answers a last line that no byte ended.
    fn finish<W: io::Write>(&mut self, writer: &mut W) -> Result<(), RunError>
        ensures { OnOk result ((told : Option SessionState) → HoldsState self.old.session told → (output : List ℕ)
            × Appends (W.contents writer.old) (W.contents writer.new) output × IsTranscript told (lines_after [] self.old.line.items) output) }
    {
        if self.line.is_empty() {
            return flush(writer);
        }
        self.end_line(writer)?;
        flush(writer)
    }

    // Answers each line of the reader up to the end of input. There is no structure and no line
    // yet.
    fn answer_all<R: io::Read, W: io::Write>(
        &mut self,
        reader: &mut R,
        writer: &mut W,
    ) -> Result<(), RunError>
        requires absent { HoldsState self.old.session None }
        requires begun { self.old.line.items ≡ [] }
        ensures transcript { OnOk result ((input output : List ℕ) × Consumes (R.remaining reader.old) (R.remaining reader.new) input
            × IsAtEnd (R.remaining reader.new) × Appends (W.contents writer.old) (W.contents writer.new) output × IsTranscript None (lines_of input) output) }
    {
        let mut buffer = [0u8; 4096];
        for _ in 0..u64::MAX {
            match reader.read(&mut buffer) {
                Ok(0) => return self.finish(writer),
                Ok(count) => self.take(&buffer[..count], writer)?,
                Err(e) => {
                    if e.kind() != io::ErrorKind::Interrupted {
                        return Err(RunError::ReadFailed);
                    }
                }
            }
        }
        Err(RunError::ReadFailed)
    }
}

// The index of the first line feed, or the length.
fn begun_length(bytes: &[u8]) -> usize
    ensures within { result ≤ length bytes.now }
    ensures open { AllByRecursion (λ b. (b == 10) ≡ false) (take result bytes.now) }
    ensures ends { result < length bytes.now → slice_index bytes.now result ≡ 10 }
{
    bytes
        .iter()
        .position(|byte| *byte == b'\n')
        .unwrap_or(bytes.len())
}

// Flushes the writer.
fn flush<W: io::Write>(writer: &mut W) -> Result<(), RunError>
    ensures { Keeps (W.contents writer.old) (W.contents writer.new) }
{
    match writer.flush() {
        Ok(()) => Ok(()),
        Err(_) => Err(RunError::WriteFailed),
    }
}

/// Answers each line of the reader by one line on the writer, up to the end of input.
///
/// Each byte `0A` ends a line; the last line need not end with it. A command that runs out of
/// memory is answered by `error OutOfMemory` and does not stop the loop.
///
/// # Errors
///
/// - `ReadFailed` if the reader returns an error that is not an interruption
/// - `WriteFailed` if the writer returns an error
/// - `OutOfMemory` if a memory request for a line is refused
///
/// On error the answers that were already written remain.
///
/// # Examples
///
/// ```
/// let mut input: &[u8] = b"new mmr forward xor8\nadd 01\ncommit\nroot 0\n";
/// let mut output = Vec::new(alloc);
/// let result = run(alloc, &mut input, &mut output);
/// assert!(rt; result.is_ok());
/// assert!(rt; output.as_slice() == b"ok\nok 0\nok 1 1\n00\n".as_slice());
/// ```
pub fn run<R: io::Read, W: io::Write>(
    alloc: Global,
    reader: &mut R,
    writer: &mut W,
) -> Result<(), RunError>
    ensures transcript { OnOk result ((input output : List ℕ) × Consumes (R.remaining reader.old) (R.remaining reader.new) input
        × IsAtEnd (R.remaining reader.new) × Appends (W.contents writer.old) (W.contents writer.new) output × IsTranscript None (lines_of input) output) }
{
    let mut answerer = Answerer {
        alloc,
        session: Session::Absent,
        line: Vec::new(alloc),
    };
    answerer.answer_all(reader, writer)
}
