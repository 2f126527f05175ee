//! What the lines so far have made, and the answer to a line.

use crate::dispatch;
use rows_calls::choices::Choices;
use rows_text::answer::Answer;
use rows_text::calls::{Call, find_call};
use rows_text::refusal::{Refusal, SYNTAX};
use std::alloc::Global;

/// What the lines so far have made.
#[derive(Drop)]
pub struct Session {
    alloc: Global,
    choices: Choices,
}

impl Session {
    /// Nothing, of no family.
    pub fn new(alloc: Global) -> Self {
        Session {
            alloc,
            choices: Choices::new(alloc),
        }
    }

    // Does what a call says in each family and with each hasher. The answers are to be the same.
    fn answer_all(
        &mut self,
        call: Call,
        words: &[&str],
        answer: &mut Answer,
    ) -> Result<(), Refusal> {
        let Some((first, others)) = self.choices.all.split_first_mut() else {
            return Err(SYNTAX);
        };
        let result = dispatch::answer(first, call, words, answer);
        let mut are_same = true;
        for other in others {
            let mut next = Answer::new(self.alloc);
            are_same &= result == dispatch::answer(other, call, words, &mut next);
            are_same &= answer.as_str() == next.as_str();
        }
        if are_same {
            result
        } else {
            Err(Refusal::Plain("differ"))
        }
    }

    // Does what a line says, and writes the answer.
    fn answer(&mut self, line: &str, answer: &mut Answer) -> Result<(), Refusal> {
        let words: Vec<&str> = line.split(' ').collect(self.alloc)?;
        match *words.as_slice() {
            ["new", family, bagging, ref hash @ ..] => {
                self.choices.open(family, bagging, hash)?;
                answer.end()
            }
            [name, ref rest @ ..] => match find_call(name, words.len()) {
                Some(call) => self.answer_all(call, rest, answer),
                None => Err(SYNTAX),
            },
            [] => Err(SYNTAX),
        }
    }

    /// The line as it is written: with its answer after an arrow, or as it is where it is no call.
    pub fn reply(&mut self, line: &str) -> Result<Answer, Refusal> {
        let mut reply = Answer::new(self.alloc);
        reply.text(line);
        if !line.is_empty() && !line.starts_with('#') {
            let mut answer = Answer::new(self.alloc);
            self.answer(line, &mut answer)?;
            reply.text(" -> ");
            reply.text(answer.as_str());
        }
        reply.whole()?;
        Ok(reply)
    }
}
