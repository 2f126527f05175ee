//! The program `merkle`: commands on standard input, one line of answer for each.
#![tactic(auto)]

ghost use Rattle.std.specs.Prelude.{◌≡◌, cond};
ghost use Rattle.std.specs.Process.{exit_status};
ghost use Rattle.std.specs.Result.{is_ok};

use merkle_lines::run::{RunError, run};
use std::io::{self, BufWriter};
use std::process::ExitCode;

// Returns the exit status: success if every line was answered.
fn exit_code(answered: &Result<(), RunError>) -> ExitCode
    ensures { exit_status result ≡ cond (is_ok answered.now) 0 1 }
{
    match answered {
        Ok(()) => ExitCode::SUCCESS,
        Err(_) => ExitCode::FAILURE,
    }
}

fn main(rt: HostRuntime) -> ExitCode {
    // `run` flushes when it has answered what it has read.
    let answered = match BufWriter::new(rt.alloc(), io::writer(&rt)) {
        Ok(mut writer) => run(rt.alloc(), &mut rt.reader(), &mut writer),
        Err(_) => Err(RunError::OutOfMemory),
    };
    if let Err(error) = &answered {
        // If this fails too, there is no way left to report the error.
        let _ = rt.eprintln(error);
    }
    exit_code(&answered)
}
