//! The program `rows`: calls of Merkle structures on standard input, each answered beside itself.
//!
//! A line is a call: its words, with one space between each two. It is written again with its answer after an arrow. An empty
//! line, and one that begins with `#`, is written as it is. So what is read and what is written stand line by line, and
//! rows of worked values can be read as data. `docs/ROWS.md` lists the calls.
#![tactic(auto)]

mod audits;
mod dispatch;
mod session;

use crate::session::Session;
use std::io;

fn main(rt: HostRuntime) -> io::Result<()> {
    let mut session = Session::new(rt.alloc());
    for line in rt.lines(rt.alloc()) {
        let line = line?;
        match session.reply(line.as_str()) {
            Ok(reply) => println!(rt; "{}", reply.as_str())?,
            Err(refusal) => println!(rt; "{line} -> {refusal}")?,
        }
    }
    Ok(())
}
