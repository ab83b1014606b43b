#![tactic(auto)]

// Runs a word log from the standard input, and prints what its questions are answered.
mod input;
mod question;
mod run;
mod scratch;
#[cfg(test)]
mod tests;
mod text;

use frames::every::Every;
use frames::live::Live;
use input::read_log;
use run::run;
use std::{env, io};

// Only the open frames count if the first argument is `live`.
fn is_live(rt: &HostRuntime) -> io::Result<bool> {
    Ok(
        env::args(rt)?
            .nth(1)
            .is_some_and(|word| word.as_str() == "live"),
    )
}

fn main(rt: HostRuntime) -> io::Result<()> {
    let input = read_log(&mut rt.stdin(), rt.alloc())?;
    let text = if is_live(&rt)? {
        run(Live::new(), input.log(), rt.alloc())?
    } else {
        run(Every::new(), input.log(), rt.alloc())?
    };
    rt.print(text.as_str())
}
