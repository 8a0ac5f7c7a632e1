//! The program: it runs `goasm_main` over the words that it was called with, the file system and the two streams.
#![tactic(auto)]

mod disk;
mod stream;
#[cfg(test)]
mod tests;
mod words;

use disk::Disk;
use goasm_run::goasm_main;
use std::process::ExitCode;
use stream::Stream;
use words::Called;

/// The status where there is no memory for the words.
const NO_MEMORY: u8 = 3;

fn main(rt: HostRuntime) -> ExitCode {
    let alloc = rt.alloc();
    let Ok(words) = words::words(&Called::new(&rt), alloc) else {
        return ExitCode::from(NO_MEMORY);
    };
    let mut shelf = Disk::new(&rt);
    let mut out = Stream::new(rt.stdout());
    let mut err = Stream::new(rt.stderr());
    ExitCode::from(goasm_main(alloc, &words, &mut shelf, &mut out, &mut err))
}
