//! Commands that are run over files and sinks in memory.
use crate::{Words, goasm_main};
use goasm_base::{Bytes, MemShelf, MemSink, Name, Recorder};
use std::alloc::{AllocError, Global};
use std::process::Abort;

/// What a command is to answer: its status, and what the standard output and the standard error take.
pub type Answer<'a> = (u8, &'a [u8], &'a [u8]);

/// The numbers of the reads that fail, and of the writes to the standard output and to the standard error, each with how
/// many bytes it still takes.
#[derive(Clone, Copy)]
pub struct Failing<'a> {
    pub reads: &'a [u32],
    pub out: &'a [(u32, u32)],
    pub err: &'a [(u32, u32)],
}

/// No read and no write fails.
pub const NONE: Failing<'static> = Failing {
    reads: &[],
    out: &[],
    err: &[],
};

/// The text of a file or a word.
pub fn bytes(alloc: Global, text: &[u8]) -> Result<Bytes, AllocError> {
    Ok(Bytes::new(Vec::from_slice(alloc, text)?))
}

/// A file of this name.
pub fn file(alloc: Global, name: &[u8], text: &[u8]) -> Result<(Name, Bytes), AllocError> {
    Ok((
        Name::new(Vec::from_slice(alloc, name)?),
        bytes(alloc, text)?,
    ))
}

/// The words of a command.
pub fn words(alloc: Global, list: &[&[u8]]) -> Result<Words, AllocError> {
    let mut words = Vec::new(alloc);
    for word in list {
        words.push(bytes(alloc, word)?)?;
    }
    Ok(Words::new(words))
}

/// A sink that takes as many bytes as there is room.
pub fn sink(alloc: Global, room: usize, failing: &[(u32, u32)]) -> Result<MemSink, AllocError> {
    Ok(MemSink::new(vec![in alloc; 0u8; room]?, Vec::from_slice(alloc, failing)?))
}

/// Runs the words over the files, and tests the answer. What is run is told where it isn't the answer.
pub fn expect<R: Abort>(
    rt: &R,
    alloc: Global,
    what: &str,
    list: &[&[u8]],
    files: Vec<(Name, Bytes)>,
    failing: Failing<'_>,
    want: Answer<'_>,
) -> Result<(), AllocError> {
    let words = words(alloc, list)?;
    let mut files = MemShelf::new(files, Vec::from_slice(alloc, failing.reads)?);
    let mut out = sink(alloc, want.1.len() + 100, failing.out)?;
    let mut err = sink(alloc, want.2.len() + 100, failing.err)?;
    let status = goasm_main(alloc, &words, &mut files, &mut out, &mut err);
    assert_eq!(rt; out.taken(), want.1, "{what}");
    assert_eq!(rt; err.taken(), want.2, "{what}");
    assert_eq!(rt; status, want.0, "{what}");
    Ok(())
}

/// Runs the words over the files, and tests its status and the names that are asked for.
pub fn expect_reads<R: Abort>(
    rt: &R,
    alloc: Global,
    list: &[&[u8]],
    files: Vec<(Name, Bytes)>,
    failing: &[u32],
    want: (u8, &[&[u8]]),
) -> Result<(), AllocError> {
    let words = words(alloc, list)?;
    let files = MemShelf::new(files, Vec::from_slice(alloc, failing)?);
    let mut shelf = Recorder::new(alloc, files);
    let mut out = sink(alloc, 1000, NONE.out)?;
    let mut err = sink(alloc, 1000, NONE.err)?;
    let status = goasm_main(alloc, &words, &mut shelf, &mut out, &mut err);
    assert_eq!(rt; status, want.0, "the status");
    assert_eq!(rt; shelf.names.len(), want.1.len(), "how many reads");
    for (name, wanted) in shelf.names.iter().zip(want.1) {
        assert_eq!(rt; name.as_slice(), *wanted, "what is read");
    }
    Ok(())
}
