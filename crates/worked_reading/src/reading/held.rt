//! What readers and writers in memory hold.

use crate::told::shown;
use pipe_schema::{Bytes, List};
use pipe_stream::{
    JobReader, MemReader, NamedBytes, SureReader, SureWriter, read_whole, write_whole,
};
use std::alloc::{AllocError, Global};

/// A file of a name and some text.
fn named(alloc: Global, name: &str, text: &str) -> Result<NamedBytes, AllocError> {
    Ok(NamedBytes {
        name: Bytes::from_slice(alloc, name.as_bytes())?,
        bytes: Bytes::from_slice(alloc, text.as_bytes())?,
    })
}

/// Two files of one name, and another.
fn files(alloc: Global) -> Result<List<NamedBytes>, AllocError> {
    let mut files = List::new(alloc);
    files.push(named(alloc, "a", "first")?)?;
    files.push(named(alloc, "a", "second")?)?;
    files.push(named(alloc, "b", "third")?)?;
    Ok(files)
}

/// All that stands under a name, or that a call failed.
pub(crate) fn text_named<R: JobReader>(
    alloc: Global,
    input: &mut R,
    name: &[u8],
) -> Result<String, AllocError> {
    if input.open_named(name).is_err() {
        return String::from_str(alloc, "failed");
    }
    match read_whole(alloc, input) {
        Ok(bytes) => String::from_str(alloc, shown(bytes.as_slice())),
        Err(_) => String::from_str(alloc, "failed"),
    }
}

/// What a reader gives for three names, of which it knows two.
fn texts_named<R: JobReader>(alloc: Global, input: &mut R) -> Result<String, AllocError> {
    let mut texts = String::new(alloc);
    for name in ["a", "b", "c"] {
        let text = text_named(alloc, input, name.as_bytes())?;
        texts.push_str(format!(in alloc; "{name}: {text}\n")?.as_str())?;
    }
    Ok(texts)
}

pub(crate) fn by_a_reader(alloc: Global) -> Result<String, AllocError> {
    let mut input = MemReader::new(Bytes::new(alloc), files(alloc)?, 2, List::new(alloc));
    texts_named(alloc, &mut input)
}

pub(crate) fn by_a_reader_that_fails_once(alloc: Global) -> Result<String, AllocError> {
    let mut failing = List::new(alloc);
    failing.push(1)?;
    let mut input = MemReader::new(Bytes::new(alloc), files(alloc)?, 2, failing);
    texts_named(alloc, &mut input)
}

pub(crate) fn by_a_sure_reader(alloc: Global) -> Result<String, AllocError> {
    let mut input = SureReader::new(Bytes::new(alloc), files(alloc)?);
    texts_named(alloc, &mut input)
}

/// What a writer with room for 5 bytes tells after each piece.
pub(crate) fn by_a_sure_writer(alloc: Global) -> Result<String, AllocError> {
    let mut out = SureWriter::new(alloc, 5)?;
    let mut texts = String::new(alloc);
    for piece in ["abc", "de", "f", ""] {
        let _ = write_whole(&mut out, piece.as_bytes());
        let told = out.bytes().map_or("nothing told", |bytes| shown(bytes));
        texts.push_str(format!(in alloc; "{piece}: {told}\n")?.as_str())?;
    }
    Ok(texts)
}
