//! Files by their names.

ghost use Rattle.std.specs.Prelude.{◌≡◌, ◌≤◌, ◌<◌, ℕ, List, Option, None, Some, IfOk, IfErr, IfSome, length, map, take};
ghost use Rattle.f3_files.specs.Reading.{IsOf, AreOf, IsFaultOf, IsFaultAmong};

use f3_places::source::Source;
use std::alloc::{AllocError, Global};
use std::fs::{self, OpenFile};
use std::io::{self, Read};
use std::rt::Files;

/// The bytes that are read of a file at most: one more than all sources together may have.
pub const MOST_BYTES: usize = 16_777_217;

/// The bytes that are asked for at a time.
const PART: usize = 8_192;

/// Opens files by their names.
pub trait Opener {
    type File: Read + Drop;

    // the bytes of the file of a name, where they are known
    ghost contents: { Self → List ℕ → Option (List ℕ) };

    /// A reader of the file's bytes, or why there is none.
    fn open(&self, name: &str) -> io::Result<Self::File>
        ensures { IfOk result (λ f. IfSome (contents self.now name.now) (λ bytes. Self.File.remaining f ≡ Some bytes)) };
}

/// The files of the host.
#[derive(Drop)]
pub struct Disk<'a, R: Files> {
    pub rt: &'a R,
}

impl<'a, R: Files> Opener for Disk<'a, R> {
    type File = R::File;

    ghost contents = { λ _ _. None };

    fn open(&self, name: &str) -> io::Result<R::File> {
        fs::open(self.rt, name)
    }
}

/// Why the sources are not read.
#[derive(Drop)]
pub enum ReadFault<'a> {
    /// The first file that cannot be opened, or read to its end.
    Unreadable(&'a str),
    /// A growth of the host's memory was refused.
    Memory,
}

/// The sources of these files in order, or the first fault.
pub fn read_sources<'a, F: Opener>(
    alloc: Global,
    files: &F,
    names: &[&'a str],
) -> Result<Vec<Source>, ReadFault<'a>>
    ensures read { IfOk result (λ sources. AreOf (F.contents files.now) (map (λ name. name.now) names.now) sources.items) }
    ensures fault { IfErr result (IsFaultAmong (map (λ name. name.now) names.now)) }
{
    let mut sources = Vec::new(alloc);
    for name in names {
        match read_source(alloc, files, *name) {
            Ok(source) => match sources.push(source) {
                Ok(()) => {}
                Err(_) => return Err(ReadFault::Memory),
            },
            Err(fault) => return Err(fault),
        }
    }
    Ok(sources)
}

/// The source of a file.
fn read_source<'a, F: Opener>(
    alloc: Global,
    files: &F,
    name: &'a str,
) -> Result<Source, ReadFault<'a>>
    ensures read { IfOk result (IsOf (F.contents files.now) name.now) }
    ensures fault { IfErr result (IsFaultOf name.now) }
{
    match read_file(alloc, files, name) {
        Ok(Some(bytes)) => match String::from_str(alloc, name) {
            Ok(name) => Ok(Source { name, bytes }),
            Err(_) => Err(ReadFault::Memory),
        },
        Ok(None) => Err(ReadFault::Unreadable(name)),
        Err(_) => Err(ReadFault::Memory),
    }
}

/// The bytes of a file up to its end, or its first `MOST_BYTES`; None where it cannot be opened or read.
fn read_file<F: Opener>(alloc: Global, files: &F, name: &str) -> Result<Option<Vec<u8>>, AllocError>
    ensures bounded { IfOk result (λ found. IfSome found (λ v. length v.items ≤ 16777217)) }
    ensures bytes { IfOk result (λ found. IfSome found (λ v. IfSome (F.contents files.now name.now) (λ bytes. v.items ≡ take 16777217 bytes))) }
{
    match files.open(name) {
        Err(_) => Ok(None),
        Ok(mut file) => {
            let mut buffer = buffer(alloc)?;
            read_up_to(alloc, &mut file, MOST_BYTES, buffer.as_mut_slice())
        }
    }
}

/// A buffer for reading.
fn buffer(alloc: Global) -> Result<Vec<u8>, AllocError>
    ensures { IfOk result (λ v. 0 < length v.items) }
{
    let mut buffer = Vec::new(alloc);
    buffer.resize(PART, 0)?;
    Ok(buffer)
}

/// A reader's bytes up to its end, or the first of them, read through a buffer; None where a read
/// fails. Each turn takes a byte at least.
fn read_up_to<R: Read>(
    alloc: Global,
    reader: &mut R,
    most: usize,
    buffer: &mut [u8],
) -> Result<Option<Vec<u8>>, AllocError>
    requires { 0 < length buffer.old }
    ensures bounded { IfOk result (λ found. IfSome found (λ v. length v.items ≤ most)) }
    ensures bytes { IfOk result (λ found. IfSome found (λ v. IfSome (R.remaining reader.old) (λ bytes. v.items ≡ take most bytes))) }
{
    let mut bytes = Vec::new(alloc);
    while bytes.len() < most {
        let part = buffer.len().min(most - bytes.len());
        let n = match reader.read(&mut buffer[..part]) {
            Ok(n) => n,
            Err(_) => return Ok(None),
        };
        if n == 0 {
            bytes.shrink_to_fit();
            return Ok(Some(bytes));
        }
        bytes.extend_from_slice(&buffer[..n])?;
    }
    bytes.shrink_to_fit();
    Ok(Some(bytes))
}
