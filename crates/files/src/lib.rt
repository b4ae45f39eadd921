// Files for the programs: one read whole into lent bytes, or opened to be read part by part; and what standard error says of one that
// can't be read.
#![tactic(auto)]

ghost use Rattle.std.specs.Prelude.{◌<◌, IfOk, IsErr, IsUtf8, length, take};
ghost use Rattle.std.specs.Io.KnownBytes.{Consumes, IsAtEnd};
ghost use Rattle.std.specs.Io.{ReadsAtMost, StartsWith};

use std::fs::File;
use std::io::{Cursor, Error, ErrorKind, Read, Write};
use std::rt::Files;
use std::{io, str};

// std puts this behind the words of a system error, and then its number.
const BEFORE_NUMBER: &str = " (os error ";

// Reads a file until `bytes` is full or the file ends, and answers how many bytes it read.
pub fn read_whole<R: Files>(rt: &R, path: &[u8], bytes: &mut [u8]) -> io::Result<usize>
    ensures { ReadsAtMost result bytes.new }
{
    fill(&mut open(rt, path)?, bytes)
}

// Opens a file to read it. A path that is not UTF-8 is refused, since std takes a path only as text.
pub fn open<R: Files>(rt: &R, path: &[u8]) -> io::Result<R::File>
    ensures { ¬ IsUtf8 path.now → IsErr result }
{
    let Ok(text) = str::from_utf8(path) else {
        return Err(Error::new(ErrorKind::InvalidFilename, "the path is not UTF-8"));
    };
    File::open(rt, text)
}

// Reads until `bytes` is full or the reader ends. A while, since only a read tells how much it gave.
fn fill<R: Read>(reader: &mut R, bytes: &mut [u8]) -> io::Result<usize>
    ensures bound { ReadsAtMost result bytes.new }
    ensures read { IfOk result (λ n. Consumes (R.remaining reader.old) (R.remaining reader.new) (take n bytes.new)) }
    ensures end { IfOk result (λ n. n < length bytes.new → IsAtEnd (R.remaining reader.new)) }
{
    let mut done = 0;
    while done < bytes.len() {
        let got = reader.read(&mut bytes[done..])?;
        if got == 0 {
            return Ok(done);
        }
        done += got;
    }
    Ok(done)
}

// Says on standard error that a file can't be read: its path, and the words of the error.
pub fn fail(stderr: &impl Print, path: &[u8], error: &Error) {
    let mut text = Cursor::new([0u8; 128]);
    let _ = write!(text, "{error}");
    let said = str::from_utf8(text.get_ref()).unwrap_or("");
    let _ = stderr.write_all(path);
    let _ = stderr.write_all(b": ");
    let _ = stderr.write_all(words(said).as_bytes());
    let _ = stderr.write_all(b"\n");
}

// The words of an error, without the number behind a system error's and without zeros.
fn words(said: &str) -> &str
    ensures { StartsWith said.now result.now }
{
    match said.split_once(BEFORE_NUMBER) {
        Some((words, _)) => words,
        None => said.trim_end_matches('\0'),
    }
}
