// What the programs share: a file is read, or made and named, an argument is read, a word of digits is a number, a refusal is printed.
#![tactic(auto)]

mod arguments;
mod buffer;
mod cases;
mod refusal;
mod saved;
mod word;

ghost use Rattle.std.specs.Prelude.{◌≡◌, ◌≤◌, length, IfOk, IfErr, IsUtf8};
ghost use Rattle.programs.specs.Counts.{IsPrefixLen};

pub use arguments::{argument, argument_count};
pub use buffer::filled;
pub use cases::{Part, split_string, string};
pub use refusal::RefusalNumbers;
pub use saved::{give_name, put_aside};
use std::io::{ErrorKind, Read};
use std::rt::Files;
use std::{fs, io};
pub use word::number;

// A name as text; the library opens no other.
fn as_text(name: &[u8]) -> io::Result<&str>
    ensures { IfErr result (λ e. ¬ (IsUtf8 name.now)) }
{
    std::str::from_utf8(name).map_err(|_| io::Error::new(
        ErrorKind::InvalidInput,
        "the name is not UTF-8",
    ))
}

// The file of this name; none where it cannot be opened, which is not the same as one that is there and empty.
fn open_file<R: Files>(files: &R, path: &[u8]) -> io::Result<Option<R::File>>
    ensures { IfErr result (λ e. ¬ (IsUtf8 path.now)) }
{
    match fs::open(files, as_text(path)?) {
        Err(_) => Ok(None),
        Ok(file) => Ok(Some(file)),
    }
}

// Reads until the buffer is full, the input ends or a read fails. How many bytes were put at its start.
// Kept: no call of the library fills a lent buffer and says how far; `read_exact` says little after an error, and `read_to_end` needs the heap.
fn read_full<R: Read>(input: &mut R, buf: &mut [u8]) -> usize
    ensures { IsPrefixLen result buf.new }
{
    let mut done = 0;
    while done < buf.len() {
        match input.read(&mut buf[done..]) {
            Ok(n) if n > 0 => done += n,
            _ => break,
        }
    }
    done
}

// Reads a file, as far as the buffer goes: one byte more than a file may have tells that it is too long. A missing file counts as empty; one that cannot be read
// counts as far as it was read. The one error is that of a name that is not UTF-8, and it leaves the buffer as it was.
pub fn load(files: &impl Files, path: &[u8], buf: &mut [u8]) -> io::Result<usize>
    ensures read { IfOk result (λ n. IsPrefixLen n buf.new) }
    ensures not_text { IfErr result (λ e. (buf.new ≡ buf.old) × ¬ (IsUtf8 path.now)) }
{
    match open_file(files, path)? {
        None => Ok(0),
        Some(mut file) => Ok(read_full(&mut file, buf)),
    }
}

// The same, and lends the bytes that were read.
pub fn loaded<'a>(files: &impl Files, path: &[u8], buf: &'a mut [u8]) -> io::Result<&'a [u8]>
    ensures read { IfOk result (λ bytes. length bytes.now ≤ length buf.old) }
    ensures not_text { IfErr result (λ e. ¬ (IsUtf8 path.now)) }
{
    let n = load(files, path, buf)?;
    Ok(&buf[..n])
}

// Prints a word. What cannot be printed is left out.
// Kept: what is printed are bytes, which no format takes.
pub fn say(out: &impl Print, word: &[u8]) {
    let _ = out.write_all(word);
}
