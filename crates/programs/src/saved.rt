// A file is made whole under another name, and then it gets its own: so whoever reads under its own name never meets a part of it.
use crate::{as_text, say};
use std::fs::{OpenFile, OpenOptions};
use std::io::{Cursor, Write};
use std::rt::Files;
use std::{fs, io};

// Writes bytes to an open file, which is then shut.
fn fill<F: Write + OpenFile + Drop>(mut file: F, bytes: &[u8]) -> io::Result<()> {
    file.write_all(bytes)?;
    file.sync_all()
}

// Makes a file of these bytes under a name that must be free, or leaves nothing of it.
fn make(files: &impl Files, name: &[u8], bytes: &[u8]) -> io::Result<()> {
    let name = as_text(name)?;
    let file = OpenOptions::new()
        .write(true)
        .create_new(true)
        .open(files, name)?;
    let filled = fill(file, bytes);
    if filled.is_err() {
        let _ = fs::remove_file(files, name);
    }
    filled
}

// Prints a line: what the caller says, and why something failed, in words alone.
// Kept: what is printed are bytes, which no format takes.
fn tell(err: &impl Print, said: &[u8], why: io::Error) {
    let mut text = Cursor::new([0u8; 256]);
    let _ = write!(text, "{why}");
    let length = (text.position() as usize).min(256);
    let text = text.into_inner();
    let all = std::str::from_utf8(&text[..length]).unwrap_or("");
    let (words, _) = all.split_once(" (os error ").unwrap_or((all, ""));
    say(err, said);
    say(err, b": ");
    say(err, words.as_bytes());
    say(err, b"\n");
}

// Makes a file of these bytes under a name that must be free. Whether that was done; if not, a line on standard error, which begins with what the caller says, tells why, and
// nothing is left of the file.
// Kept: a failure is told here, so whether the bytes were written is all that is left to say.
pub fn put_aside(
    files: &impl Files,
    err: &impl Print,
    name: &[u8],
    said: &[u8],
    bytes: &[u8],
) -> bool {
    match make(files, name, bytes) {
        Ok(()) => true,
        Err(why) => {
            tell(err, said, why);
            false
        }
    }
}

// Gives a file another name, or leaves nothing of it.
fn rename(files: &impl Files, aside: &[u8], name: &[u8]) -> io::Result<()> {
    let aside = as_text(aside)?;
    let renamed = rename_text(files, aside, name);
    if renamed.is_err() {
        let _ = fs::remove_file(files, aside);
    }
    renamed
}

fn rename_text(files: &impl Files, aside: &str, name: &[u8]) -> io::Result<()> {
    fs::rename(files, aside, as_text(name)?)
}

// Gives a file its own name, whatever stood under that before. Whether that was done; if not, a line on standard error tells why, and nothing is left of the file.
// Kept: it renames where `put_aside` writes; what both tell of a failure is `tell`.
pub fn give_name(
    files: &impl Files,
    err: &impl Print,
    aside: &[u8],
    name: &[u8],
    said: &[u8],
) -> bool {
    match rename(files, aside, name) {
        Ok(()) => true,
        Err(why) => {
            tell(err, said, why);
            false
        }
    }
}
