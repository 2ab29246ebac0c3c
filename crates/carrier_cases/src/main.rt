// Judges every case of the file `cases` in the present folder (second/README.md: a limit of nesting and a file, each a string), then the file `file.sx`, and prints
// one line for each. A file that is not there is passed over. The stored cases and the lines that are expected come from the second program alone.
#![tactic(auto)]

ghost use Rattle.std.specs.Prelude.{◌≡◌, ◌<◌, ◌≤◌, length, take};

use sexp::Carrier;
use std::fs;
use std::io::Read;
use std::rt::Files;

// A part of the case file.
#[derive(Clone, Copy)]
struct Part {
    from: usize,
    to: usize,
}

// Reads a file whole, as far as the buffer goes.
// Kept: crate `programs` has the same for a file's bytes, and builds on more than this program is a test of.
fn load<R: Read + Drop>(mut file: R, buf: &mut [u8]) -> usize
    ensures { (result ≤ length buf.new) × (result ≡ length (take result buf.new)) }
{
    let mut done = 0;
    // Kept: each turn reads as many bytes as the file gives, so the count runs over no range.
    while done < buf.len() {
        match file.read(&mut buf[done..]) {
            Ok(n) if n > 0 => done += n,
            _ => break,
        }
    }
    done
}

// The string at an offset; where none stands, nothing up to the end.
fn string(s: &[u8], at: usize) -> Part
    requires { at < length s.now }
    ensures { (at < result.to) × ((result.from ≤ result.to) × (result.to ≤ length s.now)) }
{
    match sexp::plain(s, at) {
        None => Part {
            from: s.len(),
            to: s.len(),
        },
        Some((from, n)) => Part { from, to: from + n },
    }
}

// A digit's value.
fn digit(s: &[u8], at: usize) -> usize
    ensures { result ≤ 255 }
{
    sexp::byte(s, at).saturating_sub(b'0') as usize
}

// What a string of one or two digits says.
fn limit(s: &[u8]) -> usize {
    if s.len() == 1 {
        digit(s, 0)
    } else {
        digit(s, 0) * 10 + digit(s, 1)
    }
}

// What cannot be printed is left out.
// Kept: the carrier's answer has no printed form but in this program and `carrier_examples`.
fn show(out: &impl Print, v: Carrier) {
    let _ = match v {
        Carrier::Sound => println!(out; "sound"),
        Carrier::Fault(at) => println!(out; "fault {at}"),
        Carrier::Deep(at) => println!(out; "deep {at}"),
    };
}

// Judges the case at an offset, and answers where the next one starts.
fn case(out: &impl Print, s: &[u8], at: usize) -> usize
    requires { at < length s.now }
    ensures { at < result }
{
    let Part { from: a, to: b } = string(s, at);
    if b == s.len() {
        return b;
    }
    let Part { from: c, to: d } = string(s, b);
    show(out, sexp::canonical(&s[c..d], limit(&s[a..b])));
    d
}

fn cases(out: &impl Print, s: &[u8]) {
    let mut at = 0;
    // Kept: each turn jumps over a whole case, so the offset runs over no range.
    while at < s.len() {
        at = case(out, s, at);
    }
}

// Bytes for a file.
fn blank() -> [u8; 524288]
    ensures { 524288 ≡ length result }
{
    [0; 524288]
}

fn the_cases(rt: &(impl Files + Print)) {
    let Ok(file) = fs::open(rt, "cases") else {
        return;
    };
    let mut room = blank();
    let n = load(file, &mut room);
    cases(rt, &room[..n]);
}

fn the_file(rt: &(impl Files + Print)) {
    let Ok(file) = fs::open(rt, "file.sx") else {
        return;
    };
    let mut room = blank();
    let n = load(file, &mut room);
    show(rt, sexp::canonical(&room[..n], 64));
}

fn main(rt: HostRuntime) {
    the_cases(&rt);
    the_file(&rt);
}
