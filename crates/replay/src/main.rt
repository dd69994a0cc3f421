//! replay [-a] [-f] FILE...: prints each trace's lines in turn; with no file, those of standard input. -a adds the action
//! records to each line, -f the fields of each queue; an option holds for the files after it. What goes wrong is told on
//! standard error, and the files after it are still shown; where that can't be written either, nothing is left to tell it on.
#![tactic(auto)]

ghost use Rattle.std.specs.Prelude.{◌≡◌, ◌≤◌, length};

use desk::Part;
use play::Show;
use std::env::FillError;
use std::fmt::InlineText;
use std::fs::File;
use std::io::{ErrorKind, Read};
use std::rt::{Env, Files};
use std::{io, str};
use text::{LINE_ROOM, Page};
use trace::{MAX_RECORDS, MAX_TRACE};

// What is shown of the files to come, and whether one was named yet.
#[derive(Clone, Copy, Default)]
struct Wanted {
    show: Show,
    named: bool,
}

// What is put together before it is written.
const TEXT_ROOM: usize = 65536;

// One byte more than a trace may have tells a longer one.
fn trace_space() -> [u8; MAX_TRACE + 1] {
    [0; MAX_TRACE + 1]
}

// An error's text without its number, which the library puts behind what the system says.
fn without_number(text: &str) -> &str {
    match text.split_once(" (os error ") {
        Some((words, _)) => words,
        None => text,
    }
}

// A line on standard error, which `err` is here and below: what failed, a colon, and what the system says of it.
fn fail(err: &impl Print, what: &[u8], e: &io::Error) {
    let text = InlineText::<256>::of(e);
    let words = without_number(text.as_str());
    let _ = err.write_all(what);
    let _ = println!(err; ": {words}");
}

// What stands on the page goes out, and the page is empty again.
fn flush(rt: &impl Print, err: &impl Print, page: &mut Page) {
    let at = page.at;
    if let Some(text) = page.out.get(..at)
        && let Err(e) = rt.write_all(text)
    {
        fail(err, b"standard output", &e);
    }
    page.at = 0;
}

// The end, in one write with what stands before it where there is room.
fn finish(rt: &impl Print, err: &impl Print, page: &mut Page, records: u32) {
    if !page.has_room(LINE_ROOM) {
        flush(rt, err, page);
    }
    page.end(records);
    flush(rt, err, page);
}

// A good trace, a pageful at a time. Each turn runs a record at least, since the page has room for several; so there are turns
// for as many as a trace can have.
fn run(rt: &impl Print, err: &impl Print, s: &[u8], show: Show, page: &mut Page) {
    let count = trace::count(s);
    let mut part = Part::begin(s, page);
    for _ in 0..=MAX_RECORDS {
        part = part.piece(s, show, page);
        if part.next == count {
            finish(rt, err, page, u32::try_from(count).unwrap_or(MAX_RECORDS));
            return;
        }
        flush(rt, err, page);
    }
}

fn show_trace(rt: &impl Print, err: &impl Print, s: &[u8], show: Show) {
    let mut out = [0u8; TEXT_ROOM];
    let mut page = Page::new(&mut out);
    match trace::verdict(s) {
        Ok(()) => run(rt, err, s, show, &mut page),
        Err(e) => {
            page.bad(e.number());
            flush(rt, err, &mut page);
        }
    }
}

// Reads until the space is full, the input ends or a read fails, and answers how many bytes stand at its start.
fn read_full(from: &mut impl Read, space: &mut [u8]) -> usize
    ensures within { result ≤ length space.new }
    ensures long { length space.new ≡ length space.old }
{
    let mut done = 0;
    while done < space.len() {
        match from.read(&mut space[done..]) {
            Ok(n) if 0 < n => done += n,
            _ => break,
        }
    }
    done
}

// A read of no bytes fails for a folder, and for a file that can't be read.
fn readable(from: &mut impl Read) -> io::Result<()> {
    from.read(&mut [])?;
    Ok(())
}

fn show_input(rt: &impl Print, err: &impl Print, from: &mut impl Read, name: &[u8], show: Show) {
    if let Err(e) = readable(from) {
        fail(err, name, &e);
        return;
    }
    let mut s = trace_space();
    let n = read_full(from, &mut s);
    show_trace(rt, err, &s[..n], show);
}

// The library opens a file only by a name that is text.
fn open_read<R: Files>(rt: &R, path: &[u8]) -> io::Result<R::File> {
    match str::from_utf8(path) {
        Ok(path) => File::open(rt, path),
        Err(_) => Err(io::Error::new(ErrorKind::InvalidFilename, "The name is not UTF-8")),
    }
}

fn show_file(rt: &(impl Print + Files), err: &impl Print, path: &[u8], show: Show) {
    match open_read(rt, path) {
        Ok(mut file) => show_input(rt, err, &mut file, path, show),
        Err(e) => fail(err, path, &e),
    }
}

fn refuse_option(err: &impl Print, word: &[u8]) {
    let _ = err.write_all(b"replay: no option ");
    let _ = err.write_all(word);
    let _ = err.write_all(b"; there are -a (action records) and -f (queue fields)\n");
}

// One argument: an option changes what is shown, a file is shown.
fn argument(rt: &(impl Print + Files), err: &impl Print, word: &[u8], mut w: Wanted) -> Wanted {
    match word {
        b"-a" => w.show.actions = true,
        b"-f" => w.show.fields = true,
        [b'-', _, ..] => {
            refuse_option(err, word);
            // Whoever mistyped an option is not left waiting for standard input.
            w.named = true;
        }
        _ => {
            show_file(rt, err, word, w.show);
            w.named = true;
        }
    }
    w
}

// More than any path has.
const WORD_ROOM: usize = 4096;

// What the system calls a name that is too long.
const ENAMETOOLONG: i32 = 36;

// The arguments in turn, and what is wanted after the last.
fn arguments(rt: &(impl Print + Files + Env), err: &impl Print) -> Wanted {
    let mut space = [0u8; WORD_ROOM];
    let mut w = Wanted::default();
    for i in 1..usize::MAX {
        match rt.arg(i, &mut space) {
            Ok(n) => w = argument(rt, err, &space[..n], w),
            Err(FillError::TooLong) => {
                let e = io::Error::from_raw_os_error(ENAMETOOLONG);
                fail(err, b"argument", &e);
            }
            Err(FillError::NotPresent) => break,
        }
    }
    w
}

fn main(rt: HostRuntime) {
    let err = rt.stderr();
    let w = arguments(&rt, &err);
    if !w.named {
        show_input(&rt, &err, &mut rt.stdin(), b"standard input", w.show);
    }
}
