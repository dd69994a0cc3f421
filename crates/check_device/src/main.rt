//! Drives the device by the file `stdin`, through `new`, `read`, `write`, `raise` and the questions alone. A line there is an
//! operation, and is printed with what came of it; the file `stdout` is worked out from document 01. Numbers are in hex:
//!
//! - `write` offset, length, value, k; `read` offset, length; `interrupt` bits. Printed behind it: status, reply bytes and
//!   the number of action records, which follow on lines of their own; the number of a refusal; and whether what was lent is
//!   as it was, past what the answer tells of.
//! - `new`: a device of the configuration as it then stands; the refusal, or 0.
//! - `held` queue: what stands of its doorbell and its notify. `ask` queue, field: refusal and value.
//! - `lend` words: how many action words each operation gets from here on.
//! - A line with a capital sets a part of the configuration. Any other is only printed. Of a line with a bar, what is behind
//!   the bar is the operation, and only what is before it is printed.
#![tactic(auto)]

ghost use Rattle.std.specs.Prelude.{◌≤◌, ◌≡◌, length};

use mmio_config::{Configuration, Region};
use mmio_state::ACTION_WORDS;
use mmio_tables::{HeldReply, Kind, Reply};
use mmio_v2::{Answer, MadeDevice, MmioV2Device};
use show::{dec, hex, say};
use std::io;
use std::io::Read;
use tape::Entry;
use virtq::QueueIndex;
use words::LittleEndian;

// ---- a line of the script

#[derive(Clone, Copy, Default)]
struct Line {
    verb: u8,
    hidden: bool,
    at: u32,
    a: u64,
    b: u64,
    c: u64,
    d: u64,
    lent: u64,
}

fn empty(lent: u64) -> Line {
    Line {
        lent,
        ..Line::default()
    }
}

// A number with one more digit behind it, if it is a digit.
fn push(n: u64, c: u8) -> u64 {
    let high = n % 0x1000_0000_0000_0000 * 16;
    match c {
        b'0'..=b'9' => high + u64::from(c - b'0'),
        b'a'..=b'f' => high + u64::from(c - b'a') + 10,
        _ => n,
    }
}

// The first letter is the verb; what follows it up to a blank is not read.
fn digit(mut l: Line, c: u8) -> Line {
    match l.at {
        0 if l.verb == 0 => l.verb = c,
        0 => {}
        1 => l.a = push(l.a, c),
        2 => l.b = push(l.b, c),
        3 => l.c = push(l.c, c),
        _ => l.d = push(l.d, c),
    }
    l
}

// The line with one more byte.
fn feed(l: Line, c: u8) -> Line {
    match c {
        b' ' => Line {
            at: l.at % 8 + 1,
            ..l
        },
        b'|' => Line {
            verb: 0,
            at: 0,
            hidden: true,
            ..l
        },
        _ => digit(l, c),
    }
}

// The line after this one.
fn next(l: Line) -> Line {
    empty(if l.verb == b'l' { l.a } else { l.lent })
}

// ---- the configuration

fn low32(n: u64) -> u32 {
    (n % 0x1_0000_0000) as u32
}

fn low16(n: u64) -> u16 {
    (n % 0x1_0000) as u16
}

fn with_sizes(mut c: Configuration, l: Line) -> Configuration {
    c.sizes[(l.a % 16) as usize] = low16(l.b);
    c
}

fn with_region(mut c: Configuration, l: Line) -> Configuration {
    c.table[(l.a % 8) as usize] = Region {
        offset: l.b,
        length: l.c,
    };
    c
}

fn set(mut c: Configuration, l: Line) -> Configuration {
    match l.verb {
        b'B' => c.base = l.a,
        b'W' => c.size = l.a,
        b'G' => c.memory = l.a,
        b'T' => c.kind = low32(l.a),
        b'M' => c.msi = l.a != 0,
        b'V' => c.vectors = low32(l.a),
        b'D' => c.dataqueues = low32(l.a),
        b'C' => c.control = low32(l.a),
        b'R' => c.regions = low32(l.a),
        b'L' => c.list = l.a,
        b'P' => {
            c.page0 = low32(l.a);
            c.page1 = low32(l.b);
        }
        b'F' => {
            c.given = l.a != 0;
            c.features = low32(l.b);
            c.wildcard = l.c != 0;
        }
        _ => {}
    }
    c
}

fn configure(c: Configuration, l: Line) -> Configuration {
    match l.verb {
        b'S' => with_sizes(c, l),
        b'O' => with_region(c, l),
        b'N' => show::PLAIN,
        _ => set(c, l),
    }
}

// ---- an operation

fn at_most(n: u64, limit: usize) -> usize
    ensures { result ≤ limit }
{
    if n < limit as u64 { n as usize } else { limit }
}

// What is lent for a reply is full of 0xee; what is written is the value, low byte first.
fn filled(l: Line) -> [u8; 8]
    ensures { 8 ≡ length result }
{
    let mut b = [0xeeu8; 8];
    if l.verb == b'w' {
        l.c.write(&mut b);
    }
    b
}

fn ask(d: MmioV2Device, l: Line, k: u32, bytes: &mut [u8], words: &mut [u64]) -> Answer {
    match l.verb {
        b'w' => d.write(k, l.a, bytes, words),
        b'r' => d.read(k, l.a, bytes, words),
        _ => d.raise(low32(l.a), words),
    }
}

// With as many bytes as the line tells of, and as many words as are lent.
fn offer(d: MmioV2Device, l: Line, bytes: &mut [u8], words: &mut [u64]) -> Answer {
    let m = at_most(l.b, bytes.len());
    let n = at_most(l.lent, words.len());
    let k = low32(l.d);
    ask(d, l, k, &mut bytes[..m], &mut words[..n])
}

fn operate(rt: &impl Print, d: MmioV2Device, l: Line) -> io::Result<MmioV2Device> {
    let mut words = [show::UNTOUCHED; ACTION_WORDS];
    let mut bytes = filled(l);
    let a = offer(d, l, &mut bytes, &mut words);
    let u = a.device;
    show::answer(
        rt,
        u.driver_status(),
        a.refusal,
        &filled(l),
        &bytes,
        a.reply,
        &words,
        a.count,
    )?;
    Ok(u)
}

// ---- a question

fn standing(rt: &impl Print, e: HeldReply) -> io::Result<()> {
    if !e.stands {
        say(rt, b" none")?;
        if e.refusal == 0 {
            return Ok(());
        }
        dec(rt, u64::from(e.refusal))?;
    }
    let Entry {
        queue,
        address,
        width,
        value,
    } = e.entry;
    show::four(rt, queue, address, width, value)
}

fn held(rt: &impl Print, d: MmioV2Device, q: u32) -> io::Result<()> {
    say(rt, b" doorbell")?;
    standing(rt, d.held_entry(QueueIndex(q), Kind::Doorbell).into())?;
    say(rt, b", notify")?;
    standing(rt, d.held_entry(QueueIndex(q), Kind::Notify).into())
}

fn question(rt: &impl Print, d: MmioV2Device, l: Line) -> io::Result<()> {
    let f = virtq::field_numbered(low32(l.b));
    let r = Reply::from(d.field(QueueIndex(low32(l.a)), f));
    dec(rt, u64::from(r.refusal))?;
    hex(rt, u64::from(r.value))
}

fn made(rt: &impl Print, c: Configuration) -> io::Result<MmioV2Device> {
    let m = MadeDevice::from(MmioV2Device::new(c));
    dec(rt, u64::from(m.refusal))?;
    Ok(m.device)
}

fn perform(
    rt: &impl Print,
    d: MmioV2Device,
    c: Configuration,
    l: Line,
) -> io::Result<MmioV2Device> {
    match l.verb {
        b'w' | b'r' | b'i' => operate(rt, d, l),
        b'n' => made(rt, c),
        b'h' => {
            held(rt, d, low32(l.a))?;
            Ok(d)
        }
        b'a' => {
            question(rt, d, l)?;
            Ok(d)
        }
        _ => Ok(d),
    }
}

// ---- the script

fn echo(rt: &impl Print, c: u8, hidden: bool) -> io::Result<()> {
    if hidden { Ok(()) } else { say(rt, &[c]) }
}

fn run(rt: &impl Print, text: &[u8]) -> io::Result<()> {
    let mut c = show::PLAIN;
    let mut d = MmioV2Device::new(c).unwrap_or_default();
    let mut l = empty(ACTION_WORDS as u64);
    for &b in text {
        if b == b'\n' {
            d = perform(rt, d, c, l)?;
            c = configure(c, l);
            l = next(l);
        } else {
            l = feed(l, b);
        }
        echo(rt, b, l.hidden)?;
    }
    Ok(())
}

// The most that is read of a script.
const SCRIPT_ROOM: usize = 65536;

// Reads until the space is full, the input ends or a read fails, and answers how many bytes stand at its start.
fn read_full(from: &mut impl Read, space: &mut [u8]) -> usize
    ensures within { result ≤ length space.new }
    ensures long { length space.new ≡ length space.old }
{
    let mut done = 0;
    while done < space.len() {
        match from.read(&mut space[done..]) {
            Ok(n) if 0 < n => done += n,
            _ => break,
        }
    }
    done
}

fn main(rt: HostRuntime) -> io::Result<()> {
    let mut space = [0u8; SCRIPT_ROOM];
    let n = read_full(&mut rt.stdin(), &mut space);
    run(&rt, &space[..n])
}
