//! What the programs that are held to a file `stdout` print with: labels, numbers after a space, and action records; and the
//! configuration that they begin with. A write that fails is answered as the error that it was. Beside these stands the reading
//! of an input that may come in pieces, for other crates to call: a program here that reads an input has one of its own.
#![tactic(auto)]

ghost use Rattle.std.specs.Prelude.{◌≡◌, ◌≤◌, length, take};
ghost use Rattle.std.specs.Io.KnownBytes.{Consumes};

use mmio_config::{Configuration, Region};
use std::io;
use std::io::Read;

/// The configuration that the programs begin with: two data queues of 256 with a doorbell at 0xd0000000, four vectors, no regions,
/// memory up to 0x10000.
pub const PLAIN: Configuration = Configuration {
    base: 0xd000_0000,
    size: 0x2000,
    memory: 0x10000,
    kind: 1,
    given: true,
    features: 4,
    wildcard: true,
    msi: true,
    page0: 0x11,
    page1: 0x22,
    vectors: 4,
    dataqueues: 2,
    control: 0,
    sizes: [256; 16],
    regions: 0,
    list: 0,
    table: [Region {
        offset: 0,
        length: 0,
    }; 8],
};

/// Reads until the space is full, the input ends or a read fails, and answers how many bytes stand at its start.
pub fn read_full<R: Read>(from: &mut R, space: &mut [u8]) -> usize
    ensures within { result ≤ length space.new }
    ensures long { length space.new ≡ length space.old }
    ensures taken { Consumes (R.remaining from.old) (R.remaining from.new) (take result space.new) }
{
    let mut done = 0;
    while done < space.len() {
        match from.read(&mut space[done..]) {
            Ok(n) if 0 < n => done += n,
            _ => break,
        }
    }
    done
}

/// The label as it is.
pub fn say(rt: &impl Print, label: &[u8]) -> io::Result<()> {
    rt.write_all(label)
}

/// A number in decimal.
pub fn dec(rt: &impl Print, n: u64) -> io::Result<()> {
    print!(rt; " {n}")
}

/// A number in hex.
pub fn hex(rt: &impl Print, n: u64) -> io::Result<()> {
    print!(rt; " {n:x}")
}

// Two digits of hex, with no space before them.
fn two(rt: &impl Print, n: u64) -> io::Result<()> {
    print!(rt; "{n:02x}")
}

/// Yes or no.
pub fn flag(rt: &impl Print, b: bool) -> io::Result<()> {
    if b { say(rt, b" yes") } else { say(rt, b" no") }
}

/// So many action records, a line to each: the kind and four operands in hex.
pub fn records(rt: &impl Print, words: &[u64], count: usize) -> io::Result<()> {
    for record in words.chunks_exact(5).take(count.min(64)) {
        say(rt, b"\n ")?;
        for word in record {
            hex(rt, *word)?;
        }
    }
    Ok(())
}

/// Four numbers in hex.
pub fn four(rt: &impl Print, a: u64, b: u64, c: u64, d: u64) -> io::Result<()> {
    for n in [a, b, c, d] {
        hex(rt, n)?;
    }
    Ok(())
}

/// So many bytes, two digits to each, or a stroke for none.
pub fn bytes(rt: &impl Print, b: &[u8], n: usize) -> io::Result<()> {
    say(rt, b" ")?;
    if n == 0 {
        return say(rt, b"-");
    }
    for byte in b.iter().take(n.min(8)) {
        two(rt, u64::from(*byte))?;
    }
    Ok(())
}

/// What lent action words are full of.
pub const UNTOUCHED: u64 = 0xe;

fn same_bytes(before: &[u8], after: &[u8], reply: usize) -> bool {
    before
        .iter()
        .zip(after)
        .take(8)
        .skip(reply)
        .all(|(a, b)| a == b)
}

fn same_words(words: &[u64], count: usize) -> bool {
    words
        .iter()
        .skip(5 * count.min(64))
        .all(|word| *word == UNTOUCHED)
}

fn refused(rt: &impl Print, n: u32, kept: bool) -> io::Result<()> {
    if n != 0 {
        say(rt, b" refused")?;
        dec(rt, u64::from(n))?;
        if kept {
            say(rt, b" kept")?;
        }
    }
    if !kept {
        say(rt, b" touched")?;
    }
    Ok(())
}

/// An answer: the status, reply bytes, the number of records, a refusal if there is one, and the records. `touched` says that lent bytes
/// past the reply or lent words past the last record are not as they were, and `kept` that a refusal left them all.
pub fn answer(
    rt: &impl Print,
    status: u32,
    refusal: u32,
    before: &[u8],
    after: &[u8],
    reply: usize,
    words: &[u64],
    count: usize,
) -> io::Result<()> {
    say(rt, b" ")?;
    two(rt, u64::from(status))?;
    bytes(rt, after, reply)?;
    dec(rt, count as u64)?;
    refused(
        rt,
        refusal,
        same_bytes(before, after, reply) && same_words(words, count),
    )?;
    records(rt, words, count)
}

#[cfg(test)]
mod tests {
    use super::*;
    use std::io::ErrorKind;

    // Gives its number and counts down, a byte at a time; at 0 it fails.
    #[derive(Drop)]
    struct Countdown(u8);

    impl Read for Countdown {
        fn read(&mut self, space: &mut [u8]) -> io::Result<usize> {
            if self.0 == 0 {
                return Err(ErrorKind::Other.into());
            }
            if space.is_empty() {
                return Ok(0);
            }
            space[0] = self.0;
            self.0 -= 1;
            Ok(1)
        }
    }

    #[test]
    fn reads_until_full_or_at_the_end(rt: HostRuntime) {
        let mut input: &[u8] = b"leap59";
        let mut space = [0u8; 4];
        assert_eq!(rt; read_full(&mut input, &mut []), 0);
        for (n, bytes) in [(4, *b"leap"), (2, *b"59ap"), (0, *b"59ap")] {
            assert_eq!(rt; read_full(&mut input, &mut space), n);
            assert_eq!(rt; space, bytes);
        }
    }

    #[test]
    fn reads_in_pieces_until_a_read_fails(rt: HostRuntime) {
        let mut input = Countdown(5);
        let mut space = [9u8; 4];
        for (n, bytes) in [(4, [5, 4, 3, 2]), (1, [1, 4, 3, 2]), (0, [1, 4, 3, 2])] {
            assert_eq!(rt; read_full(&mut input, &mut space), n);
            assert_eq!(rt; space, bytes);
        }
    }
}
