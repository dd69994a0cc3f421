//! The text that a replay of a trace prints (document 01, "The trace"), laid over a lent buffer line by line. Each line asks
//! for a fixed number of bytes; where they are not left, nothing is written and the place stays.

#![tactic(auto)]

ghost use Rattle.std.specs.Prelude.{◌≡◌, [], ◌∷◌, ◌+◌, ◌≤◌, ◌<◌, length};
ghost use Rattle.text.specs.Numerals.{decimal, glyph, hex, numeral, pair, pairs};

use words::Action;

/// The bytes asked for by a line of the trace.
pub const LINE_ROOM: usize = 64;

/// The bytes asked for by a line that an option adds.
pub const DETAIL_ROOM: usize = 128;

/// The longest reply that is printed, in bytes.
pub const LONGEST_REPLY: usize = 8;

/// What the line of a queue's fields shows.
#[derive(Clone, Copy)]
pub struct Fields {
    pub index: u32,
    pub size: u32,
    pub ready: u32,
    pub desc: u64,
    pub avail: u64,
    pub used: u64,
}

/// A lent buffer, and the place in it where the next byte goes.
#[derive(Drop)]
pub struct Page<'a> {
    pub out: &'a mut [u8],
    pub at: usize,
}

fn digit(d: u64) -> u8
    requires { d < 16 }
    ensures { result ≡ glyph d }
{
    if d < 10 {
        b'0' + d as u8
    } else {
        b'a' - 10 + d as u8
    }
}

impl<'a> Page<'a> {
    ghost use Rattle.text.specs.Lines.{bad_line, end_line, heading_line, record_line, reply_text, row, spaced};
    ghost use Rattle.text.specs.Details.{action_line, field_line, hexes};
    ghost use Rattle.text.specs.Room.{record_room, room};
    ghost use Rattle.text.specs.Page.{Prints, PrintsIf, PrintsLine, Spare};

    /// The buffer from its front on.
    pub fn new(out: &'a mut [u8]) -> Page<'a>
        ensures same { result.out.ghost_name ≡ out.entry.ghost_name }
        ensures front { result.at ≡ 0 }
        ensures kept { result.out.now ≡ out.entry.now }
    {
        Page { out, at: 0 }
    }

    /// Whether so many bytes are left.
    pub fn has_room(&self, need: usize) -> bool
        ensures { result ≡ room need (length self.now.out.now) self.now.at }
    {
        need <= self.out.len() && self.at <= self.out.len() - need
    }

    // ---- bytes

    fn put(&mut self, b: u8)
        requires { Spare 1 self.old }
        ensures { Prints 1 self.old (b ∷ []) self.new }
    {
        self.out[self.at] = b;
        self.at += 1;
    }

    fn put_bytes(&mut self, word: &[u8])
        requires { Spare (length word.now) self.old }
        ensures { Prints (length word.now) self.old word.now self.new }
    {
        let at = self.at;
        let end = at + word.len();
        self.out[at..end].copy_from_slice(word);
        self.at = end;
    }

    // ---- numbers

    // The digits of n to the base, which is 10 or 16: those of the quotient first, then the remainder.
    // By hand, though the library's `itoa` promises decimal: one function serves both bases, no call of the library's that can't fail
    // promises hex without leading zeros, and that a numeral reads back as its number is shown of `numeral`, to any such base.
    fn put_number(&mut self, n: u64, base: u64)
        requires { (10 ≤ base) × (base ≤ 16) × Spare (length (numeral base n)) self.old }
        ensures { Prints (length (numeral base n)) self.old (numeral base n) self.new }
    {
        if n < base {
            self.put(digit(n));
        } else {
            self.put_number(n / base, base);
            self.put(digit(n % base));
        }
    }

    // 20 digits hold every u64 in decimal.
    fn put_decimal(&mut self, n: u64)
        requires { Spare 20 self.old }
        ensures { Prints 20 self.old (decimal n) self.new }
    {
        self.put_number(n, 10);
    }

    // A space, then the number in decimal.
    fn next_decimal(&mut self, n: u64)
        requires { Spare 21 self.old }
        ensures { Prints 21 self.old (spaced (decimal n)) self.new }
    {
        self.put(b' ');
        self.put_decimal(n);
    }

    // A space, then the number in hex: 16 digits hold every u64.
    fn next_hex(&mut self, n: u64)
        requires { Spare 17 self.old }
        ensures { Prints 17 self.old (spaced (hex n)) self.new }
    {
        self.put(b' ');
        self.put_number(n, 16);
    }

    // ---- status and reply

    // The two low digits in hex.
    fn put_pair(&mut self, v: u32)
        requires { Spare 2 self.old }
        ensures { Prints 2 self.old (pair v) self.new }
    {
        self.put(digit(u64::from(v / 16 % 16)));
        self.put(digit(u64::from(v % 16)));
    }

    fn put_pairs(&mut self, s: &[u8])
        requires { (length s.now ≤ 8) × Spare 16 self.old }
        ensures { Prints 16 self.old (pairs s.now) self.new }
    {
        for b in s {
            self.put_pair(u32::from(*b));
        }
    }

    // A space, then the reply's bytes, or - for none.
    fn next_reply(&mut self, s: &[u8])
        requires { (length s.now ≤ 8) × Spare 17 self.old }
        ensures { Prints 17 self.old (spaced (reply_text s.now)) self.new }
    {
        self.put(b' ');
        if s.is_empty() {
            self.put(b'-');
        } else {
            self.put_pairs(s);
        }
    }

    // A column of hex to each number.
    fn put_hexes(&mut self, ns: [u64; 5])
        requires { Spare 85 self.old }
        ensures { Prints 85 self.old (hexes ns) self.new }
    {
        for n in ns {
            self.next_hex(n);
        }
    }

    fn put_newline(&mut self)
        requires { Spare 1 self.old }
        ensures { Prints 1 self.old (10 ∷ []) self.new }
    {
        self.put(b'\n');
    }

    // ---- lines where there is room

    fn put_line(&mut self, number: u32, status: u32, reply: &[u8], count: usize)
        requires { (length reply.now ≤ 8) × Spare 64 self.old }
        ensures { Prints 64 self.old (record_line number status reply.now count) self.new }
    {
        self.put_decimal(u64::from(number));
        self.put(b' ');
        self.put_pair(status);
        self.next_reply(reply);
        self.next_decimal(count as u64);
        self.put_newline();
    }

    // A word of three letters, then a number.
    fn put_named(&mut self, word: &[u8; 3], n: u32)
        requires { Spare 64 self.old }
        ensures { Prints 64 self.old (row word.now (decimal n ∷ [])) self.new }
    {
        self.put_bytes(word);
        self.next_decimal(u64::from(n));
        self.put_newline();
    }

    fn put_action(&mut self, x: Action)
        requires { Spare 128 self.old }
        ensures { Prints 128 self.old (action_line x) self.new }
    {
        self.put(b' ');
        self.put_hexes([x.kind, x.a, x.b, x.c, x.d]);
        self.put_newline();
    }

    fn put_fields(&mut self, f: Fields)
        requires { Spare 128 self.old }
        ensures { Prints 128 self.old (field_line f.index f.size f.ready f.desc f.avail f.used) self.new }
    {
        self.put_bytes(b"  q");
        self.next_decimal(u64::from(f.index));
        self.put_hexes([
            u64::from(f.size),
            u64::from(f.ready),
            f.desc,
            f.avail,
            f.used,
        ]);
        self.put_newline();
    }

    // ---- lines where there may be none

    fn has_record_room(&self, reply: usize) -> bool
        ensures { result ≡ record_room reply (length self.now.out.now) self.now.at }
    {
        reply <= LONGEST_REPLY && self.has_room(LINE_ROOM)
    }

    /// The heading.
    #[tactic(auto, unfolding(crate::specs::Lines::heading_line))]
    pub fn heading(&mut self)
        ensures { PrintsLine 64 self.old heading_line self.new }
    {
        if self.has_room(LINE_ROOM) {
            self.put_bytes(b"op status reply actions\n");
        }
    }

    /// A record's line: its number, the two low digits of the status, the reply, and how many actions there were. A reply of more
    /// than 8 bytes counts as no room.
    pub fn line(&mut self, number: u32, status: u32, reply: &[u8], count: usize)
        ensures { PrintsIf (record_room (length reply.now) (length self.old.out.now) self.old.at) 64 self.old (record_line number status reply.now count) self.new }
    {
        if self.has_record_room(reply.len()) {
            self.put_line(number, status, reply, count);
        }
    }

    /// The last line of a good trace: how many records it has.
    #[tactic(auto, unfolding(crate::specs::Lines::end_line))]
    pub fn end(&mut self, n: u32)
        ensures { PrintsLine 64 self.old (end_line n) self.new }
    {
        if self.has_room(LINE_ROOM) {
            self.put_named(b"end", n);
        }
    }

    /// The only line of a bad file: the number of what is wrong with it.
    #[tactic(auto, unfolding(crate::specs::Lines::bad_line))]
    pub fn bad(&mut self, n: u32)
        ensures { PrintsLine 64 self.old (bad_line n) self.new }
    {
        if self.has_room(LINE_ROOM) {
            self.put_named(b"bad", n);
        }
    }

    /// An action record's line.
    pub fn action_line(&mut self, x: Action)
        ensures { PrintsLine 128 self.old (action_line x) self.new }
    {
        if self.has_room(DETAIL_ROOM) {
            self.put_action(x);
        }
    }

    /// The line of a queue's fields.
    pub fn field_line(&mut self, f: Fields)
        ensures { PrintsLine 128 self.old (field_line f.index f.size f.ready f.desc f.avail f.used) self.new }
    {
        if self.has_room(DETAIL_ROOM) {
            self.put_fields(f);
        }
    }
}
