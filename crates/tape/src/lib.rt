//! The action list of one operation, and the held table that its outcomes change. The Rust has neither: it calls its
//! backends, and this port asks them through the list (document 01, "Actions").

#![tactic(auto)]

ghost use Rattle.std.specs.Prelude.{◌≡◌, ℕ, ◌+◌, ◌*◌, ◌≤◌, [], ◌∷◌, length};
ghost use Rattle.tape.specs.Actions.{act, answered};
ghost use Rattle.tape.specs.Calls.{action_of};
ghost use Rattle.tape.specs.Held.{bell, equal, held_one, held_queue, left_after, note, stands};

use virtq::{MAX_QUEUES, QueueIndex, VectorIndex};
use words::Action;

/// The kinds of action.
pub const ACTION_REGISTER: u64 = 1;

pub const ACTION_UNREGISTER: u64 = 2;

pub const ACTION_ENABLE_INTERRUPTS: u64 = 3;

pub const ACTION_ACTIVATE: u64 = 4;

pub const ACTION_RESET_DEVICE: u64 = 5;

pub const ACTION_RESET_INTERRUPTS: u64 = 6;

pub const ACTION_MODE: u64 = 7;

pub const ACTION_UPDATE: u64 = 8;

pub const ACTION_MASK: u64 = 9;

pub const ACTION_UNMASK: u64 = 10;

pub const ACTION_ACKED_FEATURES: u64 = 11;

pub const ACTION_READ_CONFIG: u64 = 12;

pub const ACTION_WRITE_CONFIG: u64 = 13;

/// What a registration is made with.
#[repr(C)]
#[derive(Clone, Copy, PartialEq, Eq, Debug, Default)]
pub struct Entry {
    pub queue: u64,
    pub address: u64,
    pub width: u64,
    pub value: u64,
}

/// Which of a queue's two registrations stand. Their operands follow from the queue's number and the window's base.
#[repr(C)]
#[derive(Clone, Copy, PartialEq, Eq, Debug, Default)]
pub struct Held {
    pub bell: bool,
    pub note: bool,
}

/// How many records were written, how many more requests will be accepted, and the held table so far.
#[derive(Clone, Copy, PartialEq, Eq, Debug)]
pub struct Tape {
    pub count: usize,
    pub left: u32,
    pub held: [Held; MAX_QUEUES],
}

/// A queue's doorbell: its own address, any length.
pub fn bell_entry(base: u64, q: QueueIndex) -> Entry
    ensures { result ≡ bell base q.0 }
{
    let n = u64::from(q.0);
    Entry {
        queue: n,
        address: base.wrapping_add(0x1000 + 4 * n),
        width: 0,
        value: 0,
    }
}

/// A queue's notify: the address that all queues share, four bytes, the queue's number.
pub fn note_entry(base: u64, q: QueueIndex) -> Entry
    ensures { result ≡ note base q.0 }
{
    let n = u64::from(q.0);
    Entry {
        queue: n,
        address: base.wrapping_add(0x50),
        width: 4,
        value: n,
    }
}

/// What the device asks of its host, or tells it: a kind of action with its operands.
#[derive(Clone, Copy, PartialEq, Eq, Debug)]
pub enum Call {
    Register(Entry),
    Unregister(Entry),
    EnableInterrupts,
    Activate,
    ResetDevice,
    ResetInterrupts,
    /// MSI, or legacy interrupts.
    Mode(bool),
    Update(VectorIndex),
    Mask(VectorIndex),
    Unmask(VectorIndex),
    /// A page, and the features acknowledged in it.
    AckedFeatures(u32, u32),
    /// An offset in the device's own configuration, and a length.
    ReadConfig(u64, usize),
    WriteConfig(u64, usize),
}

fn act(kind: u64, a: u64, b: u64, c: u64, d: u64) -> Action
    ensures { result ≡ act kind a b c d }
{
    Action { kind, a, b, c, d }
}

/// Its record: the kind's number, and the operands in 01's order.
impl From<Call> for Action {
    ghost from_gives = { λ call x. x ≡ action_of call };

    fn from(call: Call) -> Action {
        match call {
            Call::Register(e) => act(ACTION_REGISTER, e.queue, e.address, e.width, e.value),
            Call::Unregister(e) => act(ACTION_UNREGISTER, e.queue, e.address, e.width, e.value),
            Call::EnableInterrupts => act(ACTION_ENABLE_INTERRUPTS, 0, 0, 0, 0),
            Call::Activate => act(ACTION_ACTIVATE, 0, 0, 0, 0),
            Call::ResetDevice => act(ACTION_RESET_DEVICE, 0, 0, 0, 0),
            Call::ResetInterrupts => act(ACTION_RESET_INTERRUPTS, 0, 0, 0, 0),
            Call::Mode(msi) => act(ACTION_MODE, u64::from(msi), 0, 0, 0),
            Call::Update(v) => act(ACTION_UPDATE, v.0, 0, 0, 0),
            Call::Mask(v) => act(ACTION_MASK, v.0, 0, 0, 0),
            Call::Unmask(v) => act(ACTION_UNMASK, v.0, 0, 0, 0),
            Call::AckedFeatures(page, v) => act(
                ACTION_ACKED_FEATURES,
                u64::from(page),
                u64::from(v),
                0,
                0,
            ),
            Call::ReadConfig(offset, n) => act(ACTION_READ_CONFIG, offset, n as u64, 0, 0),
            Call::WriteConfig(offset, n) => act(ACTION_WRITE_CONFIG, offset, n as u64, 0, 0),
        }
    }
}

impl Entry {
    // Whether a record speaks of this very entry.
    fn equal(self, x: Action) -> bool
        ensures { result ≡ equal self x }
    {
        let spoken_of = Entry {
            queue: x.a,
            address: x.b,
            width: x.c,
            value: x.d,
        };
        self == spoken_of
    }

    fn stands(self, left: u32, x: Action, was: bool) -> bool
        ensures { result ≡ stands self left x was }
    {
        if !self.equal(x) {
            return was;
        }
        match x.kind {
            ACTION_REGISTER => was || left != 0,
            ACTION_UNREGISTER => false,
            _ => was,
        }
    }
}

fn held_queue(h: Held, base: u64, left: u32, x: Action, q: QueueIndex) -> Held
    ensures { result ≡ held_queue base left x q.0 h }
{
    Held {
        bell: bell_entry(base, q).stands(left, x, h.bell),
        note: note_entry(base, q).stands(left, x, h.note),
    }
}

// Only the entries of the record's own queue can equal it, so only that place is written.
fn held_one(mut held: [Held; MAX_QUEUES], base: u64, left: u32, x: Action) -> [Held; MAX_QUEUES]
    ensures { result ≡ held_one base left x held }
{
    if x.a < MAX_QUEUES as u64 {
        let i = x.a as usize;
        held[i] = held_queue(held[i], base, left, x, QueueIndex(i as u32));
    }
    held
}

fn is_answered(kind: u64) -> bool
    ensures { result ≡ answered kind }
{
    matches!(
        kind,
        ACTION_REGISTER
            | ACTION_ENABLE_INTERRUPTS
            | ACTION_ACTIVATE
            | ACTION_RESET_DEVICE
            | ACTION_MODE
            | ACTION_UPDATE
            | ACTION_MASK
            | ACTION_UNMASK
    )
}

fn left_after(left: u32, x: Action) -> u32
    ensures { result ≡ left_after left x }
{
    if is_answered(x.kind) {
        left.saturating_sub(1)
    } else {
        left
    }
}

/// The action list of one operation as it is written: the lent words, the window's base, and the tape so far.
#[derive(Drop)]
pub struct Recorder<'a> {
    pub words: &'a mut [u64],
    pub base: u64,
    pub tape: Tape,
}

impl<'a> Recorder<'a> {
    ghost use Rattle.tape.specs.Play.{Played, room_for, IsBegun};

    /// Nothing written yet, and k requests to be accepted.
    pub fn new(words: &'a mut [u64], base: u64, k: u32, held: [Held; MAX_QUEUES]) -> Recorder<'a>
        ensures same_words { result.words.ghost_name ≡ words.entry.ghost_name }
        ensures begun { IsBegun words.entry base k held result }
    {
        Recorder {
            words,
            base,
            tape: Tape {
                count: 0,
                left: k,
                held,
            },
        }
    }

    fn has_room(&self) -> bool
        ensures { result ≡ room_for self.now.tape.count (length self.now.words.now) }
    {
        self.words.len() >= 5 && self.tape.count <= (self.words.len() - 5) / 5
    }

    /// Writes one record behind the others, and moves answers and held table on. Where five words are not left, the record
    /// is neither written nor counted.
    pub fn emit(&mut self, x: Action)
        ensures { Played self.old (x ∷ []) self.new }
    {
        self.tape.held = held_one(self.tape.held, self.base, self.tape.left, x);
        self.tape.left = left_after(self.tape.left, x);
        if self.has_room() {
            words::append(self.words, 5 * self.tape.count, x);
            self.tape.count += 1;
        }
    }
}
