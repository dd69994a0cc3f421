//! Queues by document 01's own rules: `virtio_queue`, which the Rust leans on, was not among the papers.

#![tactic(auto)]

ghost use Rattle.std.specs.Prelude.{◌≡◌, ℕ, min};
ghost use Rattle.virtq.specs.Index.{max_queues, vector_of};
ghost use Rattle.virtq.specs.Fields.{field_numbered, field_of, field_with_number, fields_of, fit, fresh_queue, power_of_two, put, size_fit, updated};
ghost use Rattle.virtq.specs.Valid.{address, inside, scanned, valid};

use words::Refusal;

/// The queues that a table has room for.
pub const MAX_QUEUES: usize = 16;

/// A queue's number: its place in the table. A guest's selector is one, whether or not such a queue is there.
#[repr(C)]
#[derive(Clone, Copy, PartialEq, Eq, Debug)]
pub struct QueueIndex(pub u32);

/// A vector's number. It is wider than a queue's, so that each queue's vector has one.
#[repr(C)]
#[derive(Clone, Copy, PartialEq, Eq, Debug)]
pub struct VectorIndex(pub u64);

impl QueueIndex {
    /// The vector that the queue signals: the one way from a queue's number to a vector's.
    pub fn vector(self) -> VectorIndex
        ensures { result ≡ vector_of self }
    {
        VectorIndex(u64::from(self.0) + 1)
    }
}

/// A queue's fields, one for each queue-field register.
#[derive(Clone, Copy, PartialEq, Eq, Debug)]
pub enum Field {
    Size,
    Ready,
    DescLow,
    DescHigh,
    AvailLow,
    AvailHigh,
    UsedLow,
    UsedHigh,
}

/// By its number, from 0 to 7. A number past them names no field of any queue: refusal 13.
impl TryFrom<u32> for Field {
    type Error = Refusal;

    ghost try_from_gives = { λ n r. r ≡ field_with_number n };

    fn try_from(n: u32) -> Result<Field, Refusal> {
        match n {
            0 => Ok(Field::Size),
            1 => Ok(Field::Ready),
            2 => Ok(Field::DescLow),
            3 => Ok(Field::DescHigh),
            4 => Ok(Field::AvailLow),
            5 => Ok(Field::AvailHigh),
            6 => Ok(Field::UsedLow),
            7 => Ok(Field::UsedHigh),
            _ => Err(Refusal::UnknownQueue),
        }
    }
}

/// The field of this number, from 0 to 7; past them the last.
pub fn field_numbered(n: u32) -> Field
    ensures { result ≡ field_numbered n }
{
    Field::try_from(n).unwrap_or(Field::UsedHigh)
}

/// What a guest laid out of one queue. Its maximum size is configuration, and stands elsewhere.
#[repr(C)]
#[derive(Clone, Copy, PartialEq, Eq, Debug, Default)]
pub struct Queue {
    pub size: u16,
    pub ready: bool,
    pub desclow: u32,
    pub deschigh: u32,
    pub availlow: u32,
    pub availhigh: u32,
    pub usedlow: u32,
    pub usedhigh: u32,
}

// The sixteen powers, written out: a test on bits would be shorter here and longer to believe.
#[rattlefmt::skip]
fn power_of_two(v: u32) -> bool
    ensures { result ≡ power_of_two v }
{
    matches!(v, 1 | 2 | 4 | 8 | 16 | 32 | 64 | 128 | 256 | 512 | 1024 | 2048 | 4096 | 8192 | 16384 | 32768)
}

/// Whether a size is one that a queue of this maximum may have.
pub fn size_fit(max: u32, size: u32) -> bool
    ensures { result ≡ size_fit max size }
{
    1 <= size && size <= max && power_of_two(size)
}

/// Whether a value written to a field is fit for it.
pub fn fit(max: u16, f: Field, v: u32) -> bool
    ensures { result ≡ fit max f v }
{
    match f {
        Field::Size => size_fit(u32::from(max), v % 65536),
        Field::DescLow => v % 16 == 0,
        Field::AvailLow => v % 2 == 0,
        Field::UsedLow => v % 4 == 0,
        Field::Ready | Field::DescHigh | Field::AvailHigh | Field::UsedHigh => true,
    }
}

impl Queue {
    /// A queue as it is at first, and after a wipe.
    pub fn fresh(max: u16) -> Self
        ensures { result ≡ fresh_queue max }
    {
        Queue {
            size: max,
            ..Queue::default()
        }
    }

    /// What a field holds.
    pub fn get(self, f: Field) -> u32
        ensures { result ≡ field_of self f }
    {
        match f {
            Field::Size => u32::from(self.size),
            Field::Ready => u32::from(self.ready),
            Field::DescLow => self.desclow,
            Field::DescHigh => self.deschigh,
            Field::AvailLow => self.availlow,
            Field::AvailHigh => self.availhigh,
            Field::UsedLow => self.usedlow,
            Field::UsedHigh => self.usedhigh,
        }
    }

    fn put(mut self, f: Field, v: u32) -> Self
        ensures { result ≡ put self f v }
    {
        match f {
            Field::Size => self.size = (v % 65536) as u16,
            Field::Ready => self.ready = v == 1,
            Field::DescLow => self.desclow = v,
            Field::DescHigh => self.deschigh = v,
            Field::AvailLow => self.availlow = v,
            Field::AvailHigh => self.availhigh = v,
            Field::UsedLow => self.usedlow = v,
            Field::UsedHigh => self.usedhigh = v,
        }
        self
    }

    /// The queue after a write that is let through: it sets its field if the value is fit, and else nothing.
    pub fn update(self, max: u16, f: Field, v: u32) -> Self
        ensures { result ≡ updated max self f v }
    {
        if fit(max, f, v) { self.put(f, v) } else { self }
    }

    /// Whether the queue may be started: ready, and each of its three areas inside the guest's memory.
    pub fn valid(self, memory: Memory) -> bool
        ensures { result ≡ valid memory (field_of self) }
    {
        let n = u64::from(self.size);
        self.ready
            && memory.inside(address(self.desclow, self.deschigh), 16 * n)
            && memory.inside(address(self.availlow, self.availhigh), 6 + 2 * n)
            && memory.inside(address(self.usedlow, self.usedhigh), 6 + 8 * n)
    }
}

/// The guest's memory: one range from address 0.
#[repr(C)]
#[derive(Clone, Copy, PartialEq, Eq, Debug, Default)]
pub struct Memory {
    pub length: u64,
}

impl Memory {
    /// Whether `n` bytes from `start` on lie inside. Nothing is added here, so no sum can wrap.
    pub fn inside(self, start: u64, n: u64) -> bool
        ensures { result ≡ inside self start n }
    {
        n <= self.length && start <= self.length - n
    }
}

/// An address of its two halves.
pub fn address(low: u32, high: u32) -> u64
    ensures { result ≡ address low high }
{
    u64::from(high) * 0x1_0000_0000 + u64::from(low)
}

/// The first of the table's first `n` queues that is not valid.
#[tactic(auto, using(crate::proofs::Scans::going_more, crate::proofs::Scans::going_stop, crate::proofs::Scans::going_last))]
pub fn first_invalid(queues: [Queue; MAX_QUEUES], n: usize, memory: Memory) -> Option<QueueIndex>
    ensures { result ≡ scanned memory (fields_of queues) 0 (min n max_queues) }
{
    let count = n.min(MAX_QUEUES);
    let mut found = None;
    for i in 0..count {
        if !queues[i].valid(memory) {
            found = Some(QueueIndex(i as u32));
            break;
        }
    }
    found
}
