//! The registers that a guest polls, answered without the device being moved: from its polled part, or from its table of
//! queues. Each answers whether that is enough; where it is, it comes to the full step (`proofs/Same.antt`). The Rust has
//! no such way: there nothing is moved.

#![tactic(auto)]

ghost use Rattle.std.specs.Prelude.{◌≡◌, ◌≤◌, length};
ghost use Rattle.words.specs.Bytes.{write_le};
ghost use Rattle.mmio_v2.specs.Operation.{Read, Write};
ghost use Rattle.mmio_v2.specs.Step.{replied, step};
ghost use Rattle.tape.specs.Play.{laid};
ghost use Rattle.mmio_access.specs.Changes.{cleared};
ghost use Rattle.mmio_fast.specs.Quick.{done, quick_raise, quick_read, quick_ready, quick_write, slow};
ghost use Rattle.mmio_fast.specs.Tell.{tell, told_of, wrote_of};

use mmio_hot::Hot;
use mmio_state::ACTION_WORDS;
use mmio_v2::MmioV2Device;
use registers::{
    REG_MMIO_INTERRUPT_AC, REG_MMIO_INTERRUPT_STAT, REG_MMIO_QUEUE_NOTIF, REG_MMIO_QUEUE_READY,
    REG_MMIO_STATUS,
};
use virtq::{Field, MAX_QUEUES, Queue, QueueIndex};
use words::{LittleEndian, Refusal};

/// What is told of an operation beside the device: refusal 7 or 0, how many reply bytes were written (0: there is no
/// reply), and the number of action records. Two registers' worth, so that it comes back without memory.
#[repr(C)]
#[derive(Clone, Copy, PartialEq, Eq, Debug)]
pub struct Told {
    pub refusal: u32,
    pub reply: u32,
    pub count: usize,
}

/// A write the long way: what is told, and then the device, so that what is told lies in front.
#[repr(C)]
#[derive(Clone, Copy)]
pub struct Wrote {
    pub told: Told,
    pub device: MmioV2Device,
}

// Kept as a flag beside its number: a poll hands it to C in one register, and a write's number is used where it is not done, too.
/// Whether the short way is enough, and its one number: a register's word, or the interrupt bits after a write. Where it is
/// not enough, a write's number is the interrupt bits as they are, so that they may be stored without asking.
#[repr(C)]
#[derive(Clone, Copy, PartialEq, Eq, Debug)]
pub struct Quick {
    pub value: u32,
    pub done: bool,
}

/// A raise whole: the interrupt bits after it, and what is told.
#[repr(C)]
#[derive(Clone, Copy, PartialEq, Eq, Debug)]
pub struct Raised {
    pub bits: u32,
    pub told: Told,
}

fn done(value: u32) -> Quick
    ensures { result ≡ done value }
{
    Quick { value, done: true }
}

fn slow(value: u32) -> Quick
    ensures { result ≡ slow value }
{
    Quick { value, done: false }
}

fn cleared(bits: u32, v: u32) -> u32
    ensures { result ≡ cleared bits v }
{
    bits - (bits & v)
}

/// A write to a polled register: 064 clears interrupt bits, 050 is the host's. Nothing else changes, and nothing is asked.
#[tactic(auto, unfolding(crate::specs::Quick::quick_write))]
pub fn quick_write(h: Hot, offset: u64, bytes: &[u8], room: usize) -> Quick
    ensures { result ≡ quick_write h offset bytes.now room }
{
    if room < ACTION_WORDS || bytes.len() != 4 {
        return slow(h.interrupts);
    }
    match offset {
        REG_MMIO_INTERRUPT_AC => done(cleared(h.interrupts, u32::read(bytes))),
        REG_MMIO_QUEUE_NOTIF => done(h.interrupts),
        _ => slow(h.interrupts),
    }
}

/// A read of a polled register: 060 or 070.
#[tactic(auto, unfolding(crate::specs::Quick::quick_read))]
pub fn quick_read(h: Hot, offset: u64, len: usize, room: usize) -> Quick
    ensures { result ≡ quick_read h offset len room }
{
    if room < ACTION_WORDS || len != 4 {
        return slow(0);
    }
    match offset {
        REG_MMIO_INTERRUPT_STAT => done(mmio_access::tweak_intr_flags(h.vendor, h.interrupts)),
        REG_MMIO_STATUS => done(h.status),
        _ => slow(0),
    }
}

/// A read of 044, from the table of queues.
#[tactic(auto, unfolding(crate::specs::Quick::quick_ready))]
pub fn quick_ready(
    h: Hot,
    count: u32,
    queues: [Queue; MAX_QUEUES],
    offset: u64,
    len: usize,
    room: usize,
) -> Quick
    ensures { result ≡ quick_ready h count queues offset len room }
{
    if room < ACTION_WORDS || len != 4 || offset != REG_MMIO_QUEUE_READY {
        return slow(0);
    }
    done(mmio_tables::field_at(queues, QueueIndex(h.queue), count, Field::Ready))
}

fn tell(refusal: u32, reply: u32, count: usize) -> Told
    ensures { result ≡ tell refusal reply count }
{
    Told {
        refusal,
        reply,
        count,
    }
}

/// A raise: it touches the polled part alone, so this is all of it.
#[tactic(auto, unfolding(crate::specs::Quick::quick_raise))]
pub fn quick_raise(h: Hot, bits: u32, room: usize) -> Raised
    ensures { result ≡ quick_raise h bits room }
{
    if room < ACTION_WORDS {
        let told = tell(Refusal::ActionSpace.number(), 0, 0);
        return Raised {
            bits: h.interrupts,
            told,
        };
    }
    Raised {
        bits: h.interrupts | bits,
        told: tell(0, 0, 0),
    }
}

/// A register's word into the lent reply.
pub fn give(reply: &mut [u8], v: u32) -> Told
    ensures { (result ≡ tell 0 4 0) × (reply.new ≡ write_le 4 reply.old v) }
{
    v.write(reply);
    tell(0, 4, 0)
}

fn narrow(reply: usize) -> u32
    requires { reply ≤ 4 }
    ensures { result ≡ reply }
{
    reply as u32
}

/// A read the long way. It changes no device, so none comes back.
pub fn full_read(
    d: MmioV2Device,
    k: u32,
    offset: u64,
    reply: &mut [u8],
    actions: &mut [u64],
) -> Told
    ensures { (result ≡ told_of (step (length actions.old) d.state (Read k offset (length reply.old))))
        × (reply.new ≡ replied reply.old (step (length actions.old) d.state (Read k offset (length reply.old))))
        × (actions.new ≡ laid actions.old (step (length actions.old) d.state (Read k offset (length reply.old))).actions) }
{
    let a = d.read(k, offset, reply, actions);
    tell(a.refusal, narrow(a.reply), a.count)
}

/// A write the long way.
pub fn full_write(d: MmioV2Device, k: u32, offset: u64, bytes: &[u8], actions: &mut [u64]) -> Wrote
    ensures { (result ≡ wrote_of (step (length actions.old) d.state (Write k offset bytes.now)))
        × (actions.new ≡ laid actions.old (step (length actions.old) d.state (Write k offset bytes.now)).actions) }
{
    let a = d.write(k, offset, bytes, actions);
    let device = a.device;
    Wrote {
        told: tell(a.refusal, 0, a.count),
        device,
    }
}
