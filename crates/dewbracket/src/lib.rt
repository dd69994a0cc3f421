//! The device for C and Rust to link, by the exports of `dewbracket_c`. `new` and the questions go by value. An access and a
//! raise go by value, or behind a lent device: then with the same promises, and by the short way where that is enough. The
//! polls are that short way alone.

#![tactic(auto)]

ghost use Rattle.std.specs.Prelude.{◌≡◌, length};
ghost use Rattle.tape.specs.Play.{laid};
ghost use Rattle.mmio_v2.specs.Fresh.{made_device};
ghost use Rattle.mmio_v2.specs.Operation.{Raise, Read, Write};
ghost use Rattle.mmio_v2.specs.Step.{answer_of, replied, step};
ghost use Rattle.desk.specs.Desk.{Replayed};
ghost use Rattle.dewbracket.specs.Numbers.{asked_by_number, held_by_number};
ghost use Rattle.dewbracket.specs.Promises.{PollsRead, PollsWrite, Raises, Reads, Writes};

use desk::Played;
use mmio_config::Configuration;
use mmio_fast::{Quick, Told};
use mmio_tables::{HeldReply, Kind, Reply};
use mmio_v2::{Answer, MadeDevice, MmioV2Device};
use play::Show;
use virtq::{Field, QueueIndex};

/// A fresh device, or the number of its refusal, 1 to 6.
#[tactic(auto, using(mmio_v2::proofs::Making::made_new))]
pub fn dewbracket_new(c: Configuration) -> MadeDevice
    ensures { result ≡ made_device c }
{
    MadeDevice::from(MmioV2Device::new(c))
}

// ---- the questions, by number: no enum crosses into C

/// The status register.
pub fn dewbracket_driver_status(d: MmioV2Device) -> u32
    ensures { result ≡ d.state.hot.status }
{
    d.driver_status()
}

/// What a field of a queue holds, the fields numbered from 0 to 7; or refusal 13.
#[tactic(auto, unfolding(crate::specs::Numbers::asked_by_number), using(mmio_state::proofs::Asking::asked_is))]
pub fn dewbracket_field(d: MmioV2Device, queue: u32, field: u32) -> Reply
    ensures { result ≡ asked_by_number d.state queue field }
{
    let answer = Field::try_from(field).and_then(|f| d.field(QueueIndex(queue), f));
    Reply::from(answer)
}

/// Whether a registration of a queue stands, 0 its doorbell and 1 its notify word, and with what; or refusal 13.
#[tactic(auto, unfolding(crate::specs::Numbers::held_by_number))]
pub fn dewbracket_held_entry(d: MmioV2Device, queue: u32, kind: u32) -> HeldReply
    ensures { result ≡ held_by_number d.state queue kind }
{
    let answer = Kind::try_from(kind).and_then(|k| d.held_entry(QueueIndex(queue), k));
    HeldReply::from(answer)
}

// ---- by value: the device's own methods

/// `read`.
pub fn dewbracket_pass_read(
    d: MmioV2Device,
    k: u32,
    offset: u64,
    reply: &mut [u8],
    actions: &mut [u64],
) -> Answer
    ensures value { result ≡ answer_of (step (length actions.old) d.state (Read k offset (length reply.old))) }
    ensures reply_after { reply.new ≡ replied reply.old (step (length actions.old) d.state (Read k offset (length reply.old))) }
    ensures actions_after { actions.new ≡ laid actions.old (step (length actions.old) d.state (Read k offset (length reply.old))).actions }
{
    d.read(k, offset, reply, actions)
}

/// `write`.
pub fn dewbracket_pass_write(
    d: MmioV2Device,
    k: u32,
    offset: u64,
    bytes: &[u8],
    actions: &mut [u64],
) -> Answer
    ensures value { result ≡ answer_of (step (length actions.old) d.state (Write k offset bytes.now)) }
    ensures actions_after { actions.new ≡ laid actions.old (step (length actions.old) d.state (Write k offset bytes.now)).actions }
{
    d.write(k, offset, bytes, actions)
}

/// `raise`.
pub fn dewbracket_pass_raise(d: MmioV2Device, bits: u32, actions: &mut [u64]) -> Answer
    ensures value { result ≡ answer_of (step (length actions.old) d.state (Raise bits)) }
    ensures actions_after { actions.new ≡ laid actions.old (step (length actions.old) d.state (Raise bits)).actions }
{
    d.raise(bits, actions)
}

// ---- behind a lent device

/// A read of as many bytes as are lent for the reply, as `read`.
pub fn dewbracket_read(
    dev: &MmioV2Device,
    k: u32,
    offset: u64,
    reply: &mut [u8],
    actions: &mut [u64],
) -> Told
    ensures { Reads dev.now k offset reply.old reply.new actions.old actions.new result }
{
    let hot = dev.state.hot;
    let len = reply.len();
    let room = actions.len();
    let polled = mmio_fast::quick_read(hot, offset, len, room);
    if polled.done {
        return mmio_fast::give(reply, polled.value);
    }
    let count = dev.state.config.count;
    let queues = dev.state.queues;
    let ready = mmio_fast::quick_ready(hot, count, queues, offset, len, room);
    if ready.done {
        return mmio_fast::give(reply, ready.value);
    }
    mmio_fast::full_read(*dev, k, offset, reply, actions)
}

/// A write of these bytes, as `write`.
pub fn dewbracket_write(
    dev: &mut MmioV2Device,
    k: u32,
    offset: u64,
    bytes: &[u8],
    actions: &mut [u64],
) -> Told
    ensures { Writes dev.old dev.new k offset bytes.now actions.old actions.new result }
{
    let quick = mmio_fast::quick_write(dev.state.hot, offset, bytes, actions.len());
    if quick.done {
        dev.state.hot.interrupts = quick.value;
        return Told {
            refusal: 0,
            reply: 0,
            count: 0,
        };
    }
    let wrote = mmio_fast::full_write(*dev, k, offset, bytes, actions);
    *dev = wrote.device;
    wrote.told
}

/// The given interrupt bits are set, as `raise`.
pub fn dewbracket_raise(dev: &mut MmioV2Device, bits: u32, actions: &mut [u64]) -> Told
    ensures { Raises dev.old dev.new bits actions.old actions.new result }
{
    let raised = mmio_fast::quick_raise(dev.state.hot, bits, actions.len());
    dev.state.hot.interrupts = raised.bits;
    raised.told
}

// ---- a polled register of a lent device, or nothing: tried first, each spares its caller the frame of the full function

/// A read of 060 or 070, with so many reply bytes and action words lent. Where it is not done, its caller goes on with
/// `dewbracket_read`.
pub fn dewbracket_poll_read(dev: &MmioV2Device, offset: u64, len: usize, room: usize) -> Quick
    ensures { PollsRead dev.now offset len room result }
{
    mmio_fast::quick_read(dev.state.hot, offset, len, room)
}

/// A write of 050 or 064, with so many action words lent. Where it is not done, the device is as it was, and its caller goes
/// on with `dewbracket_write`.
pub fn dewbracket_poll_write(dev: &mut MmioV2Device, offset: u64, bytes: &[u8], room: usize) -> bool
    ensures { PollsWrite dev.old dev.new offset bytes.now room result }
{
    let quick = mmio_fast::quick_write(dev.state.hot, offset, bytes, room);
    dev.state.hot.interrupts = quick.value;
    quick.done
}

// ---- a whole trace

/// The text of a trace at the front of the buffer, as `desk::replay`. Nothing is written where there is too little room.
pub fn dewbracket_replay(trace: &[u8], show: Show, out: &mut [u8]) -> Played
    ensures { Replayed show trace.now out.old out.new result }
{
    desk::replay(trace, show, out)
}
