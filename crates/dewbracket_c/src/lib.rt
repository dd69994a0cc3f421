//! The exports for C and Rust: each calls the function of `dewbracket` that has its name, and promises what that one does. They
//! stand in a crate of their own, since a crate is a library or an archive, and not both.

#![tactic(auto)]

ghost use Rattle.std.specs.Prelude.{◌≡◌, length};
ghost use Rattle.tape.specs.Play.{laid};
ghost use Rattle.mmio_v2.specs.Fresh.{made_device};
ghost use Rattle.mmio_v2.specs.Operation.{Raise, Read, Write};
ghost use Rattle.mmio_v2.specs.Step.{answer_of, replied, step};
ghost use Rattle.desk.specs.Desk.{Replayed};
ghost use Rattle.dewbracket.specs.Numbers.{asked_by_number, held_by_number};
ghost use Rattle.dewbracket.specs.Promises.{PollsRead, PollsWrite, Raises, Reads, Writes};

use desk::Played;
use mmio_config::Configuration;
use mmio_fast::{Quick, Told};
use mmio_tables::{HeldReply, Reply};
use mmio_v2::{Answer, MadeDevice, MmioV2Device};
use play::Show;

/// A fresh device, or the number of its refusal, 1 to 6.
#[unsafe(no_mangle)]
pub extern "C" fn dewbracket_new(c: Configuration) -> MadeDevice
    ensures { result ≡ made_device c }
{
    dewbracket::dewbracket_new(c)
}

// ---- the questions, by number: no enum crosses into C

/// The status register.
#[unsafe(no_mangle)]
pub extern "C" fn dewbracket_driver_status(d: MmioV2Device) -> u32
    ensures { result ≡ d.state.hot.status }
{
    dewbracket::dewbracket_driver_status(d)
}

/// What a field of a queue holds, the fields numbered from 0 to 7; or refusal 13.
#[unsafe(no_mangle)]
pub extern "C" fn dewbracket_field(d: MmioV2Device, queue: u32, field: u32) -> Reply
    ensures { result ≡ asked_by_number d.state queue field }
{
    dewbracket::dewbracket_field(d, queue, field)
}

/// Whether a registration of a queue stands, 0 its doorbell and 1 its notify word, and with what; or refusal 13.
#[unsafe(no_mangle)]
pub extern "C" fn dewbracket_held_entry(d: MmioV2Device, queue: u32, kind: u32) -> HeldReply
    ensures { result ≡ held_by_number d.state queue kind }
{
    dewbracket::dewbracket_held_entry(d, queue, kind)
}

// ---- by value: the device's own methods

/// `read`.
#[unsafe(no_mangle)]
pub extern "C" fn dewbracket_pass_read(
    d: MmioV2Device,
    k: u32,
    offset: u64,
    reply: &mut [u8],
    actions: &mut [u64],
) -> Answer
    ensures value { result ≡ answer_of (step (length actions.old) d.state (Read k offset (length reply.old))) }
    ensures reply_after { reply.new ≡ replied reply.old (step (length actions.old) d.state (Read k offset (length reply.old))) }
    ensures actions_after { actions.new ≡ laid actions.old (step (length actions.old) d.state (Read k offset (length reply.old))).actions }
{
    dewbracket::dewbracket_pass_read(d, k, offset, reply, actions)
}

/// `write`.
#[unsafe(no_mangle)]
pub extern "C" fn dewbracket_pass_write(
    d: MmioV2Device,
    k: u32,
    offset: u64,
    bytes: &[u8],
    actions: &mut [u64],
) -> Answer
    ensures value { result ≡ answer_of (step (length actions.old) d.state (Write k offset bytes.now)) }
    ensures actions_after { actions.new ≡ laid actions.old (step (length actions.old) d.state (Write k offset bytes.now)).actions }
{
    dewbracket::dewbracket_pass_write(d, k, offset, bytes, actions)
}

/// `raise`.
#[unsafe(no_mangle)]
pub extern "C" fn dewbracket_pass_raise(d: MmioV2Device, bits: u32, actions: &mut [u64]) -> Answer
    ensures value { result ≡ answer_of (step (length actions.old) d.state (Raise bits)) }
    ensures actions_after { actions.new ≡ laid actions.old (step (length actions.old) d.state (Raise bits)).actions }
{
    dewbracket::dewbracket_pass_raise(d, bits, actions)
}

// ---- behind a lent device

/// A read of as many bytes as are lent for the reply, as `read`.
#[unsafe(no_mangle)]
pub extern "C" fn dewbracket_read(
    dev: &MmioV2Device,
    k: u32,
    offset: u64,
    reply: &mut [u8],
    actions: &mut [u64],
) -> Told
    ensures { Reads dev.now k offset reply.old reply.new actions.old actions.new result }
{
    dewbracket::dewbracket_read(dev, k, offset, reply, actions)
}

/// A write of these bytes, as `write`.
#[unsafe(no_mangle)]
pub extern "C" fn dewbracket_write(
    dev: &mut MmioV2Device,
    k: u32,
    offset: u64,
    bytes: &[u8],
    actions: &mut [u64],
) -> Told
    ensures { Writes dev.old dev.new k offset bytes.now actions.old actions.new result }
{
    dewbracket::dewbracket_write(dev, k, offset, bytes, actions)
}

/// The given interrupt bits are set, as `raise`.
#[unsafe(no_mangle)]
pub extern "C" fn dewbracket_raise(dev: &mut MmioV2Device, bits: u32, actions: &mut [u64]) -> Told
    ensures { Raises dev.old dev.new bits actions.old actions.new result }
{
    dewbracket::dewbracket_raise(dev, bits, actions)
}

// ---- a polled register of a lent device, or nothing: tried first, each spares its caller the frame of the full function

/// A read of 060 or 070, with so many reply bytes and action words lent. Where it is not done, its caller goes on with
/// `dewbracket_read`.
#[unsafe(no_mangle)]
pub extern "C" fn dewbracket_poll_read(
    dev: &MmioV2Device,
    offset: u64,
    len: usize,
    room: usize,
) -> Quick
    ensures { PollsRead dev.now offset len room result }
{
    dewbracket::dewbracket_poll_read(dev, offset, len, room)
}

/// A write of 050 or 064, with so many action words lent. Where it is not done, the device is as it was, and its caller goes
/// on with `dewbracket_write`.
#[unsafe(no_mangle)]
pub extern "C" fn dewbracket_poll_write(
    dev: &mut MmioV2Device,
    offset: u64,
    bytes: &[u8],
    room: usize,
) -> bool
    ensures { PollsWrite dev.old dev.new offset bytes.now room result }
{
    dewbracket::dewbracket_poll_write(dev, offset, bytes, room)
}

// ---- a whole trace

/// The text of a trace at the front of the buffer, as `desk::replay`. Nothing is written where there is too little room.
#[unsafe(no_mangle)]
pub extern "C" fn dewbracket_replay(trace: &[u8], show: Show, out: &mut [u8]) -> Played
    ensures { Replayed show trace.now out.old out.new result }
{
    dewbracket::dewbracket_replay(trace, show, out)
}
