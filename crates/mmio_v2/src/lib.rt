// Copyright (C) 2019 Alibaba Cloud Computing. All rights reserved.
//
// SPDX-License-Identifier: Apache-2.0 AND BSD-3-Clause

//! The device: the state by value, with read, write and raise as methods that hand the new state back. Each asks its host
//! through lent action words, and is refused (7) before anything else where those are below 320.

#![tactic(auto)]

ghost use Rattle.std.specs.Prelude.{◌≡◌, MatchResult, true, length};
ghost use Rattle.std.proofs.lemmas.List.Edits.{sets};
ghost use Rattle.words.specs.Refusals.{refusal_number};
ghost use Rattle.words.specs.Bytes.{read_le};
ghost use Rattle.tape.specs.Play.{laid};
ghost use Rattle.mmio_state.specs.Effect.{done, written};
ghost use Rattle.mmio_state.specs.Fields.{answer_to, held_answer_to};
ghost use Rattle.mmio_v2.specs.Fresh.{made_of, new_device};
ghost use Rattle.mmio_v2.specs.Registers.{bytes_shown, does, fits_reply, reading_asks, shows};
ghost use Rattle.mmio_v2.specs.Operation.{Raise, Read, Write};
ghost use Rattle.mmio_v2.specs.Step.{answer_of, counted_of, of_done, refused_as, replied, step};

use dragonball::DRAGONBALL_MMIO_DOORBELL_SIZE;
use mmio_config::Configuration;
use mmio_state::{Done, MmioV2DeviceState};
use mmio_tables::{Kind, Standing};
use registers::{
    MMIO_DEFAULT_CFG_SIZE, MMIO_MAGIC_VALUE, MMIO_VERSION_2, ReadRegister, WriteRegister,
};
use virtq::{Field, QueueIndex};
use words::{LittleEndian, Refusal};

/// Implements the MMIO transport for virtio devices, on the state by value.
#[repr(C)]
#[derive(Clone, Copy, Default)]
pub struct MmioV2Device {
    pub state: MmioV2DeviceState,
}

/// A fresh device, or the number of its refusal and a device of zeros.
#[repr(C)]
#[derive(Clone, Copy)]
pub struct MadeDevice {
    pub refusal: u32,
    pub device: MmioV2Device,
}

impl From<Result<MmioV2Device, Refusal>> for MadeDevice {
    ghost from_gives = { λ r x. x ≡ made_of r };

    fn from(r: Result<MmioV2Device, Refusal>) -> MadeDevice {
        match r {
            Ok(device) => MadeDevice { refusal: 0, device },
            Err(e) => MadeDevice {
                refusal: e.number(),
                device: MmioV2Device::default(),
            },
        }
    }
}

/// What came of an operation: the device, refusal 7 or 0, how many reply bytes were written (0: there is no reply), and the
/// number of action records.
#[repr(C)]
#[derive(Clone, Copy)]
pub struct Answer {
    pub device: MmioV2Device,
    pub refusal: u32,
    pub reply: usize,
    pub count: usize,
}

/// What a read of a register shows: a word, half of one, or nothing where it isn't there.
#[derive(Clone, Copy, PartialEq, Eq, Debug)]
pub enum Shown {
    Word(u32),
    Half(u16),
    Nothing,
}

// ---- a read

// What a read of a register shows.
fn look(s: MmioV2DeviceState, r: ReadRegister) -> Shown
    ensures { result ≡ shows s r }
{
    match r {
        ReadRegister::MagicValue => Shown::Word(MMIO_MAGIC_VALUE),
        ReadRegister::Version => Shown::Word(MMIO_VERSION_2),
        ReadRegister::DeviceId => Shown::Word(s.config.kind),
        ReadRegister::VendorId => Shown::Word(s.hot.vendor),
        ReadRegister::DeviceFeature => Shown::Word(mmio_access::device_features(s)),
        ReadRegister::QueueNumMax => Shown::Word(s.queue_max()),
        ReadRegister::QueueReady => Shown::Word(s.queue_ready()),
        ReadRegister::QueueNotify if s.hot.doorbell => Shown::Word(mmio_access::doorbell_word()),
        ReadRegister::InterruptStatus => {
            Shown::Word(mmio_access::tweak_intr_flags(s.hot.vendor, s.hot.interrupts))
        }
        ReadRegister::Status => Shown::Word(s.hot.status),
        ReadRegister::ShmLenLow => Shown::Word(mmio_access::get_shm_len_low(s)),
        ReadRegister::ShmLenHigh => Shown::Word(mmio_access::get_shm_len_high(s)),
        ReadRegister::ShmBaseLow => Shown::Word(mmio_access::get_shm_base_low(s)),
        ReadRegister::ShmBaseHigh => Shown::Word(mmio_access::get_shm_base_high(s)),
        ReadRegister::ConfigGeneration => Shown::Word(0),
        ReadRegister::MsiCsr => Shown::Half(mmio_access::msi_csr(s.hot.vendor)),
        ReadRegister::QueueNotify | ReadRegister::Config(_) | ReadRegister::Unknown => {
            Shown::Nothing
        }
    }
}

// The reply's bytes, and how many they are.
#[tactic(auto, unfolding(words::specs::Bytes::write_le))]
fn give(reply: &mut [u8], x: Shown) -> usize
    requires { fits_reply x (length reply.old) ≡ true }
    ensures value { result ≡ length (bytes_shown x) }
    ensures reply_after { reply.new ≡ sets reply.old 0 (bytes_shown x) }
{
    match x {
        Shown::Word(v) => {
            v.write(reply);
            4
        }
        Shown::Half(v) => {
            v.write(reply);
            2
        }
        Shown::Nothing => 0,
    }
}

// What a read of a register asks: action 12 for the configuration. How many records.
fn ask(
    s: MmioV2DeviceState,
    r: ReadRegister,
    len: usize,
    actions: &mut [u64],
) -> Result<usize, Refusal>
    ensures value { result ≡ counted_of (done (length actions.old) (reading_asks s r len)) }
    ensures actions_after { actions.new ≡ written actions.old (reading_asks s r len) }
{
    match r {
        ReadRegister::Config(at) => {
            let d = mmio_access::get_device_config(s, at, len, actions)?;
            Ok(d.count)
        }
        _ => {
            mmio_state::enough(actions)?;
            Ok(0)
        }
    }
}

// ---- a write

// What a write of these bytes to a register does.
fn write_to(
    s: MmioV2DeviceState,
    r: WriteRegister,
    bytes: &[u8],
    k: u32,
    actions: &mut [u64],
) -> Result<Done, Refusal>
    ensures value { result ≡ done (length actions.old) (does s (read_le 4 bytes.now) (read_le 2 bytes.now) (length bytes.now) k r) }
    ensures actions_after { actions.new ≡ written actions.old (does s (read_le 4 bytes.now) (read_le 2 bytes.now) (length bytes.now) k r) }
{
    let len = bytes.len();
    let v = u32::read(bytes);
    let h = u16::read(bytes);
    let u = match r {
        WriteRegister::DriverFeature => return mmio_access::set_acked_features(s, v, actions),
        WriteRegister::Status => return mmio_ladder::update_driver_status(s, v, k, actions),
        WriteRegister::MsiCsr => return mmio_msi::update_msi_enable(s, h, k, actions),
        WriteRegister::MsiCommand => return mmio_msi::handle_msi_cmd(s, h, k, actions),
        WriteRegister::Config(at) => return mmio_access::set_device_config(s, at, len, actions),
        WriteRegister::DeviceFeatureSel => mmio_access::set_features_select(s, v),
        WriteRegister::DriverFeatureSel => mmio_access::set_acked_features_select(s, v),
        WriteRegister::QueueSel => mmio_access::set_queue_select(s, v),
        WriteRegister::QueueField(f) => mmio_access::update_queue_field(s, f, v),
        WriteRegister::InterruptAck => mmio_access::clear_interrupts(s, v),
        WriteRegister::ShmSel => mmio_access::set_shm_region_id(s, v),
        WriteRegister::MsiAddressLow => mmio_msi::set_msi_address_low(s, v),
        WriteRegister::MsiAddressHigh => mmio_msi::set_msi_address_high(s, v),
        WriteRegister::MsiData => mmio_msi::set_msi_data(s, v),
        WriteRegister::Unknown => s,
    };
    mmio_state::ask_nothing(u, true, actions)
}

// A refusal: the device as it was, no reply, no record.
fn refuse(device: MmioV2Device, e: Refusal) -> Answer
    ensures { result ≡ refused_as device e }
{
    Answer {
        device,
        refusal: e.number(),
        reply: 0,
        count: 0,
    }
}

// What came of an operation, with no reply.
fn told(device: MmioV2Device, r: &Result<Done, Refusal>) -> Answer
    ensures { MatchResult r.now (λ d. result ≡ of_done d) (λ e. result ≡ refused_as device e) }
{
    match r {
        Ok(d) => Answer {
            device: MmioV2Device { state: d.state },
            refusal: 0,
            reply: 0,
            count: d.count,
        },
        Err(e) => refuse(device, *e),
    }
}

impl MmioV2Device {
    /// Constructs a new MMIO transport, or gives its refusal: 1 to 6.
    #[tactic(auto, unfolding(mmio_state::specs::Fresh::made))]
    pub fn new(c: Configuration) -> Result<Self, Refusal>
        ensures { result ≡ new_device c }
    {
        if c.size != MMIO_DEFAULT_CFG_SIZE + DRAGONBALL_MMIO_DOORBELL_SIZE {
            return Err(Refusal::WindowSize);
        }
        let state = MmioV2DeviceState::new(c)?;
        Ok(MmioV2Device { state })
    }

    /// A read of as many bytes as are lent for the reply. The configuration's own reply is the host's to fill: then the lent
    /// bytes stay. The outcome number plays no part in it.
    pub fn read(self, k: u32, offset: u64, reply: &mut [u8], actions: &mut [u64]) -> Answer
        ensures value { result ≡ answer_of (step (length actions.old) self.state (Read k offset (length reply.old))) }
        ensures reply_after { reply.new ≡ replied reply.old (step (length actions.old) self.state (Read k offset (length reply.old))) }
        ensures actions_after { actions.new ≡ laid actions.old (step (length actions.old) self.state (Read k offset (length reply.old))).actions }
    {
        let len = reply.len();
        let r = registers::read_register(offset, len);
        let count = match ask(self.state, r, len, actions) {
            Ok(count) => count,
            Err(e) => return refuse(self, e),
        };
        let given = give(reply, look(self.state, r));
        Answer {
            device: self,
            refusal: 0,
            reply: given,
            count,
        }
    }

    /// A write of these bytes.
    pub fn write(self, k: u32, offset: u64, bytes: &[u8], actions: &mut [u64]) -> Answer
        ensures value { result ≡ answer_of (step (length actions.old) self.state (Write k offset bytes.now)) }
        ensures actions_after { actions.new ≡ laid actions.old (step (length actions.old) self.state (Write k offset bytes.now)).actions }
    {
        // Asked here too, so that nothing is worked out for a write that is refused.
        if let Err(e) = mmio_state::enough(actions) {
            return refuse(self, e);
        }
        let r = registers::write_register(offset, bytes.len());
        told(self, &write_to(self.state, r, bytes, k, actions))
    }

    /// The given interrupt bits are set, at any status.
    pub fn raise(self, bits: u32, actions: &mut [u64]) -> Answer
        ensures value { result ≡ answer_of (step (length actions.old) self.state (Raise bits)) }
        ensures actions_after { actions.new ≡ laid actions.old (step (length actions.old) self.state (Raise bits)).actions }
    {
        let u = mmio_access::raise_interrupts(self.state, bits);
        told(self, &mmio_state::ask_nothing(u, true, actions))
    }

    /// The status register.
    pub fn driver_status(self) -> u32
        ensures { result ≡ self.state.hot.status }
    {
        self.state.hot.status
    }

    /// What a field of a queue holds, or refusal 13.
    pub fn field(self, q: QueueIndex, f: Field) -> Result<u32, Refusal>
        ensures { result ≡ answer_to self.state q.0 f }
    {
        self.state.field(q, f)
    }

    /// Whether a queue's registration stands and what it is made with, or refusal 13.
    pub fn held_entry(self, q: QueueIndex, k: Kind) -> Result<Standing, Refusal>
        ensures { result ≡ held_answer_to self.state q.0 k }
    {
        self.state.held_entry(q, k)
    }
}
