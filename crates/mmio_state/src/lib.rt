// Copyright (C) 2019 Alibaba Cloud Computing. All rights reserved.
// SPDX-License-Identifier: Apache-2.0 AND BSD-3-Clause

//! The state of Virtio Mmio device, by value: what the Rust keeps behind a mutex and in atomics. Backends are asked through
//! the action list; `k` says how many answered requests are accepted.

#![tactic(auto)]

ghost use Rattle.std.specs.Prelude.{◌≡◌, length};
ghost use Rattle.words.specs.Pick.{pick};
ghost use Rattle.mmio_state.specs.State.{failed_state};
ghost use Rattle.mmio_state.specs.Effect.{done, ended, quiet, room, telling, written};
ghost use Rattle.mmio_state.specs.Fresh.{begun, made, no_state};
ghost use Rattle.mmio_state.specs.Activation.{activating, queues_valid, resetting, settled, started, wiped};
ghost use Rattle.mmio_state.specs.Fields.{acking, answer_to, field_written, held_answer_to, offered, selected_max, selected_ready, selected_region};

use mmio_config::{Config, Configuration, Flags, MAX_VECTORS, Region, Vector};
use mmio_hot::Hot;
use mmio_tables::{Kind, Standing};
use msi::Msi;
use tape::{Call, Held, Recorder};
use virtq::{Field, MAX_QUEUES, Queue, QueueIndex};
use words::{Action, Refusal};

/// The words that every operation must be lent: five for each of the most records it can ask.
pub const ACTION_WORDS: usize = 320;

/// The state of Virtio Mmio device.
#[repr(C)]
#[derive(Clone, Copy)]
pub struct MmioV2DeviceState {
    pub hot: Hot,
    pub config: Config,
    pub flags: Flags,
    pub stage: Msi,
    pub queues: [Queue; MAX_QUEUES],
    pub held: [Held; MAX_QUEUES],
    pub vectors: [Vector; MAX_VECTORS],
}

/// What came of an operation that asks something: the state, whether what was asked was accepted, and the number of action
/// records.
#[derive(Clone, Copy)]
pub struct Done {
    pub state: MmioV2DeviceState,
    pub ok: bool,
    pub count: usize,
}

// ---- from a configuration

// A function of its own in the program too: in line, every write would carry its tables.
#[inline(never)]
fn begun(hot: Hot, config: Config) -> MmioV2DeviceState
    ensures { result ≡ begun hot config }
{
    MmioV2DeviceState {
        hot,
        config,
        flags: Flags::default(),
        stage: Msi::default(),
        queues: mmio_config::create_queues(config.sizes),
        held: [Held::default(); MAX_QUEUES],
        vectors: [Vector::default(); MAX_VECTORS],
    }
}

/// No device: every word 0.
impl Default for MmioV2DeviceState {
    ghost is_default = { λ s. s ≡ no_state };

    fn default() -> MmioV2DeviceState {
        begun(Hot::default(), Config::default())
    }
}

// ---- what is asked

/// Refusal 7 where fewer words are lent than every operation must be.
pub fn enough(actions: &[u64]) -> Result<(), Refusal>
    ensures { result ≡ room (length actions.now) }
{
    if actions.len() < ACTION_WORDS {
        Err(Refusal::ActionSpace)
    } else {
        Ok(())
    }
}

/// Done with nothing asked.
pub fn quiet_done(s: MmioV2DeviceState, ok: bool) -> Done
    ensures { result ≡ ended (quiet s ok) }
{
    Done {
        state: s,
        ok,
        count: 0,
    }
}

/// The same, where enough words are lent.
pub fn ask_nothing(s: MmioV2DeviceState, ok: bool, actions: &[u64]) -> Result<Done, Refusal>
    ensures { result ≡ done (length actions.now) (quiet s ok) }
{
    enough(actions)?;
    Ok(quiet_done(s, ok))
}

/// Done with one request, and whether it was accepted.
pub fn tell(s: MmioV2DeviceState, ok: bool, x: Action, actions: &mut [u64]) -> Result<Done, Refusal>
    ensures value { result ≡ done (length actions.old) (telling s ok x) }
    ensures actions_after { actions.new ≡ written actions.old (telling s ok x) }
{
    enough(actions)?;
    words::append(actions, 0, x);
    Ok(Done {
        state: s,
        ok,
        count: 1,
    })
}

// ---- activation and reset

fn start_state(mut s: MmioV2DeviceState, held: [Held; MAX_QUEUES]) -> MmioV2DeviceState
    ensures { result ≡ started s held }
{
    s.flags = Flags {
        active: true,
        registered: true,
        enabled: true,
    };
    s.held = held;
    s
}

fn wipe_state(s: MmioV2DeviceState, held: [Held; MAX_QUEUES]) -> MmioV2DeviceState
    ensures { result ≡ wiped s held }
{
    MmioV2DeviceState {
        held,
        ..begun(s.hot.wiped(), s.config)
    }
}

fn settle(s: MmioV2DeviceState, held: [Held; MAX_QUEUES], ok: bool) -> MmioV2DeviceState
    ensures { result ≡ settled s ok held }
{
    if ok {
        start_state(s, held)
    } else {
        wipe_state(s, held)
    }
}

fn reset_to(s: MmioV2DeviceState, held: [Held; MAX_QUEUES], ok: bool) -> MmioV2DeviceState
    ensures { result ≡ pick ok (wiped s held) s }
{
    if ok { wipe_state(s, held) } else { s }
}

impl MmioV2DeviceState {
    /// A fresh state, or its refusal: 2 to 6.
    #[tactic(auto, unfolding(crate::specs::Fresh::made, mmio_config::specs::Fresh::configured))]
    pub fn new(c: Configuration) -> Result<Self, Refusal>
        ensures { result ≡ made c }
    {
        let config = mmio_config::configure(c)?;
        Ok(begun(mmio_config::fresh_hot(c), config))
    }

    /// Validity, registrations, interrupts enabled, the device activated; after a refusal what is undone, and the state
    /// reset.
    pub fn activate(self, k: u32, actions: &mut [u64]) -> Result<Done, Refusal>
        ensures value { result ≡ done (length actions.old) (activating self k) }
        ensures actions_after { actions.new ≡ written actions.old (activating self k) }
    {
        enough(actions)?;
        if self.flags.active {
            return Ok(quiet_done(self, true));
        }
        let n = mmio_tables::queues_in(self.config.count);
        let valid = self.check_queues_valid();
        let mut recorder = Recorder::new(actions, self.config.base, k, self.held);
        let ok = activation::start(&mut recorder, self.hot.doorbell, n, valid);
        Ok(Done {
            state: settle(self, recorder.tape.held, ok),
            ok,
            count: recorder.tape.count,
        })
    }

    /// Action 11: the acknowledged features of the selected page.
    pub fn set_acked_features(self, v: u32, actions: &mut [u64]) -> Result<Done, Refusal>
        ensures value { result ≡ done (length actions.old) (acking self v) }
        ensures actions_after { actions.new ≡ written actions.old (acking self v) }
    {
        let call = Call::AckedFeatures(self.hot.ackpage, v);
        tell(self, true, call.into(), actions)
    }

    /// FAILED set.
    pub fn set_driver_failed(mut self) -> Self
        ensures { result ≡ failed_state self }
    {
        self.hot = self.hot.fail();
        self
    }

    /// The device's own reset, asked if it is active, and then the state's.
    pub fn reset(self, k: u32, actions: &mut [u64]) -> Result<Done, Refusal>
        ensures value { result ≡ done (length actions.old) (resetting self k) }
        ensures actions_after { actions.new ≡ written actions.old (resetting self k) }
    {
        enough(actions)?;
        let n = mmio_tables::queues_in(self.config.count);
        let mut recorder = Recorder::new(actions, self.config.base, k, self.held);
        let ok = activation::stop(&mut recorder, n, self.flags.registered, self.flags.active);
        Ok(Done {
            state: reset_to(self, recorder.tape.held, ok),
            ok,
            count: recorder.tape.count,
        })
    }

    /// Whether every queue may be started.
    pub fn check_queues_valid(self) -> bool
        ensures { result ≡ queues_valid self }
    {
        mmio_tables::all_valid(self.queues, self.config.count, self.config.memory)
    }

    /// The maximum size of the selected queue, 0 if there is none: 034.
    pub fn queue_max(self) -> u32
        ensures { result ≡ selected_max self }
    {
        let q = QueueIndex(self.hot.queue);
        mmio_tables::size_at(self.config.sizes, q, self.config.count)
    }

    /// Whether the selected queue is ready, 0 if there is none: 044.
    pub fn queue_ready(self) -> u32
        ensures { result ≡ selected_ready self }
    {
        let q = QueueIndex(self.hot.queue);
        mmio_tables::field_at(self.queues, q, self.config.count, Field::Ready)
    }

    /// A write to a queue-field register that the status lets through.
    pub fn with_queue_mut(mut self, f: Field, v: u32) -> Self
        ensures { result ≡ field_written self f v }
    {
        let q = QueueIndex(self.hot.queue);
        let config = self.config;
        self.queues = mmio_tables::update_at(self.queues, config.sizes, q, config.count, f, v);
        self
    }

    /// The features of the selected page, as they were given.
    pub fn get_avail_features(self) -> u32
        ensures { result ≡ offered self }
    {
        match self.hot.page {
            0 => self.config.page0,
            1 => self.config.page1,
            _ => 0,
        }
    }

    /// The selected region, if there is one.
    pub fn get_shm_field(self) -> Option<Region>
        ensures { result ≡ selected_region self }
    {
        mmio_tables::found_at(self.config.table, self.hot.region, self.config.regions)
    }

    /// What a field of a queue holds, or refusal 13.
    pub fn field(self, q: QueueIndex, f: Field) -> Result<u32, Refusal>
        ensures { result ≡ answer_to self q.0 f }
    {
        mmio_tables::queue_field_at(self.queues, q, self.config.count, f)
    }

    /// Whether a queue's registration stands and what it is made with, or refusal 13.
    pub fn held_entry(self, q: QueueIndex, k: Kind) -> Result<Standing, Refusal>
        ensures { result ≡ held_answer_to self q.0 k }
    {
        mmio_tables::standing_at(self.held, q, self.config.count, self.config.base, k)
    }
}
