// Copyright (C) 2019 Alibaba Cloud Computing. All rights reserved.
//
// SPDX-License-Identifier: Apache-2.0 AND BSD-3-Clause

//! What single registers show and do: the functions of mmio_v2.rs that its `read` and `write` call, on the state by value.

#![tactic(auto)]

ghost use Rattle.std.specs.Prelude.{◌≡◌, MatchOption, bit_and, bit_or, eqb, length};
ghost use Rattle.mmio_state.specs.Fields.{selected_region};
ghost use Rattle.tape.specs.Calls.{action_of};
ghost use Rattle.mmio_state.specs.Effect.{done, written};
ghost use Rattle.mmio_access.specs.Gates.{acks_open, config_open, fields_open};
ghost use Rattle.mmio_access.specs.Shown.{csr_word, device_features, doorbell_word, shm_base_high, shm_base_low, shm_len_high, shm_len_low, tweaked};
ghost use Rattle.mmio_access.specs.Changes.{acked, acknowledged, config_asked, config_read, config_written, field_updated, raised, selected};

use dragonball::{
    DRAGONBALL_FEATURE_INTR_USED, DRAGONBALL_FEATURE_MSI_INTR, DRAGONBALL_MMIO_DOORBELL_OFFSET,
    DRAGONBALL_MMIO_DOORBELL_SCALE, DoorBell, MMIO_MSI_CSR_SUPPORTED,
};
use mmio_config::Region;
use mmio_hot::{DEVICE_DRIVER, DEVICE_DRIVER_OK, DEVICE_FAILED, DEVICE_FEATURES_OK};
use mmio_state::{Done, MmioV2DeviceState};
use tape::Call;
use virtq::Field;
use words::Refusal;

/// An interrupt bit: the device used a buffer.
pub const VIRTIO_INTR_VRING: u32 = 0x01;

// ---- what the status lets through

// Every bit of the one mask set, every bit of the other clear.
fn check_driver_status(status: u32, set: u32, clear: u32) -> bool
    ensures { result ≡ eqb (bit_and status (bit_or set clear)) set }
{
    status & (set | clear) == set
}

/// FEATURES_OK set, DRIVER_OK and FAILED clear.
#[tactic(auto, using(crate::proofs::Masks::fields_by_mask))]
pub fn queue_fields_open(status: u32) -> bool
    ensures { result ≡ fields_open status }
{
    check_driver_status(status, DEVICE_FEATURES_OK, DEVICE_DRIVER_OK | DEVICE_FAILED)
}

/// DRIVER set, FEATURES_OK and FAILED clear.
#[tactic(auto, using(crate::proofs::Masks::acks_by_mask))]
pub fn acked_features_open(status: u32) -> bool
    ensures { result ≡ acks_open status }
{
    check_driver_status(status, DEVICE_DRIVER, DEVICE_FEATURES_OK | DEVICE_FAILED)
}

/// DRIVER set, FAILED clear.
#[tactic(auto, using(crate::proofs::Masks::config_by_mask))]
pub fn config_open(status: u32) -> bool
    ensures { result ≡ config_open status }
{
    check_driver_status(status, DEVICE_DRIVER, DEVICE_FAILED)
}

// ---- what registers show

/// What the region registers show where there is no such region.
pub const NO_REGION: u32 = 0xffff_ffff;

/// The interrupt bits as 060 shows them.
pub fn tweak_intr_flags(vendor: u32, flags: u32) -> u32
    ensures { result ≡ tweaked vendor flags }
{
    if vendor & DRAGONBALL_FEATURE_INTR_USED != 0 {
        flags | VIRTIO_INTR_VRING
    } else {
        flags
    }
}

/// The features of the selected page as 010 shows them: support of VirtIO Version 1 is added.
pub fn device_features(s: MmioV2DeviceState) -> u32
    ensures { result ≡ device_features s }
{
    let features = s.get_avail_features();
    if s.hot.page == 1 {
        features | 0x1
    } else {
        features
    }
}

/// The doorbell's offset and scale as 050 shows them.
pub fn doorbell_word() -> u32
    ensures { result ≡ doorbell_word }
{
    DoorBell::new(
        DRAGONBALL_MMIO_DOORBELL_OFFSET as u32,
        DRAGONBALL_MMIO_DOORBELL_SCALE as u32,
    )
    .register_data()
}

/// The control register as 0c0 shows it.
#[tactic(auto, using(crate::proofs::Masks::msi_by_mask))]
pub fn msi_csr(vendor: u32) -> u16
    ensures { result ≡ csr_word vendor }
{
    if vendor & DRAGONBALL_FEATURE_MSI_INTR != 0 {
        MMIO_MSI_CSR_SUPPORTED
    } else {
        0
    }
}

// A word of the selected region, or that there is none.
fn region_word<F: FnOnce(Region) -> u32>(s: MmioV2DeviceState, word: F) -> u32
    requires { F.IsAlwaysCallable word }
    ensures { MatchOption (selected_region s) (result ≡ NO_REGION) (λ r. F.post word r result) }
{
    s.get_shm_field().map_or(NO_REGION, word)
}

/// The selected region's length, low half.
pub fn get_shm_len_low(s: MmioV2DeviceState) -> u32
    ensures { result ≡ shm_len_low s }
{
    region_word(s, |r| dragonball::low_word(r.length))
}

/// The selected region's length, high half.
pub fn get_shm_len_high(s: MmioV2DeviceState) -> u32
    ensures { result ≡ shm_len_high s }
{
    region_word(s, |r| dragonball::high_word(r.length))
}

/// The selected region's base, low half.
pub fn get_shm_base_low(s: MmioV2DeviceState) -> u32
    ensures { result ≡ shm_base_low s }
{
    let list = s.config.list;
    region_word(s, |r| {
        dragonball::low_word(dragonball::shm_base(r.offset, list))
    })
}

/// The selected region's base, high half.
pub fn get_shm_base_high(s: MmioV2DeviceState) -> u32
    ensures { result ≡ shm_base_high s }
{
    let list = s.config.list;
    region_word(s, |r| {
        dragonball::high_word(dragonball::shm_base(r.offset, list))
    })
}

// ---- what registers do

/// The page of features that 010 shows.
pub fn set_features_select(mut s: MmioV2DeviceState, v: u32) -> MmioV2DeviceState
    ensures { result ≡ selected s v s.hot.ackpage s.hot.queue s.hot.region }
{
    s.hot.page = v;
    s
}

/// The page of features that 020 acknowledges.
pub fn set_acked_features_select(mut s: MmioV2DeviceState, v: u32) -> MmioV2DeviceState
    ensures { result ≡ selected s s.hot.page v s.hot.queue s.hot.region }
{
    s.hot.ackpage = v;
    s
}

/// The queue that the queue registers speak of.
pub fn set_queue_select(mut s: MmioV2DeviceState, v: u32) -> MmioV2DeviceState
    ensures { result ≡ selected s s.hot.page s.hot.ackpage v s.hot.region }
{
    s.hot.queue = v;
    s
}

/// The region that the region registers speak of.
pub fn set_shm_region_id(mut s: MmioV2DeviceState, v: u32) -> MmioV2DeviceState
    ensures { result ≡ selected s s.hot.page s.hot.ackpage s.hot.queue v }
{
    s.hot.region = v;
    s
}

/// 064: the given interrupt bits are cleared.
pub fn clear_interrupts(mut s: MmioV2DeviceState, v: u32) -> MmioV2DeviceState
    ensures { result ≡ acknowledged s v }
{
    s.hot.interrupts -= s.hot.interrupts & v;
    s
}

/// The given interrupt bits are set.
pub fn raise_interrupts(mut s: MmioV2DeviceState, v: u32) -> MmioV2DeviceState
    ensures { result ≡ raised s v }
{
    s.hot.interrupts |= v;
    s
}

/// A write to a queue-field register.
pub fn update_queue_field(s: MmioV2DeviceState, f: Field, v: u32) -> MmioV2DeviceState
    ensures { result ≡ field_updated s f v }
{
    if queue_fields_open(s.hot.status) {
        s.with_queue_mut(f, v)
    } else {
        s
    }
}

/// 020: action 11, where the status lets it through.
pub fn set_acked_features(
    s: MmioV2DeviceState,
    v: u32,
    actions: &mut [u64],
) -> Result<Done, Refusal>
    ensures value { result ≡ done (length actions.old) (acked s v) }
    ensures actions_after { actions.new ≡ written actions.old (acked s v) }
{
    if acked_features_open(s.hot.status) {
        s.set_acked_features(v, actions)
    } else {
        mmio_state::ask_nothing(s, true, actions)
    }
}

// A read or a write of the device's own configuration, where the status lets it through.
fn ask_config(s: MmioV2DeviceState, call: Call, actions: &mut [u64]) -> Result<Done, Refusal>
    ensures value { result ≡ done (length actions.old) (config_asked s (action_of call)) }
    ensures actions_after { actions.new ≡ written actions.old (config_asked s (action_of call)) }
{
    if config_open(s.hot.status) {
        mmio_state::tell(s, true, call.into(), actions)
    } else {
        mmio_state::ask_nothing(s, true, actions)
    }
}

/// A read of the device's own configuration: action 12, where the status lets it through. The host fills the reply.
pub fn get_device_config(
    s: MmioV2DeviceState,
    offset: u64,
    len: usize,
    actions: &mut [u64],
) -> Result<Done, Refusal>
    ensures value { result ≡ done (length actions.old) (config_read s offset len) }
    ensures actions_after { actions.new ≡ written actions.old (config_read s offset len) }
{
    ask_config(s, Call::ReadConfig(offset, len), actions)
}

/// A write to the device's own configuration: action 13, where the status lets it through.
pub fn set_device_config(
    s: MmioV2DeviceState,
    offset: u64,
    len: usize,
    actions: &mut [u64],
) -> Result<Done, Refusal>
    ensures value { result ≡ done (length actions.old) (config_written s offset len) }
    ensures actions_after { actions.new ≡ written actions.old (config_written s offset len) }
{
    ask_config(s, Call::WriteConfig(offset, len), actions)
}
