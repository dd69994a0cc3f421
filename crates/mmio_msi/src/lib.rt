// Copyright (C) 2019 Alibaba Cloud Computing. All rights reserved.
// SPDX-License-Identifier: Apache-2.0 AND BSD-3-Clause

//! The message functions of mmio_state.rs. They stand apart from the state's other functions so that each crate is checked
//! in half a minute.

#![tactic(auto)]

ghost use Rattle.std.specs.Prelude.{◌≡◌, ◌<◌, length};
ghost use Rattle.msi.specs.Stage.{with_address_high, with_address_low, with_data};
ghost use Rattle.words.specs.Pick.{pick};
ghost use Rattle.tape.specs.Actions.{mask_vector, unmask_vector};
ghost use Rattle.mmio_state.specs.Effect.{done, written};
ghost use Rattle.mmio_msi.specs.Messages.{asks_mask, asks_update, commanded, commanding, controlled, enabling, heeded, masking, staged, turned, updated_state};

use mmio_hot::{Command, Csr};
use mmio_state::{Done, MmioV2DeviceState};
use msi::Msi;
use tape::Call;
use virtq::VectorIndex;
use words::Refusal;

fn staged(mut s: MmioV2DeviceState, m: Msi) -> MmioV2DeviceState
    ensures { result ≡ staged s m }
{
    if s.hot.msi {
        s.stage = m;
    }
    s
}

fn turned(mut s: MmioV2DeviceState, msi: bool) -> MmioV2DeviceState
    ensures { result ≡ turned s msi }
{
    s.hot.msi = msi;
    s.stage = Msi::default();
    s
}

// One request: what is kept of it depends on its answer.
fn turn(s: MmioV2DeviceState, msi: bool, k: u32, actions: &mut [u64]) -> Result<Done, Refusal>
    ensures value { result ≡ done (length actions.old) (controlled s k (Csr.Turn msi)) }
    ensures actions_after { actions.new ≡ written actions.old (controlled s k (Csr.Turn msi)) }
{
    let u = if k == 0 {
        s.set_driver_failed()
    } else {
        turned(s, msi)
    };
    mmio_state::tell(u, k != 0, Call::Mode(msi).into(), actions)
}

fn heeded(s: MmioV2DeviceState, v: VectorIndex) -> bool
    ensures { result ≡ heeded s v.0 }
{
    mmio_tables::may_update(s.config.dataqueues, v) && s.hot.msi
}

// The index kept, and the message stored if the vector exists. A command's argument has twelve bits.
fn update_state(mut s: MmioV2DeviceState, v: VectorIndex) -> MmioV2DeviceState
    requires { v.0 < 4096 }
    ensures { result ≡ updated_state s v.0 }
{
    if heeded(s, v) {
        let m = s.stage.staged_index_select(v.0 as u32);
        s.stage = m;
        if mmio_tables::vector_exists(v, s.config.vectors) {
            s.vectors = mmio_tables::store_at(s.vectors, v, m);
        }
    }
    s
}

fn asks_update(s: MmioV2DeviceState, v: VectorIndex) -> bool
    ensures { result ≡ asks_update s v.0 }
{
    heeded(s, v) && mmio_tables::vector_exists(v, s.config.vectors) && s.flags.enabled
}

fn update_msi_cfg(
    s: MmioV2DeviceState,
    v: VectorIndex,
    k: u32,
    actions: &mut [u64],
) -> Result<Done, Refusal>
    requires { v.0 < 4096 }
    ensures value { result ≡ done (length actions.old) (commanded s k (Command.Update v)) }
    ensures actions_after { actions.new ≡ written actions.old (commanded s k (Command.Update v)) }
{
    let u = update_state(s, v);
    if asks_update(s, v) {
        mmio_state::tell(u, k != 0, Call::Update(v).into(), actions)
    } else {
        mmio_state::ask_nothing(u, true, actions)
    }
}

fn asks_mask(s: MmioV2DeviceState, v: VectorIndex, mask: bool) -> bool
    ensures { result ≡ asks_mask s v.0 mask }
{
    s.flags.enabled
        && mmio_tables::vector_exists(v, s.config.vectors)
        && mmio_tables::is_masked(s.vectors, v) != mask
}

fn mask_msi_int(
    mut s: MmioV2DeviceState,
    v: VectorIndex,
    mask: bool,
    k: u32,
    actions: &mut [u64],
) -> Result<Done, Refusal>
    ensures value { result ≡ done (length actions.old) (masking s v.0 mask (pick mask (mask_vector v.0) (unmask_vector v.0)) k) }
    ensures actions_after { actions.new ≡ written actions.old (masking s v.0 mask (pick mask (mask_vector v.0) (unmask_vector v.0)) k) }
{
    if !asks_mask(s, v, mask) {
        return mmio_state::ask_nothing(s, true, actions);
    }
    if k != 0 {
        s.vectors = mmio_tables::mask_at(s.vectors, v, mask);
    }
    let call = if mask { Call::Mask(v) } else { Call::Unmask(v) };
    mmio_state::tell(s, k != 0, call.into(), actions)
}

/// The low half of the staged address: kept only while MSI is on.
pub fn set_msi_address_low(s: MmioV2DeviceState, v: u32) -> MmioV2DeviceState
    ensures { result ≡ staged s (with_address_low s.stage v) }
{
    staged(s, s.stage.staged_address_low(v))
}

/// The high half of the staged address: kept only while MSI is on.
pub fn set_msi_address_high(s: MmioV2DeviceState, v: u32) -> MmioV2DeviceState
    ensures { result ≡ staged s (with_address_high s.stage v) }
{
    staged(s, s.stage.staged_address_high(v))
}

/// The staged data: kept only while MSI is on.
pub fn set_msi_data(s: MmioV2DeviceState, v: u32) -> MmioV2DeviceState
    ensures { result ≡ staged s (with_data s.stage v) }
{
    staged(s, s.stage.staged_data(v))
}

/// The interrupt mode: 0c0.
pub fn update_msi_enable(
    s: MmioV2DeviceState,
    v: u16,
    k: u32,
    actions: &mut [u64],
) -> Result<Done, Refusal>
    ensures value { result ≡ done (length actions.old) (enabling s v k) }
    ensures actions_after { actions.new ≡ written actions.old (enabling s v k) }
{
    match mmio_hot::csr_of(s.hot.status, v, s.hot.msi) {
        Csr::Locked => mmio_state::ask_nothing(s.set_driver_failed(), false, actions),
        Csr::Stay => mmio_state::ask_nothing(s, true, actions),
        Csr::Turn(m) => turn(s, m, k, actions),
    }
}

/// A message command: 0c2.
pub fn handle_msi_cmd(
    s: MmioV2DeviceState,
    v: u16,
    k: u32,
    actions: &mut [u64],
) -> Result<Done, Refusal>
    ensures value { result ≡ done (length actions.old) (commanding s v k) }
    ensures actions_after { actions.new ≡ written actions.old (commanding s v k) }
{
    match mmio_hot::command_at(v) {
        Command::Update(w) => update_msi_cfg(s, w, k, actions),
        Command::Mask(w) => mask_msi_int(s, w, true, k, actions),
        Command::Unmask(w) => mask_msi_int(s, w, false, k, actions),
        Command::Other => mmio_state::ask_nothing(s.set_driver_failed(), false, actions),
    }
}
