// Copyright (C) 2019 Alibaba Cloud Computing. All rights reserved.
//
// SPDX-License-Identifier: Apache-2.0 AND BSD-3-Clause

//! The ladder of status: `update_driver_status` of mmio_v2.rs, on the state by value. A written value is first read as the
//! move that it asks for; the state then makes that move.

#![tactic(auto)]

ghost use Rattle.std.specs.Prelude.{◌≡◌, length};
ghost use Rattle.words.specs.Pick.{pick};
ghost use Rattle.mmio_state.specs.Effect.{done, written};
ghost use Rattle.mmio_ladder.specs.Ladder.{down_move, from, move_of, status_after};
ghost use Rattle.mmio_ladder.specs.Climbing.{climbing, laddered, marked, status_set};

use mmio_hot::{
    DEVICE_ACKNOWLEDGE, DEVICE_DRIVER, DEVICE_DRIVER_OK, DEVICE_FAILED, DEVICE_FEATURES_OK, Hot,
};
use mmio_state::{Done, MmioV2DeviceState};
use words::Refusal;

pub const DEVICE_STATUS_INIT: u32 = 0x0;

pub const DEVICE_STATUS_ACKNOWLEDE: u32 = DEVICE_STATUS_INIT | DEVICE_ACKNOWLEDGE;

pub const DEVICE_STATUS_DRIVER: u32 = DEVICE_STATUS_ACKNOWLEDE | DEVICE_DRIVER;

pub const DEVICE_STATUS_FEATURE_OK: u32 = DEVICE_STATUS_DRIVER | DEVICE_FEATURES_OK;

pub const DEVICE_STATUS_DRIVER_OK: u32 = DEVICE_STATUS_FEATURE_OK | DEVICE_DRIVER_OK;

/// What a value written to the status register asks for.
#[derive(Clone, Copy, PartialEq, Eq, Debug)]
pub enum Move {
    /// The next rung, which asks nothing of the device.
    Take(u32),
    /// The last rung: the device is to be activated.
    Start,
    /// Down again: the device is to be reset.
    Reset,
    /// No change.
    Stay,
    /// What the ladder does not have.
    Fail,
}

// The move if the status is this one exactly.
fn only_from(rung: u32, status: u32, m: Move) -> Move
    ensures { result ≡ from rung status m }
{
    if status == rung { m } else { Move::Fail }
}

fn down(status: u32, active: bool) -> Move
    ensures { result ≡ down_move status active }
{
    if status == DEVICE_STATUS_INIT {
        Move::Stay
    } else if active {
        Move::Reset
    } else {
        Move::Fail
    }
}

/// The move that a written value asks for, at this status.
pub fn move_of(v: u32, status: u32, active: bool) -> Move
    ensures { result ≡ move_of v status active }
{
    match v {
        DEVICE_STATUS_ACKNOWLEDE => only_from(DEVICE_STATUS_INIT, status, Move::Take(v)),
        DEVICE_STATUS_DRIVER => only_from(DEVICE_STATUS_ACKNOWLEDE, status, Move::Take(v)),
        DEVICE_STATUS_FEATURE_OK => only_from(DEVICE_STATUS_DRIVER, status, Move::Take(v)),
        DEVICE_STATUS_DRIVER_OK => only_from(DEVICE_STATUS_FEATURE_OK, status, Move::Start),
        DEVICE_STATUS_INIT => down(status, active),
        _ => only_from(v, status, Move::Stay),
    }
}

fn start_status(ok: bool) -> u32
    ensures { result ≡ pick ok 0xf 0x8f }
{
    if ok {
        DEVICE_STATUS_DRIVER_OK
    } else {
        DEVICE_STATUS_DRIVER_OK | DEVICE_FAILED
    }
}

fn reset_status(h: Hot, ok: bool) -> u32
    ensures { result ≡ status_after Move.Reset h.status ok }
{
    if ok && h.status == DEVICE_STATUS_DRIVER_OK {
        DEVICE_STATUS_INIT
    } else {
        h.fail().status
    }
}

fn set_status(mut s: MmioV2DeviceState, v: u32) -> MmioV2DeviceState
    ensures { result ≡ status_set s v }
{
    s.hot.status = v;
    s
}

fn mark(mut d: Done, v: u32) -> Done
    ensures { result ≡ marked d v }
{
    d.state = set_status(d.state, v);
    d
}

fn start(s: MmioV2DeviceState, k: u32, actions: &mut [u64]) -> Result<Done, Refusal>
    ensures value { result ≡ done (length actions.old) (laddered s k Move.Start) }
    ensures actions_after { actions.new ≡ written actions.old (laddered s k Move.Start) }
{
    let d = s.activate(k, actions)?;
    Ok(mark(d, start_status(d.ok)))
}

fn reset(s: MmioV2DeviceState, k: u32, actions: &mut [u64]) -> Result<Done, Refusal>
    ensures value { result ≡ done (length actions.old) (laddered s k Move.Reset) }
    ensures actions_after { actions.new ≡ written actions.old (laddered s k Move.Reset) }
{
    let d = s.reset(k, actions)?;
    Ok(mark(d, reset_status(s.hot, d.ok)))
}

/// A write to the status register.
pub fn update_driver_status(
    s: MmioV2DeviceState,
    v: u32,
    k: u32,
    actions: &mut [u64],
) -> Result<Done, Refusal>
    ensures value { result ≡ done (length actions.old) (climbing s v k) }
    ensures actions_after { actions.new ≡ written actions.old (climbing s v k) }
{
    match move_of(v, s.hot.status, s.flags.active) {
        Move::Take(w) => mmio_state::ask_nothing(set_status(s, w), true, actions),
        Move::Start => start(s, k, actions),
        Move::Reset => reset(s, k, actions),
        Move::Stay => mmio_state::ask_nothing(s, true, actions),
        Move::Fail => mmio_state::ask_nothing(s.set_driver_failed(), false, actions),
    }
}
