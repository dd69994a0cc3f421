// Copyright (C) 2019 Alibaba Cloud Computing. All rights reserved.
// SPDX-License-Identifier: Apache-2.0 AND BSD-3-Clause

//! The polled registers that mmio_state.rs keeps, and what a write to the message registers asks for.

#![tactic(auto)]

ghost use Rattle.std.specs.Prelude.{◌≡◌};
ghost use Rattle.mmio_hot.specs.Commands.{command_at, csr_of};
ghost use Rattle.mmio_hot.specs.Polled.{failed, with_status, wiped_hot};

use dragonball::{
    MMIO_MSI_CMD_CODE_INT_MASK, MMIO_MSI_CMD_CODE_INT_UNMASK, MMIO_MSI_CMD_CODE_UPDATE,
    MMIO_MSI_CSR_ENABLED,
};
use virtq::VectorIndex;

// The bits of the status (virtio 1.2, 2.1). The Rust takes them from its crate's root.

pub const DEVICE_ACKNOWLEDGE: u32 = 0x1;

pub const DEVICE_DRIVER: u32 = 0x2;

pub const DEVICE_DRIVER_OK: u32 = 0x4;

pub const DEVICE_FEATURES_OK: u32 = 0x8;

pub const DEVICE_FAILED: u32 = 0x80;

/// What the registers that a guest polls read and change: `driver_status`, `interrupt_status`, `device_vendor`,
/// `features_select`, `acked_features_select`, `queue_select`, `shm_region_id`, whether a doorbell stands and whether
/// MSI is on. Numbers only, and first in the device.
#[repr(C)]
#[derive(Clone, Copy, PartialEq, Eq, Debug, Default)]
pub struct Hot {
    pub status: u32,
    pub interrupts: u32,
    pub vendor: u32,
    pub page: u32,
    pub ackpage: u32,
    pub queue: u32,
    pub region: u32,
    pub doorbell: bool,
    pub msi: bool,
}

/// What a write to the control register asks for.
#[derive(Clone, Copy, PartialEq, Eq, Debug)]
pub enum Csr {
    Locked,
    Stay,
    Turn(bool),
}

/// What a message command asks for.
#[derive(Clone, Copy, PartialEq, Eq, Debug)]
pub enum Command {
    Update(VectorIndex),
    Mask(VectorIndex),
    Unmask(VectorIndex),
    Other,
}

// ---- what the polled registers keep

fn with_failed(status: u32) -> u32
    ensures { result ≡ failed status }
{
    status | DEVICE_FAILED
}

impl Hot {
    /// FAILED set.
    pub fn fail(self) -> Self
        ensures { result ≡ with_status self (failed self.status) }
    {
        Hot {
            status: with_failed(self.status),
            ..self
        }
    }

    /// After a state reset.
    pub fn wiped(self) -> Self
        ensures { result ≡ wiped_hot self }
    {
        Hot {
            page: 0,
            ackpage: 0,
            queue: 0,
            doorbell: false,
            msi: false,
            ..self
        }
    }
}

// ---- the message registers

/// What a write to the MSI control and status register asks for.
pub fn csr_of(status: u32, v: u16, msi: bool) -> Csr
    ensures { result ≡ csr_of status v msi }
{
    let on = v & MMIO_MSI_CSR_ENABLED != 0;
    if status & DEVICE_DRIVER_OK != 0 {
        Csr::Locked
    } else if on == msi {
        Csr::Stay
    } else {
        Csr::Turn(on)
    }
}

/// What a write to the MSI command register asks for.
pub fn command_at(v: u16) -> Command
    ensures { result ≡ command_at v }
{
    let command = dragonball::msi_command(v);
    let vector = VectorIndex(u64::from(command.argument));
    match command.code {
        MMIO_MSI_CMD_CODE_UPDATE => Command::Update(vector),
        MMIO_MSI_CMD_CODE_INT_MASK => Command::Mask(vector),
        MMIO_MSI_CMD_CODE_INT_UNMASK => Command::Unmask(vector),
        _ => Command::Other,
    }
}
