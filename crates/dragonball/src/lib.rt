// From src/mmio/dragonball.rs:
//
// Copyright (C) 2019 Alibaba Cloud. All rights reserved.
// SPDX-License-Identifier: Apache-2.0 or BSD-3-Clause
//
// From src/mmio/mmio_state.rs and src/mmio/mmio_v2.rs, the functions after `DoorBell`:
//
// Copyright (C) 2019 Alibaba Cloud Computing. All rights reserved.
// SPDX-License-Identifier: Apache-2.0 AND BSD-3-Clause

//! Related to Dragonball MMIO extension.

#![tactic(auto)]

ghost use Rattle.std.specs.Prelude.{◌≡◌, ℕ, ◌<◌};
ghost use Rattle.std.specs.Option.{is_some, unwrap_or};
ghost use Rattle.words.specs.Pick.{pick};
ghost use Rattle.dragonball.specs.Vendor.{feature_bits, fresh_doorbell, vendor_word};
ghost use Rattle.dragonball.specs.DoorBell.{door_bell, queue_offset, register_data};
ghost use Rattle.dragonball.specs.Messages.{command_of};
ghost use Rattle.dragonball.specs.Regions.{high_word, low_word, region_base};

use virtq::QueueIndex;

/// Device Vendor ID for virtio devices emulated by Dragonball.
/// The upper 24 bits are used as vendor id, and the lower 8 bits are used as features.
pub const MMIO_VENDOR_ID_DRAGONBALL: u32 = 0xdbfcdb00;

/// Mask for feature flags in the vendor id field
pub const DRAGONBALL_FEATURE_MASK: u32 = 0xff;

/// Assume `MMIO_INT_VRING` is always set in the interrupt status register when handling interrupts.
/// With this feature available, the device driver may optimize the way to handle interrupts.
pub const DRAGONBALL_FEATURE_INTR_USED: u32 = 0x1;

/// The device supports Message Signaled Interrupt.
pub const DRAGONBALL_FEATURE_MSI_INTR: u32 = 0x2;

/// The device implements per-queue notification register.
/// If this feature bit is set, the VIRTIO_MMIO_QUEUE_NOTIFY register becomes read-write.
/// On reading, the lower 16-bit contains doorbell base offset starting from the MMIO window base,
/// and the upper 16-bit contains scale for the offset. The notification register address for
/// virtque is:
///     offset = base + doorbell_base + doorbell_scale * queue_idx
pub const DRAGONBALL_FEATURE_PER_QUEUE_NOTIFY: u32 = 0x4;

/// PVDMA feature enabled
pub const DRAGONBALL_FEATURE_PVDMA: u32 = 0x08;

/// Default size resrved for virtio-mmio doorbell address space.
///
/// This represents the size of the mmio device reserved for doorbell which used to per queue notify,
/// we need to request resource with the `MMIO_DEFAULT_CFG_SIZE + DRAGONBALL_MMIO_DOORBELL_SIZE`
pub const DRAGONBALL_MMIO_DOORBELL_SIZE: u64 = 0x1000;

/// Default offset of the mmio doorbell
pub const DRAGONBALL_MMIO_DOORBELL_OFFSET: u64 = 0x1000;

/// Max queue num when the `fast-mmio` enabled, because we only reserved 0x200 memory region for
/// per queue notify
pub const DRAGONBALL_MMIO_MAX_QUEUE_NUM: u64 = 255;

/// Scale of the doorbell for per queue notify
pub const DRAGONBALL_MMIO_DOORBELL_SCALE: u64 = 0x04;

/// This represents the offset at which the device should call DeviceIo::write in order to write
/// to its configuration space.
pub const MMIO_CFG_SPACE_OFF: u64 = 0x100;

// The format of the 16-bit MSI Control and Status register.
// On read:
// - bit 15: 1 if MSI is supported, 0 if MSI is not supported.
// - bit 0-14: reserved, read as zero.
// On write:
// - bit 15: 1 to enable MSI, 0 to disable MSI.
// - bit 0-14: ignored.

/// Message Signaled Interrupt is supported when reading from the CSR.
pub const MMIO_MSI_CSR_SUPPORTED: u16 = 0x8000;

/// Enable MSI if this bit is set when writing to the CSR, otherwise disable MSI.
pub const MMIO_MSI_CSR_ENABLED: u16 = 0x8000;

// The format of the 16-bit write-only MSI Command register.
// - bit 12-15: command code
// - bit 0-11: command parameter

/// Mask for the command code in the MSI command register.
pub const MMIO_MSI_CMD_CODE_MASK: u16 = 0xf000;

/// Mask for the command argument in the MSI command register.
pub const MMIO_MSI_CMD_ARG_MASK: u16 = 0x0fff;

/// Command code to update MSI entry configuration.
/// The argument is the MSI vector number to update.
pub const MMIO_MSI_CMD_CODE_UPDATE: u16 = 0x1000;
/// Comamnd to mask and unmask msi interrupt
pub const MMIO_MSI_CMD_CODE_INT_MASK: u16 = 0x2000;

pub const MMIO_MSI_CMD_CODE_INT_UNMASK: u16 = 0x3000;

// Define a 16-byte area to control MMIO MSI

// MSI control/status register offset
pub const REG_MMIO_MSI_CSR: u64 = 0x0c0;
// MSI command register offset
pub const REG_MMIO_MSI_COMMAND: u64 = 0x0c2;
// MSI address_lo register offset
pub const REG_MMIO_MSI_ADDRESS_L: u64 = 0x0c4;
// MSI address_hi register offset
pub const REG_MMIO_MSI_ADDRESS_H: u64 = 0x0c8;
// MSI data register offset
pub const REG_MMIO_MSI_DATA: u64 = 0x0cc;

// RW: MSI feature enabled
pub const REG_MMIO_MSI_CSR_ENABLE: u64 = 0x8000;
// RO: Maximum queue size available
pub const REG_MMIO_MSI_CSR_QMASK: u64 = 0x07ff;
// Reserved
pub const REG_MMIO_MSI_CSR_RESERVED: u64 = 0x7800;

pub const REG_MMIO_MSI_CMD_UPDATE: u64 = 0x1;

/// Defines the offset and scale of the mmio doorbell.
///
/// Support per-virtque doorbell, so the guest kernel may directly write to the doorbells provided
/// by hardware virtio devices.
#[repr(C)]
#[derive(Clone, Copy, PartialEq, Eq, Debug)]
pub struct DoorBell {
    offset: u32,
    scale: u32,
}

impl DoorBell {
    /// Creates a Doorbell.
    pub fn new(offset: u32, scale: u32) -> Self
        ensures { result ≡ door_bell offset scale }
    {
        Self { offset, scale }
    }

    /// Returns the offset.
    pub fn offset(self) -> u32
        ensures { result ≡ self.offset }
    {
        self.offset
    }

    /// Returns the scale.
    pub fn scale(self) -> u32
        ensures { result ≡ self.scale }
    {
        self.scale
    }

    /// Returns the offset with the specified index of virtio queue. An index of 32 bits keeps it below 2^64.
    pub fn queue_offset(self, queue_index: QueueIndex) -> u64
        ensures { result ≡ queue_offset self queue_index }
    {
        u64::from(self.offset) + u64::from(self.scale) * u64::from(queue_index.0)
    }

    /// Returns the register data. The shift drops what leaves the word, as it does in the Rust.
    pub fn register_data(self) -> u32
        ensures { result ≡ register_data self }
    {
        self.offset | (self.scale << 16)
    }
}

// In mmio_state.rs and mmio_v2.rs what follows is spread over functions with other work. Here each rule is a function.

/// A message command taken apart.
#[derive(Clone, Copy, PartialEq, Eq, Debug)]
pub struct MsiCommand {
    pub code: u16,
    pub argument: u16,
}

/// The code and the argument of a message command.
pub fn msi_command(v: u16) -> MsiCommand
    ensures { result ≡ command_of v }
{
    MsiCommand {
        code: v & MMIO_MSI_CMD_CODE_MASK,
        argument: v & MMIO_MSI_CMD_ARG_MASK,
    }
}

fn msi_feature(msi: bool) -> u32
    ensures { result ≡ pick msi 2 0 }
{
    if msi { DRAGONBALL_FEATURE_MSI_INTR } else { 0 }
}

fn feature_bits(features: Option<u32>, wildcard: bool) -> u32
    ensures { result ≡ feature_bits (is_some features) (unwrap_or features 0) wildcard }
{
    let low = features.unwrap_or(0) & DRAGONBALL_FEATURE_MASK;
    if wildcard {
        return low;
    }
    low & !DRAGONBALL_FEATURE_PER_QUEUE_NOTIFY
}

/// The vendor word: from the configuration's MSI flag, the features word if one is given, and whether the host serves a
/// registration that matches any length.
pub fn device_vendor(msi: bool, features: Option<u32>, wildcard: bool) -> u32
    ensures { result ≡ vendor_word msi (is_some features) (unwrap_or features 0) wildcard }
{
    MMIO_VENDOR_ID_DRAGONBALL | msi_feature(msi) | feature_bits(features, wildcard)
}

/// Whether a fresh device has a doorbell.
pub fn doorbell_enabled(features: Option<u32>, wildcard: bool) -> bool
    ensures { result ≡ fresh_doorbell (is_some features) (unwrap_or features 0) wildcard }
{
    let word = features.unwrap_or(0);
    wildcard && word & DRAGONBALL_FEATURE_PER_QUEUE_NOTIFY != 0
}

/// The address of a shared-memory region: its offset in the list, added to the list's address.
pub fn shm_base(offset: u64, guest_addr: u64) -> u64
    ensures { result ≡ region_base offset guest_addr }
{
    offset.wrapping_add(guest_addr)
}

/// The low half of a word of 64 bits.
pub fn low_word(v: u64) -> u32
    ensures { result ≡ low_word v }
{
    (v % 0x1_0000_0000) as u32
}

/// The high half of a word of 64 bits.
pub fn high_word(v: u64) -> u32
    ensures { result ≡ high_word v }
{
    (v / 0x1_0000_0000) as u32
}
