// Copyright (C) 2019 Alibaba Cloud Computing. All rights reserved.
// SPDX-License-Identifier: Apache-2.0 AND BSD-3-Clause

//! What the gateway hands over to mmio_state.rs: its refusals, what is kept of it, and a fresh device's parts.

#![tactic(auto)]

ghost use Rattle.std.specs.Prelude.{◌≡◌, ℕ, ◌≤◌};
ghost use Rattle.std.specs.List.{list_all};
ghost use Rattle.words.specs.Lists.{each};
ghost use Rattle.virtq.specs.Index.{max_queues};
ghost use Rattle.mmio_config.specs.Fresh.{accepted, checked, configured, fresh_hot, fresh_queues, maxima, maxima_fit, maximum_fit, no_config, queue_count, refused_for, region_at};

use mmio_hot::Hot;
use std::array;
use virtq::{MAX_QUEUES, Memory, Queue};
use words::Refusal;

/// The vectors and the regions that the tables have room for.
pub const MAX_VECTORS: usize = 32;

pub const MAX_REGIONS: usize = 8;

/// A shared-memory region: where it lies in the list, and how long it is.
#[repr(C)]
#[derive(Clone, Copy, PartialEq, Eq, Debug, Default)]
pub struct Region {
    pub offset: u64,
    pub length: u64,
}

/// What the gateway hands over, as it is given.
#[repr(C)]
#[derive(Clone, Copy)]
pub struct Configuration {
    pub base: u64,
    pub size: u64,
    pub memory: u64,
    pub kind: u32,
    pub given: bool,
    pub features: u32,
    pub wildcard: bool,
    pub msi: bool,
    pub page0: u32,
    pub page1: u32,
    pub vectors: u32,
    pub dataqueues: u32,
    pub control: u32,
    pub sizes: [u16; MAX_QUEUES],
    pub regions: u32,
    pub list: u64,
    pub table: [Region; MAX_REGIONS],
}

/// What of an accepted configuration the device goes by. Entries past the counts are 0.
#[repr(C)]
#[derive(Clone, Copy)]
pub struct Config {
    pub base: u64,
    pub memory: Memory,
    pub list: u64,
    pub kind: u32,
    pub page0: u32,
    pub page1: u32,
    pub vectors: u32,
    pub dataqueues: u32,
    pub count: u32,
    pub regions: u32,
    pub sizes: [u16; MAX_QUEUES],
    pub table: [Region; MAX_REGIONS],
}

/// `device_activated`, `ioevent_registered`, and whether interrupts are enabled.
#[repr(C)]
#[derive(Clone, Copy, PartialEq, Eq, Debug, Default)]
pub struct Flags {
    pub active: bool,
    pub registered: bool,
    pub enabled: bool,
}

/// A vector's stored message, and its mask.
#[repr(C)]
#[derive(Clone, Copy, PartialEq, Eq, Debug, Default)]
pub struct Vector {
    pub low: u32,
    pub high: u32,
    pub message: u32,
    pub masked: bool,
}

// ---- from a configuration

fn maximum_fit(size: u32) -> bool
    ensures { result ≡ maximum_fit size }
{
    virtq::size_fit(32768, size)
}

fn sizes_fit(sizes: &[u16]) -> bool
    ensures { result ≡ list_all maximum_fit sizes.now }
{
    sizes.iter().all(|&size| maximum_fit(u32::from(size)))
}

fn maxima_fit(c: Configuration) -> bool
    requires { c.dataqueues ≤ max_queues }
    ensures { result ≡ maxima_fit c }
{
    let n = c.dataqueues as usize;
    sizes_fit(&c.sizes[..n]) && (c.control == 0 || maximum_fit(c.control))
}

// Queues, the control queue included.
fn queue_count(c: Configuration) -> u64
    ensures { result ≡ queue_count c }
{
    u64::from(c.dataqueues) + u64::from(c.control != 0)
}

// The checks, in the order of their numbers.
fn check(c: Configuration) -> Result<(), Refusal>
    ensures { result ≡ checked (refused_for c) }
{
    let count = queue_count(c);
    if 0xffff_ffff_ffff_e000 < c.base {
        Err(Refusal::WindowBase)
    } else if count == 0 || count > MAX_QUEUES as u64 {
        Err(Refusal::QueueCount)
    } else if !maxima_fit(c) {
        Err(Refusal::QueueSize)
    } else if c.vectors as usize > MAX_VECTORS {
        Err(Refusal::VectorCount)
    } else if c.regions as usize > MAX_REGIONS {
        Err(Refusal::RegionCount)
    } else {
        Ok(())
    }
}

// The data queues' maximum sizes, then the control queue's, then none.
fn maxima(c: Configuration) -> [u16; MAX_QUEUES]
    requires { c.control ≤ 32768 }
    ensures { result ≡ maxima c }
{
    let dataqueues = c.dataqueues as usize;
    array::from_fn(|i| {
        if i < dataqueues {
            c.sizes[i]
        } else if i == dataqueues {
            c.control as u16
        } else {
            0
        }
    })
}

fn kept_regions(table: [Region; MAX_REGIONS], regions: u32) -> [Region; MAX_REGIONS]
    ensures { result ≡ each (region_at regions) table }
{
    array::from_fn(|i| {
        if i < regions as usize {
            table[i]
        } else {
            Region::default()
        }
    })
}

/// Every queue as a wipe leaves it.
pub fn create_queues(sizes: [u16; MAX_QUEUES]) -> [Queue; MAX_QUEUES]
    ensures { result ≡ fresh_queues sizes }
{
    array::from_fn(|i| Queue::fresh(sizes[i]))
}

/// The polled registers of a fresh device.
pub fn fresh_hot(c: Configuration) -> Hot
    ensures { result ≡ fresh_hot c }
{
    let features = c.given.then_some(c.features);
    Hot {
        vendor: dragonball::device_vendor(c.msi, features, c.wildcard),
        doorbell: dragonball::doorbell_enabled(features, c.wildcard),
        ..Hot::default()
    }
}

fn accept(c: Configuration) -> Config
    requires { (c.control ≤ 32768) × (c.dataqueues ≤ 16) }
    ensures { result ≡ accepted c }
{
    Config {
        base: c.base,
        memory: Memory { length: c.memory },
        list: c.list,
        kind: c.kind,
        page0: c.page0,
        page1: c.page1,
        vectors: c.vectors,
        dataqueues: c.dataqueues,
        count: c.dataqueues + u32::from(c.control != 0),
        regions: c.regions,
        sizes: maxima(c),
        table: kept_regions(c.table, c.regions),
    }
}

/// What an accepted configuration comes to, or its refusal: 2 to 6.
#[tactic(auto, unfolding(crate::specs::Fresh::configured), using(crate::proofs::Accepting::small))]
pub fn configure(c: Configuration) -> Result<Config, Refusal>
    ensures { result ≡ configured c }
{
    check(c)?;
    Ok(accept(c))
}

/// No configuration: every word 0.
impl Default for Config {
    ghost is_default = { λ c. c ≡ no_config };

    fn default() -> Config {
        Config {
            base: 0,
            memory: Memory { length: 0 },
            list: 0,
            kind: 0,
            page0: 0,
            page1: 0,
            vectors: 0,
            dataqueues: 0,
            count: 0,
            regions: 0,
            sizes: [0; MAX_QUEUES],
            table: [Region::default(); MAX_REGIONS],
        }
    }
}
