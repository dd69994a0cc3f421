// Copyright (C) 2019 Alibaba Cloud Computing. All rights reserved.
// SPDX-License-Identifier: Apache-2.0 AND BSD-3-Clause

//! One entry of each table that mmio_state.rs keeps: queues, regions, registrations, vectors.

#![tactic(auto)]

ghost use Rattle.std.specs.Prelude.{◌≡◌, get_or};
ghost use Rattle.mmio_config.specs.Fresh.{no_vector};
ghost use Rattle.mmio_tables.specs.Tables.{counted, field_at, found_at, held_reply_of, kind_numbered, masked_at, place_of, queue_field_at, reply_of, size_at, standing_at, standing_of, stored_at, updatable, updated_at, valid_all, vector_at};

use mmio_config::{MAX_REGIONS, MAX_VECTORS, Region, Vector};
use msi::Msi;
use tape::{Entry, Held};
use virtq::{Field, MAX_QUEUES, Memory, Queue, QueueIndex, VectorIndex};
use words::Refusal;

/// A field of a queue, or refusal 13 and 0.
#[repr(C)]
#[derive(Clone, Copy, PartialEq, Eq, Debug)]
pub struct Reply {
    pub refusal: u32,
    pub value: u32,
}

impl From<Result<u32, Refusal>> for Reply {
    ghost from_gives = { λ r x. x ≡ reply_of r };

    fn from(r: Result<u32, Refusal>) -> Reply {
        match r {
            Ok(value) => Reply { refusal: 0, value },
            Err(e) => Reply {
                refusal: e.number(),
                value: 0,
            },
        }
    }
}

/// Which of a queue's registrations is asked about.
#[derive(Clone, Copy, PartialEq, Eq, Debug)]
pub enum Kind {
    Doorbell,
    Notify,
}

impl TryFrom<u32> for Kind {
    type Error = Refusal;

    ghost try_from_gives = { λ n r. r ≡ kind_numbered n };

    fn try_from(n: u32) -> Result<Kind, Refusal> {
        match n {
            0 => Ok(Kind::Doorbell),
            1 => Ok(Kind::Notify),
            _ => Err(Refusal::UnknownQueue),
        }
    }
}

/// Whether a registration stands, and its operands.
#[derive(Clone, Copy)]
pub struct Standing {
    pub stands: bool,
    pub entry: Entry,
}

/// Whether a registration stands and its operands, or refusal 13 and zeros.
#[repr(C)]
#[derive(Clone, Copy)]
pub struct HeldReply {
    pub refusal: u32,
    pub stands: bool,
    pub entry: Entry,
}

impl From<Result<Standing, Refusal>> for HeldReply {
    ghost from_gives = { λ r x. x ≡ held_reply_of r };

    fn from(r: Result<Standing, Refusal>) -> HeldReply {
        match r {
            Ok(standing) => HeldReply {
                refusal: 0,
                stands: standing.stands,
                entry: standing.entry,
            },
            Err(e) => HeldReply {
                refusal: e.number(),
                stands: false,
                entry: Entry::default(),
            },
        }
    }
}

/// The queues that are there: the count, within the table.
pub fn queues_in(count: u32) -> u32
    ensures { result ≡ counted count }
{
    count.min(MAX_QUEUES as u32)
}

// The place of a queue in the tables, or refusal 13.
fn place_of(q: QueueIndex, count: u32) -> Result<usize, Refusal>
    ensures { result ≡ place_of q.0 (counted count) }
{
    if q.0 < queues_in(count) {
        Ok(q.0 as usize)
    } else {
        Err(Refusal::UnknownQueue)
    }
}

/// The maximum size of a queue, 0 if it isn't there.
pub fn size_at(sizes: [u16; MAX_QUEUES], q: QueueIndex, count: u32) -> u32
    ensures { result ≡ size_at sizes q.0 (counted count) }
{
    place_of(q, count).map_or(0, |at| u32::from(sizes[at]))
}

/// A field of a queue, 0 if the queue isn't there.
pub fn field_at(queues: [Queue; MAX_QUEUES], q: QueueIndex, count: u32, f: Field) -> u32
    ensures { result ≡ field_at queues q.0 (counted count) f }
{
    queue_field_at(queues, q, count, f).unwrap_or(0)
}

/// A field of a queue, or refusal 13.
pub fn queue_field_at(
    queues: [Queue; MAX_QUEUES],
    q: QueueIndex,
    count: u32,
    f: Field,
) -> Result<u32, Refusal>
    ensures { result ≡ queue_field_at queues q.0 (counted count) f }
{
    let at = place_of(q, count)?;
    Ok(queues[at].get(f))
}

/// The queues after a write to a field of one of them.
pub fn update_at(
    mut queues: [Queue; MAX_QUEUES],
    sizes: [u16; MAX_QUEUES],
    q: QueueIndex,
    count: u32,
    f: Field,
    v: u32,
) -> [Queue; MAX_QUEUES]
    ensures { result ≡ updated_at queues sizes q.0 (counted count) f v }
{
    if let Ok(at) = place_of(q, count) {
        queues[at] = queues[at].update(sizes[at], f, v);
    }
    queues
}

/// Whether every queue may be started.
#[tactic(auto, unfolding(crate::specs::Tables::valid_all))]
pub fn all_valid(queues: [Queue; MAX_QUEUES], count: u32, memory: Memory) -> bool
    ensures { result ≡ valid_all queues (counted count) memory }
{
    virtq::first_invalid(queues, count as usize, memory).is_none()
}

/// A region, if it is there.
pub fn found_at(table: [Region; MAX_REGIONS], id: u32, n: u32) -> Option<Region>
    ensures { result ≡ found_at table id n }
{
    if id < n {
        table.get(id as usize).copied()
    } else {
        None
    }
}

fn stands_as(h: Held, k: Kind, base: u64, q: QueueIndex) -> Standing
    ensures { result ≡ standing_of h k base q.0 }
{
    match k {
        Kind::Doorbell => Standing {
            stands: h.bell,
            entry: tape::bell_entry(base, q),
        },
        Kind::Notify => Standing {
            stands: h.note,
            entry: tape::note_entry(base, q),
        },
    }
}

/// Whether a registration of a queue stands and what it is made with, or refusal 13.
pub fn standing_at(
    held: [Held; MAX_QUEUES],
    q: QueueIndex,
    count: u32,
    base: u64,
    k: Kind,
) -> Result<Standing, Refusal>
    ensures { result ≡ standing_at held q.0 (counted count) base k }
{
    let at = place_of(q, count)?;
    Ok(stands_as(held[at], k, base, q))
}

/// Whether the update command may name the vector: vector 0, or the vector of a data queue.
pub fn may_update(dataqueues: u32, v: VectorIndex) -> bool
    ensures { result ≡ updatable dataqueues v.0 }
{
    v.0 <= u64::from(dataqueues)
}

/// Whether a vector exists.
pub fn vector_exists(v: VectorIndex, vectors: u32) -> bool
    ensures { result ≡ vector_at v.0 vectors }
{
    v.0 < MAX_VECTORS as u64 && v.0 < u64::from(vectors)
}

/// The vectors with a message stored in one of them.
pub fn store_at(mut vectors: [Vector; MAX_VECTORS], v: VectorIndex, m: Msi) -> [Vector; MAX_VECTORS]
    ensures { result ≡ stored_at vectors v.0 m }
{
    if v.0 < MAX_VECTORS as u64 {
        let at = v.0 as usize;
        vectors[at] = Vector {
            low: m.address_low,
            high: m.address_high,
            message: m.data,
            ..vectors[at]
        };
    }
    vectors
}

/// Whether a vector is masked.
pub fn is_masked(vectors: [Vector; MAX_VECTORS], v: VectorIndex) -> bool
    ensures { result ≡ (get_or vectors v.0 no_vector).masked }
{
    vectors
        .get(v.0 as usize)
        .is_some_and(|vector| vector.masked)
}

/// The vectors with the mask of one of them set or cleared.
pub fn mask_at(mut vectors: [Vector; MAX_VECTORS], v: VectorIndex, m: bool) -> [Vector; MAX_VECTORS]
    ensures { result ≡ masked_at vectors v.0 m }
{
    if v.0 < MAX_VECTORS as u64 {
        vectors[v.0 as usize].masked = m;
    }
    vectors
}
