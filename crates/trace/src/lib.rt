//! The trace: its layout, the configuration block, one record, and the verdict on any bytes (document 01, "The trace"). The
//! Rust has no such file; it is the night desk's.

#![tactic(auto)]

ghost use Rattle.std.specs.Prelude.{◌≡◌, ◌≤◌, drop};
ghost use Rattle.words.specs.Bytes.{read_le};
ghost use Rattle.words.specs.Refusals.{numbered, told};
ghost use Rattle.mmio_v2.specs.Fresh.{refusal};
ghost use Rattle.trace.specs.Block.{block_at, regions_at, share_at, sizes_at};
ghost use Rattle.trace.specs.Form.{pool_place};
ghost use Rattle.trace.specs.Records.{data_good, judged, kind_good, record_at};
ghost use Rattle.trace.specs.Verdict.{count, counted, data_of, fits, header_at, judged_from, layout_of, next_at, verdict_of};

use mmio_config::{Configuration, MAX_REGIONS, Region};
use mmio_v2::MmioV2Device;
use std::array;
use virtq::MAX_QUEUES;
use words::{LittleEndian, Refusal};

/// The longest file that is replayed, the most records in it, and the longest data of a record.
pub const MAX_TRACE: usize = 65536;

pub const MAX_RECORDS: u32 = 2000;

pub const MAX_DATA: u32 = 4096;

/// The kinds of record that there are. A file may have any number in their place.
pub const READ: u32 = 1;

pub const WRITE: u32 = 2;

pub const RAISE: u32 = 3;

/// One record: a read, a write or a raise.
#[derive(Clone, Copy, PartialEq, Eq, Debug)]
pub struct Record {
    pub kind: u32,
    pub k: u32,
    pub place: u64,
    pub len: u32,
    pub start: u32,
}

// The numbers before the configuration block: how many records there are, where the block, the records and the pool stand, and the
// length of the pool.
#[derive(Clone, Copy, PartialEq, Eq, Debug)]
struct Header {
    version: u32,
    count: u32,
    block: u32,
    records: u32,
    pool_place: u32,
    pool: u32,
}

// ---- numbers, 0 past the end

fn number_at<T: LittleEndian>(s: &[u8], at: usize) -> T
    ensures { T.number result ≡ read_le T.width (drop at s.now) }
{
    T::read(s.get(at..).unwrap_or(&[]))
}

// ---- the header

fn header_at(s: &[u8]) -> Header
    ensures { result ≡ header_at s.now }
{
    Header {
        version: number_at(s, 0),
        count: number_at(s, 4),
        block: number_at(s, 8),
        records: number_at(s, 12),
        pool_place: number_at(s, 16),
        pool: number_at(s, 20),
    }
}

// The place of record i, or of the pool behind so many records.
fn place_of(i: usize) -> usize
    requires { i ≤ 4294967295 }
    ensures { result ≡ pool_place i }
{
    264 + 24 * i
}

impl Header {
    // Whether its numbers are those of a file of this length.
    fn fits(self, long: usize) -> bool
        ensures { result ≡ fits self.count self.block self.records self.pool_place self.pool long }
    {
        let end = place_of(self.count as usize);
        self.count <= MAX_RECORDS
            && self.block == 24
            && self.records == 264
            && self.pool_place as usize == end
            && end + self.pool as usize == long
    }
}

// ---- the configuration block

fn sizes_at(s: &[u8]) -> [u16; MAX_QUEUES]
    ensures { result ≡ sizes_at s.now }
{
    array::from_fn(|i| number_at(s, 88 + 2 * i))
}

fn share_at(s: &[u8], i: usize) -> Region
    requires { i ≤ 8 }
    ensures { result ≡ share_at s.now i }
{
    Region {
        offset: number_at(s, 136 + 16 * i),
        length: number_at(s, 144 + 16 * i),
    }
}

fn regions_at(s: &[u8]) -> [Region; MAX_REGIONS]
    ensures { result ≡ regions_at s.now }
{
    array::from_fn(|i| share_at(s, i))
}

/// The configuration that a trace hands over, as it is given; 0 where the bytes end before.
#[tactic(auto, unfolding(crate::specs::Block::block_at))]
pub fn configuration(s: &[u8]) -> Configuration
    ensures { result ≡ block_at s.now }
{
    Configuration {
        base: number_at(s, 24),
        size: number_at(s, 32),
        memory: number_at(s, 40),
        kind: number_at(s, 48),
        given: number_at::<u32>(s, 52) != 0,
        features: number_at(s, 56),
        wildcard: number_at::<u32>(s, 60) != 0,
        msi: number_at::<u32>(s, 64) != 0,
        page0: number_at(s, 68),
        page1: number_at(s, 72),
        vectors: number_at(s, 76),
        dataqueues: number_at(s, 80),
        control: number_at(s, 84),
        sizes: sizes_at(s),
        regions: number_at(s, 120),
        list: number_at(s, 128),
        table: regions_at(s),
    }
}

// ---- one record

// The record that stands at a place.
fn record_at(s: &[u8], at: usize) -> Record
    requires { at ≤ 65536 }
    ensures { result ≡ record_at s.now at }
{
    Record {
        kind: number_at(s, at),
        k: number_at(s, at + 4),
        place: number_at(s, at + 8),
        len: number_at(s, at + 16),
        start: number_at(s, at + 20),
    }
}

/// Whether a record's kind is 1 to 3, and the bits of a raise are below 2^32.
pub fn kind_good(r: Record) -> bool
    ensures { result ≡ kind_good r }
{
    match r.kind {
        READ | WRITE => true,
        RAISE => r.place < 0x1_0000_0000,
        _ => false,
    }
}

fn data_good(r: Record, pool: u32) -> bool
    ensures { result ≡ data_good r pool }
{
    r.len <= MAX_DATA
        && match r.kind {
            READ => r.start == 0,
            WRITE => u64::from(r.start) + u64::from(r.len) <= u64::from(pool),
            _ => r.start == 0 && r.len == 0,
        }
}

/// What is wrong with a record, if the pool has so many bytes: 11 or 12.
pub fn judge(r: Record, pool: u32) -> Result<(), Refusal>
    ensures { told result ≡ judged r pool }
{
    if !kind_good(r) {
        return Err(Refusal::RecordKind);
    }
    if !data_good(r, pool) {
        return Err(Refusal::RecordData);
    }
    Ok(())
}

// ---- the whole

/// What is wrong with a trace's layout: 8 to 10.
#[tactic(auto, unfolding(crate::specs::Verdict::layout_of))]
pub fn layout(s: &[u8]) -> Result<(), Refusal>
    ensures { told result ≡ layout_of s.now }
{
    if s.len() < 24 || MAX_TRACE < s.len() {
        return Err(Refusal::TraceLength);
    }
    let h = header_at(s);
    if h.version != 1 {
        return Err(Refusal::TraceVersion);
    }
    if !h.fits(s.len()) {
        return Err(Refusal::TraceLayout);
    }
    Ok(())
}

fn records(s: &[u8]) -> usize
    ensures { result ≡ count s.now }
{
    header_at(s).count as usize
}

/// How many records a trace has; 0 where its layout is wrong.
pub fn count(s: &[u8]) -> usize
    ensures { result ≡ counted s.now }
{
    if layout(s).is_ok() { records(s) } else { 0 }
}

/// The bytes that a record names: so many from its start in the pool on, as far as the trace has them.
pub fn data_of(s: &[u8], r: Record) -> &[u8]
    ensures { result.now ≡ data_of s.now r }
{
    let start = place_of(header_at(s).count as usize) + r.start as usize;
    let from = s.get(start..).unwrap_or(&[]);
    from.get(..r.len as usize).unwrap_or(from)
}

/// What stands at the place i of a trace: a record that may run, or none; or what is wrong with the layout, or with the record.
#[tactic(auto, using(crate::proofs::Judging::laid_few), unfolding(crate::specs::Verdict::next_at))]
pub fn next_record(s: &[u8], i: usize) -> Result<Option<Record>, Refusal>
    ensures { numbered result ≡ next_at s.now i }
{
    layout(s)?;
    if records(s) <= i {
        return Ok(None);
    }
    let r = record_at(s, place_of(i));
    judge(r, header_at(s).pool)?;
    Ok(Some(r))
}

// The records, one by one, up to the first that may not run.
fn judge_all(s: &[u8], n: usize) -> Result<(), Refusal>
    requires { n ≤ 2000 }
    ensures { told result ≡ judged_from s.now 0 n }
{
    let pool = header_at(s).pool;
    for i in 0..n {
        judge(record_at(s, place_of(i)), pool)?;
    }
    Ok(())
}

fn configured(k: Configuration) -> Result<(), Refusal>
    ensures { told result ≡ refusal k }
{
    MmioV2Device::new(k)?;
    Ok(())
}

/// What is wrong with a trace: 8 to 10, then 11 and 12 record by record, then 1 to 6.
#[tactic(auto, using(crate::proofs::Judging::laid_few), unfolding(crate::specs::Verdict::verdict_of))]
pub fn verdict(s: &[u8]) -> Result<(), Refusal>
    ensures { told result ≡ verdict_of s.now }
{
    layout(s)?;
    judge_all(s, records(s))?;
    configured(configuration(s))
}
