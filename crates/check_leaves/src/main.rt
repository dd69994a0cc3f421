//! Runs the lowest floors on the bench checks that they decide and on their limits. Each line has what was asked, and then
//! the answers in that order; it is held to the file `stdout`.
#![tactic(auto)]

use dragonball::DoorBell;
use msi::Msi;
use registers::{ReadRegister, WriteRegister};
use show::{dec, flag, hex, say};
use std::io;
use virtq::{Field, Memory, Queue, QueueIndex};
use words::{Action, LittleEndian};

fn size(rt: &impl Print, max: u16, v: u32) -> io::Result<()> {
    let q = Queue::fresh(max).update(max, Field::Size, v);
    dec(rt, u64::from(q.size))
}

fn sizes(rt: &impl Print) -> io::Result<()> {
    say(
        rt,
        b"\nmaximum 512, size 0x10100, 300, 0, 1, 1024, 0x10000:",
    )?;
    size(rt, 512, 0x10100)?;
    size(rt, 512, 300)?;
    size(rt, 512, 0)?;
    size(rt, 512, 1)?;
    size(rt, 512, 1024)?;
    size(rt, 512, 0x10000)?;
    say(rt, b"\nmaximum 32768, size 16384, 65536:")?;
    size(rt, 32768, 16384)?;
    size(rt, 32768, 65536)
}

fn field(rt: &impl Print, f: Field, v: u32) -> io::Result<()> {
    let q = Queue::fresh(512).update(512, f, v);
    hex(rt, u64::from(q.get(f)))
}

fn fields(rt: &impl Print) -> io::Result<()> {
    say(rt, b"\nready 0x101, 1, 0:")?;
    field(rt, Field::Ready, 0x101)?;
    field(rt, Field::Ready, 1)?;
    field(rt, Field::Ready, 0)?;
    say(
        rt,
        b"\ndescriptor 0x1008, 0x1010, available 0x1001, 0x1002, used 0x1002, 0x1004:",
    )?;
    field(rt, Field::DescLow, 0x1008)?;
    field(rt, Field::DescLow, 0x1010)?;
    field(rt, Field::AvailLow, 0x1001)?;
    field(rt, Field::AvailLow, 0x1002)?;
    field(rt, Field::UsedLow, 0x1002)?;
    field(rt, Field::UsedLow, 0x1004)?;
    say(rt, b"\nhigh halves 0x1008, 0xffffffff, 1:")?;
    field(rt, Field::DescHigh, 0x1008)?;
    field(rt, Field::AvailHigh, 0xffff_ffff)?;
    field(rt, Field::UsedHigh, 1)
}

fn inside(rt: &impl Print, length: u64, start: u64, n: u64) -> io::Result<()> {
    flag(rt, Memory { length }.inside(start, n))
}

fn areas(rt: &impl Print) -> io::Result<()> {
    say(
        rt,
        b"\nmemory 0x10000, 256 descriptors at 0xf000, 0xf010; a wrapping end, one byte too long, all of it:",
    )?;
    inside(rt, 0x10000, 0xf000, 16 * 256)?;
    inside(rt, 0x10000, 0xf010, 16 * 256)?;
    inside(rt, 0x10000, 0xffff_ffff_ffff_f000, 0x1000)?;
    inside(rt, 0x10000, 0, 0x10001)?;
    inside(rt, 0x10000, 0, 0x10000)?;
    say(
        rt,
        b"\nno memory, no byte of it, one byte; memory 2^64 - 1, up to its end, one past:",
    )?;
    inside(rt, 0, 0, 0)?;
    inside(rt, 0, 0, 1)?;
    inside(rt, 0xffff_ffff_ffff_ffff, 0xffff_ffff_ffff_fff0, 15)?;
    inside(rt, 0xffff_ffff_ffff_ffff, 0xffff_ffff_ffff_fff0, 16)
}

// A queue of 256 whose used area, of 2,054 bytes, starts at `used`.
fn laid_out(used: u32) -> Queue {
    let mut q = Queue::fresh(256);
    q.ready = true;
    q.desclow = 0x1000;
    q.availlow = 0x2000;
    q.usedlow = used;
    q
}

fn valid(rt: &impl Print, used: u32) -> io::Result<()> {
    flag(rt, laid_out(used).valid(Memory { length: 0x4000 }))
}

// Sixteen valid queues but for those at the places that are named.
fn scan(rt: &impl Print, bad: &[(usize, Queue)], n: usize) -> io::Result<()> {
    let mut queues = [laid_out(0x37fa); 16];
    for &(place, queue) in bad {
        if let Some(q) = queues.get_mut(place) {
            *q = queue;
        }
    }
    match virtq::first_invalid(queues, n, Memory { length: 0x4000 }) {
        None => say(rt, b" none"),
        Some(q) => dec(rt, u64::from(q.0)),
    }
}

fn scans(rt: &impl Print) -> io::Result<()> {
    say(
        rt,
        b"\nmemory 0x4000, a queue that ends with it, one byte further; a fresh queue:",
    )?;
    valid(rt, 0x37fa)?;
    valid(rt, 0x37fb)?;
    flag(rt, Queue::fresh(256).valid(Memory { length: 0x4000 }))?;
    say(
        rt,
        b"\nall 16 valid, 17 asked for; 15 invalid, left out; 15 and 3; 15 and 0; of no queue:",
    )?;
    let long = laid_out(0x3800);
    let fresh = Queue::fresh(256);
    scan(rt, &[], 16)?;
    scan(rt, &[], 17)?;
    scan(rt, &[(15, long)], 16)?;
    scan(rt, &[(15, long)], 15)?;
    scan(rt, &[(15, long), (3, fresh)], 16)?;
    scan(rt, &[(15, long), (0, fresh)], 16)?;
    scan(rt, &[(15, long), (0, fresh)], 0)
}

fn vector(rt: &impl Print, q: u32) -> io::Result<()> {
    dec(rt, QueueIndex(q).vector().0)
}

fn indices(rt: &impl Print) -> io::Result<()> {
    say(rt, b"\nvectors of queues 0, 15, 4294967295:")?;
    vector(rt, 0)?;
    vector(rt, 15)?;
    vector(rt, 0xffff_ffff)
}

fn region(rt: &impl Print, offset: u64, list: u64) -> io::Result<()> {
    let base = dragonball::shm_base(offset, list);
    hex(rt, u64::from(dragonball::low_word(base)))?;
    hex(rt, u64::from(dragonball::high_word(base)))
}

fn regions(rt: &impl Print) -> io::Result<()> {
    say(
        rt,
        b"\nregion 0xffffffff00000000, list 0x100000001; region 0x12340000, list 0x500005678:",
    )?;
    region(rt, 0xffff_ffff_0000_0000, 0x1_0000_0001)?;
    region(rt, 0x1234_0000, 0x5_0000_5678)
}

fn vendor(
    rt: &impl Print,
    msi: bool,
    given: bool,
    features: u32,
    wildcard: bool,
) -> io::Result<()> {
    let features = given.then_some(features);
    hex(
        rt,
        u64::from(dragonball::device_vendor(msi, features, wildcard)),
    )?;
    flag(rt, dragonball::doorbell_enabled(features, wildcard))
}

fn vendors(rt: &impl Print) -> io::Result<()> {
    say(
        rt,
        b"\nvendor and doorbell, nothing given; MSI; features 0x1ff with wildcard, without; MSI and bit 1; 0xfb:",
    )?;
    vendor(rt, false, false, 0xffff_ffff, true)?;
    vendor(rt, true, false, 0, false)?;
    vendor(rt, false, true, 0x1ff, true)?;
    vendor(rt, false, true, 0x1ff, false)?;
    vendor(rt, true, true, 2, false)?;
    vendor(rt, false, true, 0xfb, true)
}

fn doorbell(rt: &impl Print, offset: u32, scale: u32, q: u32) -> io::Result<()> {
    let d = DoorBell::new(offset, scale);
    hex(rt, u64::from(d.register_data()))?;
    hex(rt, d.queue_offset(QueueIndex(q)))
}

fn doorbells(rt: &impl Print) -> io::Result<()> {
    say(
        rt,
        b"\nword and offset, the default's at queue 15; the largest; a scale that leaves the word:",
    )?;
    doorbell(rt, 0x1000, 4, 15)?;
    doorbell(rt, 0xffff_ffff, 0xffff_ffff, 0xffff_ffff)?;
    doorbell(rt, 1, 0x10004, 0)
}

fn command(rt: &impl Print, v: u16) -> io::Result<()> {
    let m = dragonball::msi_command(v);
    hex(rt, u64::from(m.code))?;
    dec(rt, u64::from(m.argument))
}

fn message(rt: &impl Print, m: Msi) -> io::Result<()> {
    dec(rt, u64::from(m.index_select))?;
    dec(rt, u64::from(m.address_low))?;
    dec(rt, u64::from(m.address_high))?;
    dec(rt, u64::from(m.data))
}

fn messages(rt: &impl Print) -> io::Result<()> {
    say(rt, b"\ncommands 0x1002, 0x0001, 0x3fff, 0xffff:")?;
    command(rt, 0x1002)?;
    command(rt, 0x0001)?;
    command(rt, 0x3fff)?;
    command(rt, 0xffff)?;
    say(rt, b"\na stage of 1, 2, 3, 4:")?;
    let m = Msi::default()
        .with_index_select(1)
        .with_address_low(2)
        .with_address_high(3)
        .with_data(4);
    message(rt, m)?;
    say(rt, b"\nits copies lent, each word alone set to 5:")?;
    message(rt, m.staged_index_select(5))?;
    message(rt, m.staged_address_low(5))?;
    message(rt, m.staged_address_high(5))?;
    message(rt, m.staged_data(5))?;
    say(
        rt,
        b"\none after the other, data first, the largest and 6, 7, 8; and the first stage:",
    )?;
    let n = m
        .staged_data(0xffff_ffff)
        .staged_index_select(6)
        .staged_address_low(7)
        .staged_address_high(8);
    message(rt, n)?;
    message(rt, m)
}

fn read_name(r: ReadRegister) -> u64 {
    match r {
        ReadRegister::MagicValue => 0,
        ReadRegister::Version => 1,
        ReadRegister::DeviceId => 2,
        ReadRegister::VendorId => 3,
        ReadRegister::DeviceFeature => 4,
        ReadRegister::QueueNumMax => 5,
        ReadRegister::QueueReady => 6,
        ReadRegister::QueueNotify => 7,
        ReadRegister::InterruptStatus => 8,
        ReadRegister::Status => 9,
        ReadRegister::ShmLenLow => 10,
        ReadRegister::ShmLenHigh => 11,
        ReadRegister::ShmBaseLow => 12,
        ReadRegister::ShmBaseHigh => 13,
        ReadRegister::ConfigGeneration => 14,
        ReadRegister::MsiCsr => 15,
        ReadRegister::Config(n) => n,
        ReadRegister::Unknown => 99,
    }
}

fn read(rt: &impl Print, offset: u64, length: usize) -> io::Result<()> {
    dec(rt, read_name(registers::read_register(offset, length)))
}

fn reads(rt: &impl Print) -> io::Result<()> {
    say(
        rt,
        b"\nread 000, 044, 050, 058, 0c0, 0fc by 4; 044, 0c0, 0c2 by 2; 0ff by 0:",
    )?;
    read(rt, 0, 4)?;
    read(rt, 0x44, 4)?;
    read(rt, 0x50, 4)?;
    read(rt, 0x58, 4)?;
    read(rt, 0xc0, 4)?;
    read(rt, 0xfc, 4)?;
    read(rt, 0x44, 2)?;
    read(rt, 0xc0, 2)?;
    read(rt, 0xc2, 2)?;
    read(rt, 0xff, 0)?;
    say(rt, b"\nread 0x164 by 0, 0x2000 by 4, 2^64 - 1 by 9:")?;
    read(rt, 0x164, 0)?;
    read(rt, 0x2000, 4)?;
    read(rt, 0xffff_ffff_ffff_ffff, 9)
}

fn field_number(f: Field) -> u64 {
    match f {
        Field::Size => 20,
        Field::Ready => 21,
        Field::DescLow => 22,
        Field::DescHigh => 23,
        Field::AvailLow => 24,
        Field::AvailHigh => 25,
        Field::UsedLow => 26,
        Field::UsedHigh => 27,
    }
}

fn write_name(r: WriteRegister) -> u64 {
    match r {
        WriteRegister::DeviceFeatureSel => 0,
        WriteRegister::DriverFeature => 1,
        WriteRegister::DriverFeatureSel => 2,
        WriteRegister::QueueSel => 3,
        WriteRegister::QueueField(f) => field_number(f),
        WriteRegister::InterruptAck => 4,
        WriteRegister::Status => 5,
        WriteRegister::ShmSel => 6,
        WriteRegister::MsiAddressLow => 7,
        WriteRegister::MsiAddressHigh => 8,
        WriteRegister::MsiData => 9,
        WriteRegister::MsiCsr => 10,
        WriteRegister::MsiCommand => 11,
        WriteRegister::Config(n) => n,
        WriteRegister::Unknown => 99,
    }
}

fn write(rt: &impl Print, offset: u64, length: usize) -> io::Result<()> {
    dec(rt, write_name(registers::write_register(offset, length)))
}

fn writes(rt: &impl Print) -> io::Result<()> {
    say(
        rt,
        b"\nwrite 030, 038, 0a4, 050, 0c0 by 4; 038 by 8; 0c0, 0c2 by 2:",
    )?;
    write(rt, 0x30, 4)?;
    write(rt, 0x38, 4)?;
    write(rt, 0xa4, 4)?;
    write(rt, 0x50, 4)?;
    write(rt, 0xc0, 4)?;
    write(rt, 0x38, 8)?;
    write(rt, 0xc0, 2)?;
    write(rt, 0xc2, 2)?;
    say(
        rt,
        b"\nwrite 0x164 by 0, 0xfff by 8, 0x1000 by 4, 0x1030 by 4:",
    )?;
    write(rt, 0x164, 0)?;
    write(rt, 0xfff, 8)?;
    write(rt, 0x1000, 4)?;
    write(rt, 0x1030, 4)
}

fn bytes(rt: &impl Print) -> io::Result<()> {
    say(
        rt,
        b"\neight bytes written, read as 8, 4, 2; the ninth; then four and two over them:",
    )?;
    let mut b = [0xeeu8; 9];
    0x1122_3344_5566_7788u64.write(&mut b);
    hex(rt, u64::read(&b))?;
    hex(rt, u64::from(u32::read(&b)))?;
    hex(rt, u64::from(u16::read(&b)))?;
    hex(rt, u64::from(b[8]))?;
    0x0102_0304u32.write(&mut b);
    0xabcdu16.write(&mut b);
    hex(rt, u64::read(&b))
}

fn short_reads(rt: &impl Print) -> io::Result<()> {
    say(rt, b"\n7 bytes read as 8, 3 as 4, 1 as 2, none as 2:")?;
    let b = [1u8, 2, 3, 4, 5, 6, 7, 8];
    hex(rt, u64::read(&b[1..]))?;
    hex(rt, u64::from(u32::read(&b[5..])))?;
    hex(rt, u64::from(u16::read(&b[7..])))?;
    hex(rt, u64::from(u16::read(&b[8..])))
}

fn short_writes(rt: &impl Print) -> io::Result<()> {
    say(rt, b"\n8 bytes written to 7, 4 to 3, 2 to 1:")?;
    let mut seven = [0x11u8; 7];
    0xffff_ffff_ffff_ffffu64.write(&mut seven);
    hex(rt, u64::from(u32::read(&seven)))?;
    let mut three = [0x11u8; 3];
    0xffff_ffffu32.write(&mut three);
    hex(rt, u64::from(u16::read(&three)))?;
    let mut one = [0x11u8; 1];
    0xffffu16.write(&mut one);
    hex(rt, u64::from(one[0]))
}

fn action(kind: u64) -> Action {
    Action {
        kind,
        a: 1,
        b: 2,
        c: 3,
        d: 4,
    }
}

fn actions(rt: &impl Print) -> io::Result<()> {
    say(
        rt,
        b"\n11 words, the place after records 7, 8, 9 and at 2^64 - 1; words 0, 5, 9, 10:",
    )?;
    let mut w = [6u64; 11];
    let first = words::append(&mut w, 0, action(7));
    dec(rt, first as u64)?;
    let second = words::append(&mut w, first, action(8));
    dec(rt, second as u64)?;
    dec(rt, words::append(&mut w, second, action(9)) as u64)?;
    dec(
        rt,
        words::append(&mut w, 0xffff_ffff_ffff_ffff, action(9)) as u64,
    )?;
    dec(rt, w[0])?;
    dec(rt, w[5])?;
    dec(rt, w[9])?;
    dec(rt, w[10])
}

fn main(rt: HostRuntime) -> io::Result<()> {
    say(&rt, b"the lowest floors")?;
    sizes(&rt)?;
    fields(&rt)?;
    areas(&rt)?;
    scans(&rt)?;
    indices(&rt)?;
    regions(&rt)?;
    vendors(&rt)?;
    doorbells(&rt)?;
    messages(&rt)?;
    reads(&rt)?;
    writes(&rt)?;
    bytes(&rt)?;
    short_reads(&rt)?;
    short_writes(&rt)?;
    actions(&rt)?;
    say(&rt, b"\n")
}
