//! Runs the state on document 01's whole case, on the sixty-four records and on the cases around them. Records are printed
//! as their kind and four operands in hex; it is held to the file `stdout`.
#![tactic(auto)]

use mmio_config::Configuration;
use mmio_state::{ACTION_WORDS, Done, MmioV2DeviceState};
use mmio_tables::Kind;
use show::{UNTOUCHED, dec, flag, hex, records, say};
use std::io;
use virtq::{Field, Queue, QueueIndex};
use words::Refusal;

fn configuration(dataqueues: u32, control: u32) -> Configuration {
    Configuration {
        dataqueues,
        control,
        ..show::PLAIN
    }
}

fn ready() -> Queue {
    Queue::fresh(256)
        .update(256, Field::DescLow, 0x1000)
        .update(256, Field::AvailLow, 0x2000)
        .update(256, Field::UsedLow, 0x3000)
        .update(256, Field::Ready, 1)
}

fn fresh(dataqueues: u32, control: u32) -> MmioV2DeviceState {
    MmioV2DeviceState::new(configuration(dataqueues, control)).unwrap_or_default()
}

// A fresh state whose queues are all laid out.
fn laid_out(dataqueues: u32) -> MmioV2DeviceState {
    MmioV2DeviceState {
        queues: [ready(); 16],
        ..fresh(dataqueues, 0)
    }
}

fn stands(rt: &impl Print, s: MmioV2DeviceState, q: u32) -> io::Result<()> {
    for k in [Kind::Doorbell, Kind::Notify] {
        flag(rt, s.held_entry(QueueIndex(q), k).is_ok_and(|e| e.stands))?;
    }
    Ok(())
}

// The number of a refusal, 0 for none.
fn refusal(came: Result<Done, Refusal>) -> u64 {
    came.map_or_else(|e| u64::from(e.number()), |_| 0)
}

// What came of an operation; a refusal leaves the state.
fn done(s: MmioV2DeviceState, came: Result<Done, Refusal>) -> Done {
    came.unwrap_or(mmio_state::quiet_done(s, false))
}

fn outcome(rt: &impl Print, refused: u64, d: Done) -> io::Result<()> {
    let s = d.state;
    say(
        rt,
        b"\n  refusal, started, records, active, doorbell setting:",
    )?;
    dec(rt, refused)?;
    flag(rt, d.ok)?;
    dec(rt, d.count as u64)?;
    flag(rt, s.flags.active)?;
    flag(rt, s.hot.doorbell)?;
    say(rt, b"\n  held, queue 0 and 1, doorbell and notify:")?;
    stands(rt, s, 0)?;
    stands(rt, s, 1)
}

fn start(rt: &impl Print, label: &[u8], s: MmioV2DeviceState, k: u32) -> io::Result<()> {
    say(rt, label)?;
    let mut words = [UNTOUCHED; ACTION_WORDS];
    let came = s.activate(k, &mut words);
    let d = done(s, came);
    records(rt, &words, d.count)?;
    outcome(rt, refusal(came), d)
}

fn short_space(rt: &impl Print) -> io::Result<()> {
    say(
        rt,
        b"\n319 words: refusal of activate, reset, message command, control; the first word after:",
    )?;
    let mut words = [UNTOUCHED; ACTION_WORDS - 1];
    let s = laid_out(2);
    dec(rt, refusal(s.activate(9, &mut words)))?;
    dec(rt, refusal(s.reset(9, &mut words)))?;
    let command = mmio_msi::handle_msi_cmd(s, 0x1000, 9, &mut words);
    dec(rt, refusal(command))?;
    let control = mmio_msi::update_msi_enable(s, 0x8000, 9, &mut words);
    dec(rt, refusal(control))?;
    hex(rt, words[0])
}

// A command to a device of two data queues, with MSI on or off and started or not; what it asks, and what comes of it.
fn command(rt: &impl Print, s: MmioV2DeviceState, v: u16, k: u32) -> io::Result<()> {
    let mut words = [UNTOUCHED; ACTION_WORDS];
    let d = done(s, mmio_msi::handle_msi_cmd(s, v, k, &mut words));
    let u = d.state;
    dec(rt, d.count as u64)?;
    hex(rt, words[0])?;
    dec(rt, u64::from(u.stage.index_select))?;
    hex(rt, u64::from(u.hot.status))
}

// MSI turned on with one answer, and a message staged.
fn messaging(rt: &impl Print, s: MmioV2DeviceState) -> io::Result<MmioV2DeviceState> {
    let mut words = [UNTOUCHED; ACTION_WORDS];
    let d = done(s, mmio_msi::update_msi_enable(s, 0x8000, 1, &mut words));
    hex(rt, words[1])?;
    Ok(mmio_msi::set_msi_data(d.state, 7))
}

fn running_commands(rt: &impl Print) -> io::Result<()> {
    say(
        rt,
        b"\nstarted: mode asked; 0x1002, refused; mask 3, refused; mask 4; unmask 3:",
    )?;
    let mut words = [UNTOUCHED; ACTION_WORDS];
    let on = messaging(rt, laid_out(2))?;
    let s = done(on, on.activate(9, &mut words)).state;
    command(rt, s, 0x1002, 1)?;
    command(rt, s, 0x1002, 0)?;
    command(rt, s, 0x2003, 1)?;
    command(rt, s, 0x2003, 0)?;
    command(rt, s, 0x2004, 1)?;
    command(rt, s, 0x3003, 1)
}

// The data stored in vector i once the command was written.
fn stored(rt: &impl Print, s: MmioV2DeviceState, v: u16, i: usize) -> io::Result<()> {
    let mut words = [UNTOUCHED; ACTION_WORDS];
    let u = done(s, mmio_msi::handle_msi_cmd(s, v, 9, &mut words)).state;
    match u.vectors.get(i) {
        Some(vector) => hex(rt, u64::from(vector.message)),
        None => Ok(()),
    }
}

fn messages(rt: &impl Print, s: MmioV2DeviceState) -> io::Result<()> {
    let vector = s.vectors[2];
    hex(rt, u64::from(vector.message))?;
    hex(rt, u64::from(s.stage.data))?;
    dec(rt, u64::from(s.stage.index_select))?;
    flag(rt, s.hot.msi)?;
    hex(rt, u64::from(s.hot.status))
}

// MSI turned off with k answers once vector 2 has a message.
fn turned_off(rt: &impl Print, s: MmioV2DeviceState, k: u32) -> io::Result<()> {
    let mut words = [UNTOUCHED; ACTION_WORDS];
    let on = done(s, mmio_msi::handle_msi_cmd(s, 0x1002, 9, &mut words)).state;
    let off = done(on, mmio_msi::update_msi_enable(on, 0x7fff, k, &mut words)).state;
    messages(rt, off)
}

fn modes(rt: &impl Print) -> io::Result<()> {
    say(
        rt,
        b"\nmode asked; vector 2's data, staged data, index, MSI, status after off; after off refused:",
    )?;
    let on = messaging(rt, laid_out(2))?;
    turned_off(rt, on, 1)?;
    turned_off(rt, on, 0)?;
    say(
        rt,
        b"\na control queue alone: mode asked; stored in vector 0 by 0x1000, in 1 by 0x1001:",
    )?;
    let alone = messaging(rt, fresh(0, 256))?;
    stored(rt, alone, 0x1000, 0)?;
    stored(rt, alone, 0x1001, 1)
}

fn main(rt: HostRuntime) -> io::Result<()> {
    say(&rt, b"the whole case: two queues, k = 3")?;
    start(&rt, b"", laid_out(2), 3)?;
    start(
        &rt,
        b"\ntwo queues, k = 2: the second doorbell refused",
        laid_out(2),
        2,
    )?;
    start(
        &rt,
        b"\nthree queues, k = 1: the first notify refused",
        laid_out(3),
        1,
    )?;
    short_space(&rt)?;
    running_commands(&rt)?;
    modes(&rt)?;
    start(&rt, b"\nsixteen queues, k = 31", laid_out(16), 31)?;
    say(&rt, b"\n")
}
