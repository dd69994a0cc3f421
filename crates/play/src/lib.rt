//! One record of a trace: run it on a device, which comes back with the record's text on a page.

#![tactic(auto)]

ghost use Rattle.std.specs.Prelude.{◌≡◌, true, ◌*◌, ◌≤◌, length};
ghost use Rattle.mmio_v2.specs.Operation.{Raise, Read, Write};
ghost use Rattle.mmio_state.specs.State.{queues_in};
ghost use Rattle.listing.specs.Listing.{words_text};
ghost use Rattle.text.specs.Page.{Prints, Spare};
ghost use Rattle.play.specs.Log.{may_run, operation_of};
ghost use Rattle.play.specs.Text.{told};
ghost use Rattle.play.specs.Play.{Ran, Runs, runs};

use mmio_state::ACTION_WORDS;
use mmio_v2::{Answer, MmioV2Device};
use text::Page;
use trace::{MAX_DATA, Record};

/// The bytes that a record's text may take: 64 for its line, 128 for each of 64 actions and 16 queues.
pub const RECORD_ROOM: usize = 10304;

/// Which lines are added to a record's own.
#[repr(C)]
#[derive(Clone, Copy, Default)]
pub struct Show {
    pub actions: bool,
    pub fields: bool,
}

/// The line that a record gets: its number, and what is added to it.
#[derive(Clone, Copy)]
pub struct Line {
    pub number: u32,
    pub show: Show,
}

// The text of an answer, if these are its reply and its action words.
fn tell(page: &mut Page, line: Line, a: Answer, reply: &[u8], w: &[u64])
    requires { (length reply.now ≤ 8) × (a.count ≤ 64) × (5 * a.count ≤ length w.now) × Spare 10304 page.old }
    ensures { Prints 10304 page.old (told line.show line.number a.device.state.hot.status reply.now a.count (words_text w.now a.count) a.device.state.queues (queues_in a.device.state)) page.new }
{
    page.line(line.number, a.device.state.hot.status, reply, a.count);
    if line.show.actions {
        listing::actions(page, &w[..5 * a.count]);
    }
    if line.show.fields {
        let count = mmio_tables::queues_in(a.device.state.config.count);
        listing::queues(page, &a.device.state.queues[..count as usize]);
    }
}

// ---- the three kinds

// Space for a reply or for action words. What is in it is not said, so that no proof writes it out.
fn space<T: Copy, const N: usize>(zero: T) -> [T; N] {
    [zero; N]
}

fn run_read(d: MmioV2Device, page: &mut Page, line: Line, r: Record) -> MmioV2Device
    requires { (r.len ≤ 4096) × Spare 10304 page.old }
    ensures { Ran line.show line.number d.state (Read r.k r.place r.len) page.old page.new result }
{
    let mut reply: [u8; MAX_DATA as usize] = space(0);
    let mut w: [u64; ACTION_WORDS] = space(0);
    let a = d.read(r.k, r.place, &mut reply[..r.len as usize], &mut w);
    tell(page, line, a, &reply[..a.reply], &w);
    a.device
}

fn run_write(d: MmioV2Device, page: &mut Page, line: Line, r: Record, bytes: &[u8]) -> MmioV2Device
    requires { Spare 10304 page.old }
    ensures { Ran line.show line.number d.state (Write r.k r.place bytes.now) page.old page.new result }
{
    let mut w: [u64; ACTION_WORDS] = space(0);
    let a = d.write(r.k, r.place, bytes, &mut w);
    tell(page, line, a, &[], &w);
    a.device
}

fn run_raise(d: MmioV2Device, page: &mut Page, line: Line, bits: u32) -> MmioV2Device
    requires { Spare 10304 page.old }
    ensures { Ran line.show line.number d.state (Raise bits) page.old page.new result }
{
    let mut w: [u64; ACTION_WORDS] = space(0);
    let a = d.raise(bits, &mut w);
    tell(page, line, a, &[], &w);
    a.device
}

// ---- one record

fn run_kind(d: MmioV2Device, page: &mut Page, line: Line, r: Record, bytes: &[u8]) -> MmioV2Device
    requires { (may_run r ≡ true) × Spare 10304 page.old }
    ensures { Ran line.show line.number d.state (operation_of r bytes.now) page.old page.new result }
{
    match r.kind {
        trace::READ => run_read(d, page, line, r),
        trace::WRITE => run_write(d, page, line, r, bytes),
        _ => run_raise(d, page, line, r.place as u32),
    }
}

fn may_run(r: Record) -> bool
    ensures { result ≡ may_run r }
{
    trace::kind_good(r) && r.len <= MAX_DATA
}

/// Runs one record and prints its text; the bytes are a write's. A record that may not run, or a page with less than
/// `RECORD_ROOM` left, gives no device, and nothing is printed.
pub fn run_record(
    d: MmioV2Device,
    page: &mut Page,
    line: Line,
    r: Record,
    bytes: &[u8],
) -> Option<MmioV2Device>
    ensures { Runs (runs r (length page.old.out.now) page.old.at) line.show line.number d.state (operation_of r bytes.now) page.old page.new result }
{
    if may_run(r) && page.has_room(RECORD_ROOM) {
        Some(run_kind(d, page, line, r, bytes))
    } else {
        None
    }
}
