//! A trace's records, one after the other: as many as a page has room for, or the whole trace at once.

#![tactic(auto)]

ghost use Rattle.std.specs.Prelude.{◌≡◌, ◌+◌, ◌*◌, ◌<◌, ◌≤◌, IfOk, IfErr};
ghost use Rattle.words.specs.Refusals.{refusal_number};
ghost use Rattle.mmio_v2.specs.Fresh.{device};
ghost use Rattle.history.specs.Run.{run};
ghost use Rattle.trace.specs.Block.{block_at};
ghost use Rattle.trace.specs.Verdict.{Good, verdict_of};
ghost use Rattle.text.specs.Page.{Prints, Spare};
ghost use Rattle.play.specs.Log.{operation_at, records_of};
ghost use Rattle.play.specs.Text.{replay_text};
ghost use Rattle.play.specs.Play.{Ran};
ghost use Rattle.desk.specs.Desk.{Replayed};

use mmio_v2::MmioV2Device;
use play::{Line, RECORD_ROOM, Show};
use text::Page;
use words::Refusal;

/// Where the running of records has come to: the device, and the next record.
#[derive(Clone, Copy)]
pub struct Part {
    pub device: MmioV2Device,
    pub next: usize,
}

/// A whole trace: the device at its end, how many bytes its text has, and whether there was room for it.
// Kept as a flag beside the rest: it is a C struct.
#[repr(C)]
#[derive(Clone, Copy)]
pub struct Played {
    pub device: MmioV2Device,
    pub len: usize,
    pub whole: bool,
}

// A trace that is good, with the number of its records, and what is shown of it.
#[derive(Clone, Copy)]
struct Log<'a> {
    trace: &'a [u8],
    count: usize,
    show: Show,
    ghost good: { Good trace.now },
    ghost counts: { count ≡ Rattle.trace.specs.Verdict.count trace.now },
    ghost few: { count ≤ 2000 },
}

impl<'a> Log<'a> {
    ghost use Rattle.desk.specs.Desk.{Parted};
    ghost use Rattle.desk.specs.Log.{Opens};

    // The trace, or what is wrong with it.
    fn open(trace: &'a [u8], show: Show) -> Result<Log<'a>, Refusal>
        ensures ok { IfOk result (Opens trace.now show) }
        ensures err { IfErr result (λ e. refusal_number e ≡ verdict_of trace.now) }
    {
        trace::verdict(trace)?;
        let count = trace::count(trace);
        Ok(Log { trace, count, show })
    }

    // Every record of a good trace may run, so the reader finds one, and it runs.
    fn run_at(self, d: MmioV2Device, i: usize, page: &mut Page) -> MmioV2Device
        requires { (i < self.count) × Spare 10304 page.old }
        ensures { Ran self.entry.show (i + 1) d.state (operation_at self.entry.trace.now i) page.old page.new result }
    {
        let Ok(Some(r)) = reader::read_at(self.trace, i) else {
            unreachable!();
        };
        let line = Line {
            number: (i + 1) as u32,
            show: self.show,
        };
        play::run_record(d, page, line, r, trace::data_of(self.trace, r)).unwrap()
    }

    fn run_part(self, mut t: Part, page: &mut Page) -> Part
        requires { t.next ≤ self.count }
        ensures { Parted self.entry.show self.entry.trace.now t.device.state t.next page.old page.new result }
    {
        while t.next < self.count && page.has_room(RECORD_ROOM) {
            t.device = self.run_at(t.device, t.next, page);
            t.next += 1;
        }
        t
    }

    // The heading, all records, the end.
    fn run_all(self, page: &mut Page) -> MmioV2Device
        requires { Spare (128 + 10304 * self.count) page.old }
        ensures device { result ≡ device (run (block_at self.entry.trace.now) (records_of self.entry.trace.now)) }
        ensures text { Prints (128 + 10304 * self.entry.count) page.old (replay_text self.entry.show self.entry.trace.now) page.new }
    {
        let t = Part::begin(self.trace, page);
        let u = self.run_part(t, page);
        page.end(self.count as u32);
        u.device
    }
}

impl Part {
    ghost use Rattle.desk.specs.Desk.{Begun, Pieced};

    /// A device of the trace's configuration, before its first record, and the heading on the page. A configuration that is
    /// refused gives a device of zeros; what else may be wrong with the trace is for `verdict` to say.
    pub fn begin(s: &[u8], page: &mut Page) -> Part
        ensures { Begun s.now page.old page.new result }
    {
        page.heading();
        Part {
            device: MmioV2Device::new(trace::configuration(s)).unwrap_or_default(),
            next: 0,
        }
    }

    /// Runs the records of a good trace from here on, while `RECORD_ROOM` bytes are left for each. Of a bad trace, or past its end,
    /// nothing is run.
    pub fn piece(self, s: &[u8], show: Show, page: &mut Page) -> Part
        ensures { Pieced show s.now self page.old page.new result }
    {
        match Log::open(s, show) {
            Ok(log) if self.next <= log.count => log.run_part(self, page),
            _ => self,
        }
    }
}

// ---- the whole

/// The text of a trace at the front of the buffer, from a fresh device of its configuration. Where the buffer has less than 128
/// bytes and `RECORD_ROOM` for each record of a good trace, nothing is written and no device is made.
pub fn replay(s: &[u8], show: Show, out: &mut [u8]) -> Played
    ensures { Replayed show s.now out.old out.new result }
{
    match Log::open(s, show) {
        Ok(log) if 128 + RECORD_ROOM * log.count <= out.len() => {
            let mut page = Page::new(out);
            let device = log.run_all(&mut page);
            Played {
                device,
                len: page.at,
                whole: true,
            }
        }
        Err(e) if 128 <= out.len() => {
            let mut page = Page::new(out);
            page.bad(e.number());
            Played {
                device: MmioV2Device::default(),
                len: page.at,
                whole: true,
            }
        }
        _ => Played {
            device: MmioV2Device::default(),
            len: 0,
            whole: false,
        },
    }
}
