//! A reader that keeps the trace and its place (document 01, "Forms to follow in each place"). It does no work of its own:
//! what stands at a place is `trace::next_record`'s to say.

#![tactic(auto)]

ghost use Rattle.std.specs.Prelude.{◌≡◌};
ghost use Rattle.words.specs.Refusals.{numbered};
ghost use Rattle.trace.specs.Verdict.{next_at};
ghost use Rattle.reader.specs.Reader.{Keeps, found_by};

use trace::Record;
use words::Refusal;

/// A trace, and the number of the record that is read next, from 0 on.
#[derive(Drop)]
pub struct TraceReader<'a> {
    pub trace: &'a [u8],
    pub place: usize,
}

impl<'a> TraceReader<'a> {
    /// A reader of this trace at this place, which may lie past the trace's end.
    pub fn new(trace: &'a [u8], place: usize) -> TraceReader<'a>
        ensures { Keeps trace.entry place result }
    {
        TraceReader { trace, place }
    }

    /// The reader at another place of the same trace.
    pub fn moved(self, place: usize) -> TraceReader<'a>
        ensures { Keeps self.entry.trace place result }
    {
        TraceReader {
            trace: self.trace,
            place,
        }
    }

    /// What stands at its place: a record that may run, or none; or what is wrong there.
    pub fn next(self) -> Result<Option<Record>, Refusal>
        ensures { numbered result ≡ found_by self.entry }
    {
        trace::next_record(self.trace, self.place)
    }
}

/// What a reader of this trace finds at this place.
pub fn read_at(trace: &[u8], place: usize) -> Result<Option<Record>, Refusal>
    ensures { numbered result ≡ next_at trace.now place }
{
    TraceReader::new(trace, place).next()
}
