//! The lines that an option adds to a record's own line: its action records, and the fields of each queue. Where there is no
//! room for all of them none is written, and the place stays.

#![tactic(auto)]

ghost use Rattle.std.specs.Prelude.{◌≡◌, ◌*◌, ◌/◌, ◌≤◌, length};
ghost use Rattle.virtq.specs.Fields.{field_of};
ghost use Rattle.virtq.specs.Valid.{address};
ghost use Rattle.virtq.specs.declared.Field.TheVariants as F;
ghost use Rattle.text.specs.Details.{field_line};
ghost use Rattle.text.specs.Page.{Prints, PrintsIf, Spare};
ghost use Rattle.listing.specs.Listing.{actions_room, lines_room, queues_room, queues_text, words_text};

use text::{DETAIL_ROOM, Fields, Page};
use virtq::{Field, MAX_QUEUES, Queue};
use words::Action;

/// The most action records that are listed: the most that an operation asks.
pub const MAX_ACTIONS: usize = 64;

// Whether there is room for so many lines, which are no more than the most that there are.
fn has_lines_room(page: &Page, n: usize, most: usize) -> bool
    requires { most ≤ 64 }
    ensures { result ≡ lines_room most n (length page.now.out.now) page.now.at }
{
    n <= most && page.has_room(DETAIL_ROOM * n)
}

// ---- action records

fn put_actions(page: &mut Page, w: &[u64])
    requires { Spare (128 * (length w.now / 5)) page.old }
    ensures { Prints (128 * (length w.now / 5)) page.old (words_text w.now (length w.now / 5)) page.new }
{
    let (records, _) = w.as_chunks::<5>();
    for &[kind, a, b, c, d] in records {
        page.action_line(Action { kind, a, b, c, d });
    }
}

/// The action records that the words are, five words each, a line to a record.
pub fn actions(page: &mut Page, w: &[u64])
    ensures { PrintsIf (actions_room (length w.now / 5) (length page.old.out.now) page.old.at) (128 * (length w.now / 5)) page.old (words_text w.now (length w.now / 5)) page.new }
{
    if has_lines_room(page, w.len() / 5, MAX_ACTIONS) {
        put_actions(page, w);
    }
}

// ---- the fields of the queues

fn put_queue(page: &mut Page, index: u32, q: Queue)
    requires { Spare 128 page.old }
    ensures { Prints 128 page.old (field_line index (field_of q F.Size) (field_of q F.Ready) (address q.desclow q.deschigh) (address q.availlow q.availhigh) (address q.usedlow q.usedhigh)) page.new }
{
    page.field_line(Fields {
        index,
        size: q.get(Field::Size),
        ready: q.get(Field::Ready),
        desc: virtq::address(q.desclow, q.deschigh),
        avail: virtq::address(q.availlow, q.availhigh),
        used: virtq::address(q.usedlow, q.usedhigh),
    });
}

fn put_queues(page: &mut Page, queues: &[Queue])
    requires { (length queues.now ≤ 16) × Spare (128 * length queues.now) page.old }
    ensures { Prints (128 * length queues.now) page.old (queues_text queues.now (length queues.now)) page.new }
{
    for (index, q) in queues.iter().enumerate() {
        put_queue(page, index as u32, *q);
    }
}

/// The fields of the queues, from queue 0 on, a line each.
pub fn queues(page: &mut Page, queues: &[Queue])
    ensures { PrintsIf (queues_room (length queues.now) (length page.old.out.now) page.old.at) (128 * length queues.now) page.old (queues_text queues.now (length queues.now)) page.new }
{
    if has_lines_room(page, queues.len(), MAX_QUEUES) {
        put_queues(page, queues);
    }
}
