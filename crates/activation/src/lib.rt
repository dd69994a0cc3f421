// Copyright (C) 2019 Alibaba Cloud Computing. All rights reserved.
// SPDX-License-Identifier: Apache-2.0 AND BSD-3-Clause

//! The registrations of mmio_state.rs: what an activation asks, what is undone after a refusal, what a state reset tells.
//! The two ways of undoing miss what was registered, as in the Rust: document 01 wants them so in this version.

#![tactic(auto)]

ghost use Rattle.std.specs.Prelude.{◌≡◌, true, false, ℕ, ◌+◌, [], ◌∷◌};
ghost use Rattle.words.specs.Pick.{pick};
ghost use Rattle.words.specs.Lists.{up};
ghost use Rattle.words.specs.declared.Action.{Action};
ghost use Rattle.tape.specs.Held.{entry, unregister};
ghost use Rattle.tape.specs.Play.{Played};
ghost use Rattle.activation.specs.Requests.{begins, bells_off, notes_off, lasts, record_of, requests, reverts, start_records, starts, stop_records, stops, turn, wipes, asks};
ghost use Rattle.activation.specs.Ties.{Asked, request_of, turns, undoing};

use tape::{Call, Entry, Recorder};
use virtq::QueueIndex;
use words::Action;

/// What an activation asks, one after the other. The one that is refused says what is to be undone.
#[derive(Clone, Copy, PartialEq, Eq, Debug)]
enum Request {
    Doorbell(QueueIndex),
    Notify(QueueIndex),
    Interrupts,
    Device,
}

impl Request {
    fn record(self, base: u64) -> Action
        ensures { result ≡ record_of base (request_of self) }
    {
        let call = match self {
            Request::Doorbell(q) => Call::Register(tape::bell_entry(base, q)),
            Request::Notify(q) => Call::Register(tape::note_entry(base, q)),
            Request::Interrupts => Call::EnableInterrupts,
            Request::Device => Call::Activate,
        };
        call.into()
    }
}

// One request, and whether it was accepted.
fn ask(recorder: &mut Recorder, request: Request) -> Result<(), Request>
    ensures { Asked recorder.old (request_of request ∷ []) recorder.new result }
{
    let accepted = recorder.tape.left != 0;
    recorder.emit(request.record(recorder.base));
    if accepted { Ok(()) } else { Err(request) }
}

// One queue's registrations.
fn register_one(recorder: &mut Recorder, bell: bool, q: QueueIndex) -> Result<(), Request>
    ensures { Asked recorder.old (turn bell q.0 []) recorder.new result }
{
    if bell {
        ask(recorder, Request::Doorbell(q))?;
    }
    ask(recorder, Request::Notify(q))
}

// Every queue's registrations, up to the refused place.
fn register_ioevent(recorder: &mut Recorder, bell: bool, n: u32) -> Result<(), Request>
    ensures { Asked recorder.old (turns bell 0 n) recorder.new result }
{
    for i in 0..n {
        register_one(recorder, bell, QueueIndex(i))?;
    }
    Ok(())
}

// Enable interrupts, then activate.
fn begin(recorder: &mut Recorder) -> Result<(), Request>
    ensures { Asked recorder.old lasts recorder.new result }
{
    ask(recorder, Request::Interrupts)?;
    ask(recorder, Request::Device)
}

fn ask_all(recorder: &mut Recorder, bell: bool, n: u32) -> Result<(), Request>
    ensures { Asked recorder.old (requests bell 0 n) recorder.new result }
{
    register_ioevent(recorder, bell, n)?;
    begin(recorder)
}

// A record of each queue, in queue order.
fn tell_each<F: Fn(QueueIndex) -> Action>(recorder: &mut Recorder, n: u32, tell: F)
    requires { F.IsAlwaysCallable tell }
    ensures { (f : ℕ → Action) → ((q : ℕ) (x : Action) → F.post tell (record { 0 = q }) x → x ≡ f q) → Played recorder.old (up 0 n f) recorder.new }
{
    for i in 0..n {
        recorder.emit(tell(QueueIndex(i)));
    }
}

// The notifies of a full set.
fn unregister_ioevent(recorder: &mut Recorder, n: u32)
    ensures { Played recorder.old (notes_off recorder.old.base n) recorder.new }
{
    let base = recorder.base;
    tell_each(
        recorder,
        n,
        |q| Call::Unregister(tape::note_entry(base, q)).into(),
    );
}

fn unregister_ioevent_doorbell(recorder: &mut Recorder, n: u32)
    ensures { Played recorder.old (bells_off recorder.old.base n) recorder.new }
{
    let base = recorder.base;
    tell_each(
        recorder,
        n,
        |q| Call::Unregister(tape::bell_entry(base, q)).into(),
    );
}

fn datamatch(wildcard: bool, idx: u32) -> u64
    ensures { result ≡ pick wildcard 0 (idx + 1) }
{
    if wildcard { 0 } else { u64::from(idx) + 1 }
}

fn revert_one(idx: u32, address: u64, value: u64) -> Action
    ensures { result ≡ unregister (entry idx address 8 value) }
{
    let entry = Entry {
        queue: u64::from(idx),
        address,
        width: 8,
        value,
    };
    Call::Unregister(entry).into()
}

// The undo that misses: width 8, from num - 1 down to 0.
fn revert_ioevent(recorder: &mut Recorder, num: u32, address: u64, wildcard: bool)
    ensures { Played recorder.old (reverts num address wildcard) recorder.new }
{
    for idx in (0..num).rev() {
        recorder.emit(revert_one(idx, address, datamatch(wildcard, idx)));
    }
}

// The records of a state reset: interrupts reset, and the notifies unregistered if a full set was accepted.
fn wipe(recorder: &mut Recorder, n: u32, full: bool)
    ensures { Played recorder.old (wipes recorder.old.base n full) recorder.new }
{
    recorder.emit(Call::ResetInterrupts.into());
    if full {
        unregister_ioevent(recorder, n);
    }
}

// What is undone after a refusal, and the state reset. 3 and 4 are asked only once the full set was accepted.
fn undo(recorder: &mut Recorder, bell: bool, n: u32, refused: Request)
    ensures { Played recorder.old (undoing recorder.old.base bell n refused) recorder.new }
{
    let base = recorder.base;
    match refused {
        Request::Doorbell(q) => {
            revert_ioevent(recorder, q.0, tape::bell_entry(base, q).address, true);
            wipe(recorder, n, false);
        }
        Request::Notify(q) => {
            if bell {
                unregister_ioevent_doorbell(recorder, n);
            }
            revert_ioevent(recorder, q.0, tape::note_entry(base, q).address, false);
            wipe(recorder, n, false);
        }
        Request::Interrupts | Request::Device => wipe(recorder, n, true),
    }
}

// All that an activation asks once the queues were found valid; and if a request is refused, what is undone and the records
// of the state reset.
fn attempt(recorder: &mut Recorder, bell: bool, n: u32) -> bool
    ensures played { Played recorder.old (asks recorder.old.base bell n recorder.old.tape.left (requests bell 0 n)) recorder.new }
    ensures ok_value { result ≡ starts recorder.old.tape.left (requests bell 0 n) }
{
    match ask_all(recorder, bell, n) {
        Ok(()) => true,
        Err(refused) => {
            undo(recorder, bell, n, refused);
            false
        }
    }
}

/// The records of an activation, and whether every request was accepted. `valid` says whether the queues may be started. A
/// device that is started is not active, so no full set of registrations stands.
pub fn start(recorder: &mut Recorder, bell: bool, n: u32, valid: bool) -> bool
    ensures same_words { recorder.new.words.ghost_name ≡ recorder.old.words.ghost_name }
    ensures played { Played recorder.old (start_records recorder.old.base bell n valid recorder.old.tape.left) recorder.new }
    ensures ok_value { result ≡ begins bell n valid recorder.old.tape.left }
{
    if valid {
        return attempt(recorder, bell, n);
    }
    wipe(recorder, n, false);
    false
}

/// The records of a reset: the device's own if it is active, and unless that is refused the state's. Whether it is reset.
pub fn stop(recorder: &mut Recorder, n: u32, full: bool, active: bool) -> bool
    ensures same_words { recorder.new.words.ghost_name ≡ recorder.old.words.ghost_name }
    ensures played { Played recorder.old (stop_records recorder.old.base n full active recorder.old.tape.left) recorder.new }
    ensures ok_value { result ≡ stops active recorder.old.tape.left }
{
    let accepted = !active || recorder.tape.left != 0;
    if active {
        recorder.emit(Call::ResetDevice.into());
    }
    if accepted {
        wipe(recorder, n, full);
    }
    accepted
}
