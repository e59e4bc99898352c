//! Two workers that meet: each makes a piece while the other makes one.

use crate::runs::run_once;
use anyhow::Result;
use grid_base::{Text, UnitId};
use grid_event::{Event, Journal, Outcome};
use grid_shell::Status;
use node_workers::Gate;
use pipeline_expr::Answer;
use std::rt::Files;
use std::sync::Wait;
use std::sync::atomic::{AtomicU32, Ordering};
use std::thread::Threads;
use std::{fs, thread};

/// How often a unit looks for the other before it goes on alone.
const TURNS: u32 = 1_000_000_000;

/// A gate at which units 1 and 4 wait for each other. It counts how often each of the units 1 to 4
/// enters and leaves, other units at 0, and how often one went on alone.
#[derive(Drop)]
struct Meeting {
    entered: [AtomicU32; 5],
    left: [AtomicU32; 5],
    alone: AtomicU32,
}

impl Meeting {
    fn new() -> Meeting {
        Meeting {
            entered: none(),
            left: none(),
            alone: AtomicU32::new(0),
        }
    }

    /// Whether each of the four units entered once and left once, no other did, and none went on
    /// alone.
    fn took_place(&self) -> bool {
        let once = counts(&self.entered) == [0, 1, 1, 1, 1];
        once && counts(&self.left) == [0, 1, 1, 1, 1] && self.alone.load(Ordering::SeqCst) == 0
    }
}

impl Gate for Meeting {
    fn enter(&self, unit: UnitId) {
        count(&self.entered, unit.number());
        let other = match unit.number() {
            1 => 4,
            4 => 1,
            _ => return,
        };
        for _ in 0..TURNS {
            if at(&self.entered, other) > 0 {
                return;
            }
            thread::yield_now();
        }
        self.alone.fetch_add(1, Ordering::SeqCst);
    }

    fn leave(&self, unit: UnitId) {
        count(&self.left, unit.number());
    }
}

/// Nothing is counted yet.
fn none() -> [AtomicU32; 5] {
    [
        AtomicU32::new(0),
        AtomicU32::new(0),
        AtomicU32::new(0),
        AtomicU32::new(0),
        AtomicU32::new(0),
    ]
}

/// A unit is counted once more.
fn count(counters: &[AtomicU32; 5], unit: u32) {
    let place = if unit < 5 { unit as usize } else { 0 };
    if let Some(counter) = counters.get(place) {
        counter.fetch_add(1, Ordering::SeqCst);
    }
}

/// How often a unit was counted.
fn at(counters: &[AtomicU32; 5], place: usize) -> u32 {
    match counters.get(place) {
        Some(counter) => counter.load(Ordering::SeqCst),
        None => 0,
    }
}

/// How often each unit was counted.
fn counts(counters: &[AtomicU32; 5]) -> [u32; 5] {
    [
        at(counters, 0),
        at(counters, 1),
        at(counters, 2),
        at(counters, 3),
        at(counters, 4),
    ]
}

/// Runs the script of the meeting with one worker a node, and tells how it went. The worker of node 1
/// can enter unit 4 only once it has given the piece of unit 2, so unit 2 ends before unit 1.
pub fn told_meeting<R: Files + AllocGlobal + Threads + Wait + Sync>(rt: &R) -> Result<String> {
    let alloc = rt.alloc();
    let script = fs::read(rt, "meeting.grid")?;
    let mut words = Vec::new(alloc);
    words.push(Text::new(alloc, b"live")?)?;
    words.push(Text::new(alloc, b"--workers=1")?)?;
    let meeting = Meeting::new();
    let end = run_once(rt, alloc, words.as_slice(), script.as_slice(), &meeting)?;
    let met = end.status == Status::Done && meeting.took_place();
    Ok(if met && ends_in_turn(&end.journal) {
        format!(in alloc; "meeting same")?
    } else {
        format!(in alloc; "meeting differs")?
    })
}

/// Whether unit 2 ends before unit 1, and the answer is that nothing was counted.
fn ends_in_turn(journal: &Journal) -> bool {
    let mut second = false;
    let mut first = false;
    let mut counted = false;
    for place in 1..=journal.len() {
        match journal.event(place) {
            Some(Event::Done { unit }) if unit.number() == 2 => second = true,
            Some(Event::Done { unit }) if unit.number() == 1 => first = second,
            Some(Event::Answer(answer)) => {
                counted = matches!(answer.get().outcome, Outcome::Value(Answer::Count(0)));
            }
            _ => {}
        }
    }
    first && counted
}
