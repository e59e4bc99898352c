//! The threads of a live run.

use crate::desk::GridDesk;
use crate::shared::{Look, Scripted, Shared};
use grid_base::NodeId;
use grid_script::{LiveScript, Member};
use node_workers::{Gate, Grid, serve_node};
use std::alloc::Global;
use std::sync::Wait;
use std::thread;
use std::thread::Threads;

/// Serves a session until it has nothing left to do, or the run is stopped.
fn session<R: Wait, B: Scripted>(rt: &R, alloc: Global, grid: &Grid<Shared<'_, B>>, place: usize) {
    // It waits right after a look that found nothing, under the same taking of the lock; and it wakes
    // all others after each look at which it did something, and as it leaves.
    let mut shared = grid.lock.lock(rt);
    for _ in rt.forever() {
        match shared.serve_session(alloc, place) {
            Look::Acted => grid.wake.notify_all(),
            Look::Idle => shared = grid.wake.wait(rt, shared),
            Look::Over => break,
        }
    }
    shared.leave();
    grid.wake.notify_all();
}

/// Announces topologies and makes the changes, until nothing is left to do for anyone, or the run is
/// stopped.
fn coordinator<R: Wait, B: Scripted>(rt: &R, alloc: Global, grid: &Grid<Shared<'_, B>>) {
    // As a session it waits only right after a look that found nothing, and wakes all others.
    let mut shared = grid.lock.lock(rt);
    for _ in rt.forever() {
        match shared.coordinate(alloc) {
            Look::Acted => grid.wake.notify_all(),
            Look::Idle => shared = grid.wake.wait(rt, shared),
            Look::Over => break,
        }
    }
    grid.wake.notify_all();
}

/// Works for a node.
fn work<R: Wait + Sync, B: Scripted + Send + Sync, G: Gate>(
    rt: &R,
    alloc: Global,
    grid: &Grid<Shared<'_, B>>,
    number: u8,
    gate: &G,
) {
    let desk = GridDesk { rt, alloc, grid };
    serve_node(rt, &desk, NodeId::new(number), gate);
}

/// Stops the run, for a thread that can't be made.
fn stop<R: Wait, B: Scripted>(rt: &R, grid: &Grid<Shared<'_, B>>) {
    grid.lock.lock(rt).set_stop();
    grid.wake.notify_all();
}

/// Whether the node is one of the first, or joins.
fn is_named(script: &LiveScript, number: u8) -> bool {
    if number < script.config.nodes {
        return true;
    }
    for change in script.changes.as_slice() {
        if let Member::Join(node) = change {
            if node.number() == number {
                return true;
            }
        }
    }
    false
}

/// Runs a thread for each session, one for the coordinator, and so many for each node, and waits for
/// their ends. Where a thread can't be made the run is stopped.
pub(crate) fn run_threads<R: Threads + Wait + Sync, B: Scripted + Send + Sync, G: Gate>(
    rt: &R,
    alloc: Global,
    grid: &Grid<Shared<'_, B>>,
    script: &LiveScript,
    workers: u32,
    gate: &G,
) {
    thread::scope(thread::scope_env(), rt, |scope| {
        for place in 0..script.sessions.len() {
            if scope
                .spawn(move || session(rt, alloc, grid, place))
                .is_err()
            {
                stop(rt, grid);
            }
        }
        if scope.spawn(move || coordinator(rt, alloc, grid)).is_err() {
            stop(rt, grid);
        }
        for number in 0..16u8 {
            if is_named(script, number) {
                for _ in 0..workers {
                    if scope
                        .spawn(move || work(rt, alloc, grid, number, gate))
                        .is_err()
                    {
                        stop(rt, grid);
                    }
                }
            }
        }
    });
}
