//! Whether so many threads can be had at once.

ghost use Rattle.std.specs.Prelude.{◌<◌, ◌≤◌, IfSome};

use std::sync::{Mutex, Wait};
use std::thread;
use std::thread::Threads;

/// Waits until the gate is open.
fn wait_at<R: Wait>(rt: &R, gate: &Mutex<()>) {
    let _open = gate.lock(rt);
}

/// The first of so many threads that can't be had beside those before it. Thread 0 is the caller's own; the others are begun, wait for each
/// other, and end, so nothing is done in them.
pub fn missing_thread<R: Threads + Wait + Sync>(rt: &R, threads: u64) -> Option<u64>
    ensures { IfSome result (λ thread. (1 ≤ thread) × (thread < threads)) }
{
    let gate = Mutex::new(());
    let shut = gate.lock(rt);
    let shared = &gate;
    thread::scope(
        thread::scope_env(),
        rt,
        |scope| -> Option<u64>
            ensures { IfSome result (λ thread. (1 ≤ thread) × (thread < threads)) }
        {
            let _shut = shut;
            for thread in 1..threads {
                if scope.spawn(move || wait_at(rt, shared)).is_err() {
                    return Some(thread);
                }
            }
            None
        },
    )
}
