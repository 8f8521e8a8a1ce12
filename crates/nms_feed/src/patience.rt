//! How a thread waits for another one.
use std::sync::Wait;
use std::thread::Parker;
use std::time::Duration;
use std::{hint, thread};

/// How many turns a waiting thread spins first. This product's own rule.
const MOST_SPINS: u32 = 16;
/// In how many turns after its spins a waiting thread lets other threads run. This product's own rule.
const MOST_YIELDS: u32 = 2;
/// How many microseconds a waiting thread rests in its first turn of rest. This product's own rule.
const SHORTEST_REST: u32 = 16;
/// How many microseconds a waiting thread rests at most in one turn. This product's own rule.
const LONGEST_REST: u32 = 1024;

/// How long a thread has waited for another one so far, which decides how it waits next. It spins, then it lets others run,
/// then it rests, each time twice as long. It checks between two turns, and no thread wakes it. No proof relies on it.
#[derive(Clone, Copy)]
pub struct Patience {
    /// How many turns the thread has waited without a rest.
    turns: u32,
    /// How long the thread rests next, in microseconds.
    rest: u32,
}

impl Patience {
    /// The patience of a thread that has not waited yet.
    pub fn new() -> Self {
        Patience {
            turns: 0,
            rest: SHORTEST_REST,
        }
    }

    /// Makes the next rest the shortest one. A thread that already rests between its checks does not spin again.
    pub fn calm(&mut self) {
        self.rest = SHORTEST_REST;
    }

    /// Waits one turn: the thread spins, lets other threads run, or rests.
    pub fn wait<R: Wait>(&mut self, rt: &R) {
        if self.turns < MOST_SPINS {
            self.turns += 1;
            hint::spin_loop();
        } else if self.turns < MOST_SPINS + MOST_YIELDS {
            self.turns += 1;
            thread::yield_now();
        } else {
            let rest = Duration::from_micros(u64::from(self.rest));
            if self.rest < LONGEST_REST {
                self.rest *= 2;
            }
            Parker::new().park_timeout(rt, rest);
        }
    }
}
