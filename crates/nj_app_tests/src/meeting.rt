//! A gate at which two workers meet.

use nj_app::Gate;
use std::sync::atomic::{AtomicU64, Ordering};

/// The most turns that a piece is held.
const TURNS: u64 = 100_000_000;

/// The step in which the two meet, the first of two pieces.
const STEP: u64 = 17;

/// Holds piece 0 of that step until piece 1 has begun, and piece 1 until piece 0 has begun.
#[derive(Drop)]
pub struct Meeting {
    steps: AtomicU64,
    begun: [AtomicU64; 2],
    met: AtomicU64,
}

impl Meeting {
    /// At which nobody has begun.
    pub fn new() -> Meeting {
        Meeting {
            steps: AtomicU64::new(0),
            begun: [AtomicU64::new(0), AtomicU64::new(0)],
            met: AtomicU64::new(0),
        }
    }

    /// How many pieces met the other.
    pub fn met(&self) -> u64 {
        self.met.load(Ordering::SeqCst)
    }
}

impl Gate for Meeting {
    fn at_piece(&self, _worker: u32, piece: u64) {
        let (mine, other) = match piece {
            0 => {
                if self.steps.fetch_add(1, Ordering::SeqCst) != STEP - 1 {
                    return;
                }
                (&self.begun[0], &self.begun[1])
            }
            1 => (&self.begun[1], &self.begun[0]),
            _ => return,
        };
        if mine.fetch_add(1, Ordering::SeqCst) != 0 {
            return;
        }
        for _turn in 0..TURNS {
            if other.load(Ordering::SeqCst) != 0 {
                self.met.fetch_add(1, Ordering::SeqCst);
                return;
            }
        }
    }
}
