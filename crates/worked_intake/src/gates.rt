use judge_pool::Gate;
use std::process::Abort;
use std::sync::atomic::{AtomicBool, AtomicU64, Ordering};

const TURNS: u32 = 2_000_000_000;

/// Holds number 0 until the last one is entered, and gives up after `TURNS` looks.
#[derive(Drop)]
pub struct Meeting {
    last: u32,
    entered: AtomicBool,
    met: AtomicBool,
}

impl Meeting {
    pub fn of(count: u32) -> Meeting {
        Meeting {
            last: count.saturating_sub(1),
            entered: AtomicBool::new(false),
            met: AtomicBool::new(false),
        }
    }

    /// Whether number 0 was held until the last one came.
    pub fn has_met(&self) -> bool {
        self.met.load(Ordering::SeqCst)
    }
}

impl Gate for Meeting {
    ghost is_entered = { λ _ _. Unit {0} };

    fn enter(&self, event: u32) {
        if event == self.last {
            self.entered.store(true, Ordering::SeqCst);
        }
        if event == 0 {
            for _ in 0..TURNS {
                if self.entered.load(Ordering::SeqCst) {
                    self.met.store(true, Ordering::SeqCst);
                    return;
                }
            }
        }
    }
}

/// Counts how often each number enters.
#[derive(Drop)]
pub struct Roll {
    entries: Vec<AtomicU64>,
}

impl Roll {
    pub fn of(rt: &(impl Abort + AllocGlobal), count: u32) -> Roll {
        let mut entries = Vec::new(rt.alloc());
        for _ in 0..count {
            entries.push(AtomicU64::new(0)).expect(rt, "memory");
        }
        Roll { entries }
    }

    /// How often a number entered.
    pub fn times(&self, number: u32) -> u64 {
        match self.entries.get(number as usize) {
            Some(entries) => entries.load(Ordering::SeqCst),
            None => 0,
        }
    }

    /// Whether each number entered once.
    pub fn is_once_each(&self) -> bool {
        for entries in &self.entries {
            if entries.load(Ordering::SeqCst) != 1 {
                return false;
            }
        }
        true
    }
}

impl Gate for Roll {
    ghost is_entered = { λ _ _. Unit {0} };

    fn enter(&self, event: u32) {
        if let Some(entries) = self.entries.get(event as usize) {
            let _before = entries.fetch_add(1, Ordering::SeqCst);
        }
    }
}
