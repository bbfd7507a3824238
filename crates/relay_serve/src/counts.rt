//! What a server counts, for those who watch it.
use relay_front::{End, Settled};
use std::alloc::{AllocError, Global};
use std::sync::atomic::{AtomicU64, Ordering};

/// The times by which requests are told apart, in milliseconds, and in seconds as a text.
pub(crate) const BOUNDS: [(u64, &str); 10] = [
    (1, "0.001"),
    (5, "0.005"),
    (10, "0.01"),
    (25, "0.025"),
    (50, "0.05"),
    (100, "0.1"),
    (250, "0.25"),
    (1_000, "1"),
    (2_500, "2.5"),
    (10_000, "10"),
];

/// How operations ended.
#[derive(Clone, Copy, Debug, PartialEq, Eq)]
pub(crate) struct Ends {
    /// The index applied them.
    pub applied: u64,
    /// An earlier request had applied them.
    pub already: u64,
    /// They are reported.
    pub reported: u64,
    /// They did not end within the time of their request.
    pub late: u64,
    /// They were not put within that time.
    pub unput: u64,
    /// Their lane had ended.
    pub gone: u64,
}

impl Ends {
    /// None ended.
    pub(crate) const NONE: Ends = Ends {
        applied: 0,
        already: 0,
        reported: 0,
        late: 0,
        unput: 0,
        gone: 0,
    };

    /// How many ended.
    pub(crate) fn all(&self) -> u64 {
        let counts = [
            self.applied,
            self.already,
            self.reported,
            self.late,
            self.unput,
            self.gone,
        ];
        let mut all = 0u64;
        for count in counts {
            all = all.saturating_add(count);
        }
        all
    }

    /// How many a lane may keep a report of: those that were late may be reported later.
    pub(crate) fn reports(&self) -> u64 {
        self.reported.saturating_add(self.late)
    }

    // One more ended so.
    fn add(&mut self, end: &End) {
        let count = match end {
            End::Applied {
                status: Some(_),
                ..
            } => &mut self.applied,
            End::Applied { status: None, .. } => &mut self.already,
            End::Reported(_) => &mut self.reported,
            End::Late => &mut self.late,
            End::Unput => &mut self.unput,
            End::Gone => &mut self.gone,
        };
        *count = count.saturating_add(1);
    }

    fn of(settled: &Settled) -> Ends {
        let mut ends = Ends::NONE;
        for end in &settled.ends {
            ends.add(end);
        }
        ends
    }
}

/// How many operations ended how, how many requests they came in, and how long these took. Each number
/// is read separately, so they need not all be from the same moment.
#[derive(Drop)]
pub(crate) struct Counts {
    applied: AtomicU64,
    already: AtomicU64,
    reported: AtomicU64,
    late: AtomicU64,
    unput: AtomicU64,
    gone: AtomicU64,
    // How many requests took at most as long as each bound, and longer than the one before; those that
    // took longer than all are last.
    within: Vec<AtomicU64>,
    took: AtomicU64,
}

fn add(to: &AtomicU64, count: u64) {
    if count > 0 {
        to.fetch_add(count, Ordering::SeqCst);
    }
}

impl Counts {
    /// Nothing was counted yet. `AllocError`: allocation failed.
    pub(crate) fn new(alloc: Global) -> Result<Counts, AllocError> {
        let mut within = Vec::new(alloc);
        for _ in 0..=BOUNDS.len() {
            within.push(AtomicU64::new(0))?;
        }
        Ok(Counts {
            applied: AtomicU64::new(0),
            already: AtomicU64::new(0),
            reported: AtomicU64::new(0),
            late: AtomicU64::new(0),
            unput: AtomicU64::new(0),
            gone: AtomicU64::new(0),
            within,
            took: AtomicU64::new(0),
        })
    }

    /// Counts a request whose writes were settled so.
    pub(crate) fn add(&self, settled: &Settled) {
        let ends = Ends::of(settled);
        add(&self.applied, ends.applied);
        add(&self.already, ends.already);
        add(&self.reported, ends.reported);
        add(&self.late, ends.late);
        add(&self.unput, ends.unput);
        add(&self.gone, ends.gone);
        add(&self.took, settled.took);
        let place = BOUNDS
            .iter()
            .position(|bound| settled.took <= bound.0)
            .unwrap_or(BOUNDS.len());
        if let Some(count) = self.within.get(place) {
            add(count, 1);
        }
    }

    /// How the operations ended so far.
    pub(crate) fn ends(&self) -> Ends {
        Ends {
            applied: self.applied.load(Ordering::SeqCst),
            already: self.already.load(Ordering::SeqCst),
            reported: self.reported.load(Ordering::SeqCst),
            late: self.late.load(Ordering::SeqCst),
            unput: self.unput.load(Ordering::SeqCst),
            gone: self.gone.load(Ordering::SeqCst),
        }
    }

    /// How many requests took longer than the bound before this place, from 0, and at most as long as
    /// the one at it.
    pub(crate) fn within(&self, place: usize) -> u64 {
        match self.within.get(place) {
            Some(count) => count.load(Ordering::SeqCst),
            None => 0,
        }
    }

    /// How long all requests took together, in milliseconds.
    pub(crate) fn took(&self) -> u64 {
        self.took.load(Ordering::SeqCst)
    }
}
