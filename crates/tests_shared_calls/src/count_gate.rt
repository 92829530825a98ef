//! A gate that counts.
use onll_outside::{Gate, Point};
use onll_trace::Spot;
use std::sync::atomic::{AtomicU64, Ordering};

/// A gate that counts the arrivals of all threads at each point.
#[derive(Drop)]
pub struct CountGate {
    begin: AtomicU64,
    ordered: AtomicU64,
    walked: AtomicU64,
    fenced: AtomicU64,
    answered: AtomicU64,
}

impl CountGate {
    /// A gate that no thread has come to.
    pub fn new() -> CountGate {
        CountGate {
            begin: AtomicU64::new(0),
            ordered: AtomicU64::new(0),
            walked: AtomicU64::new(0),
            fenced: AtomicU64::new(0),
            answered: AtomicU64::new(0),
        }
    }

    fn counter(&self, point: Point) -> &AtomicU64 {
        match point {
            Point::Begin => &self.begin,
            Point::Ordered => &self.ordered,
            Point::Walked => &self.walked,
            Point::Fenced => &self.fenced,
            Point::Answered => &self.answered,
        }
    }

    /// How often threads came to a point.
    pub fn arrivals(&self, point: Point) -> u64 {
        self.counter(point).load(Ordering::SeqCst)
    }

    /// How often threads came to each point, in the order of the points.
    pub fn all(&self) -> [u64; 5] {
        [
            self.arrivals(Point::Begin),
            self.arrivals(Point::Ordered),
            self.arrivals(Point::Walked),
            self.arrivals(Point::Fenced),
            self.arrivals(Point::Answered),
        ]
    }
}

impl Gate for CountGate {
    fn at(&self, _spot: &Spot, point: Point) {
        self.counter(point).fetch_add(1, Ordering::SeqCst);
    }
}
