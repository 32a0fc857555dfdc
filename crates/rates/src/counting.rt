//! What one window does: it takes a limit, is cleared, and counts.

ghost use Rattle.std.specs.Prelude.{◌≡◌, ◌-◌, ◌^◌, ◌≤◌, min, length, take};
ghost use Rattle.rates.specs.Marks.{counted, amount_of};
ghost use Rattle.rates.specs.Views.{view, empty, cleared, answers, after};
ghost use Rattle.rates.specs.Runs.{AsDefined, AnswersSince, StopsSince, WeighsSince, TripsBelow};

use crate::window::{Mark, Window};

// Moves what still counts of the first `used` marks to the front, in its order, and says how many those are. By index, since it writes the
// array that it reads.
fn prune(marks: &mut [Mark], used: usize, time: u64, interval: u64) -> usize
    requires { used ≤ length marks.old }
    ensures kept { take result marks.new ≡ counted time interval (take used marks.old) }
    ensures small { result ≤ used }
{
    let mut k = 0;
    for i in 0..used {
        let m = marks[i];
        if time.saturating_sub(m.time) < interval {
            marks[k] = m;
            k += 1;
        }
    }
    k
}

// What the marks come to; as much as fits where it is more.
fn weight(marks: &[Mark]) -> u64
    ensures { result ≡ min (amount_of marks.now) (2 ^ 64 - 1) }
{
    marks
        .iter()
        .fold(0, |sum: u64, mark| sum.saturating_add(mark.amount))
}

impl Window {
    pub(crate) fn new() -> Window
        ensures { view result ≡ empty 0 0 }
    {
        Window {
            limit: 0,
            interval: 0,
            tripped: false,
            used: 0,
            marks: [Mark { time: 0, amount: 0 }; 31],
        }
    }

    pub(crate) fn clear(&mut self)
        ensures { view self.new ≡ cleared (view self.old) }
    {
        self.tripped = false;
        self.used = 0;
    }

    pub(crate) fn limit_to(&mut self, limit: u64, interval: u64)
        ensures { view self.new ≡ empty limit interval }
    {
        self.limit = limit;
        self.interval = interval;
        self.clear();
    }

    // Does the event trip the window?
    pub(crate) fn count(&mut self, time: u64, amount: u64) -> bool
        ensures trip { result ≡ answers time amount (view self.old) }
        ensures defined { AsDefined result time amount (view self.old) }
        ensures next { view self.new ≡ after time amount (view self.old) }
    {
        if self.limit == 0 || self.tripped {
            return false;
        }
        let used = prune(&mut self.marks, self.used as usize, time, self.interval);
        let total = weight(&self.marks[..used]).saturating_add(amount);
        if total >= self.limit || used == 31 {
            self.tripped = true;
            self.used = 0;
            return true;
        }
        self.marks[used] = Mark { time, amount };
        self.used = used as u8 + 1;
        false
    }
}

/// The laws of a window, over all that befalls it. Does nothing.
pub fn windows_stand()
    ensures answers { AnswersSince }
    ensures stops { StopsSince }
    ensures weighs { WeighsSince }
    ensures below { TripsBelow }
{}
