// What the runs have met, as it is printed.
use crate::calls::{Answer, Call};
use crate::kinds::{Kinds, add};
use std::fmt;

// Calls made and calls granted, of one kind.
#[derive(Clone, Copy, Default)]
pub struct Count {
    made: u64,
    granted: u64,
}

#[derive(Clone, Copy)]
pub struct Tally {
    runs: u64,
    pub kinds: Kinds,
    sends: Count,
    fires: Count,
    takes: Count,
    owed: Count,
    floods: u64,
    targets: u64,
    longest_packet: u64,
    // By their numbers.
    refusals: [u64; 19],
    deepest_queue: u64,
    fullest_inbox: u64,
    most_owed: u64,
}

impl Count {
    fn call(&mut self, answer: Answer) {
        add(&mut self.made, 1);
        if !matches!(answer, Answer::Refused { .. }) {
            add(&mut self.granted, 1);
        }
    }

    fn join(&mut self, other: Count) {
        add(&mut self.made, other.made);
        add(&mut self.granted, other.granted);
    }
}

impl fmt::Display for Count {
    fn fmt<W: fmt::Write>(&self, f: &mut fmt::Formatter<W>) -> fmt::Result {
        write!(f, "{}, granted {}", self.made, self.granted)
    }
}

impl Tally {
    // Of one run, before its first call.
    pub(crate) fn new() -> Tally {
        Tally {
            runs: 1,
            kinds: Kinds::default(),
            sends: Count::default(),
            fires: Count::default(),
            takes: Count::default(),
            owed: Count::default(),
            floods: 0,
            targets: 0,
            longest_packet: 0,
            refusals: [0; 19],
            deepest_queue: 0,
            fullest_inbox: 0,
            most_owed: 0,
        }
    }

    // One call and its answer.
    pub(crate) fn call(&mut self, call: &Call, answer: Answer) {
        match call {
            Call::Send { .. } => self.sends.call(answer),
            Call::Fire { .. } => self.fires.call(answer),
            Call::Take { .. } => self.takes.call(answer),
            Call::Owed => self.owed.call(answer),
        }
        if let Answer::Refused { number, .. } = answer {
            if let Some(count) = self.refusals.get_mut(usize::from(number)) {
                add(count, 1);
            }
        }
    }

    // The mode and the length of a packet that is queued.
    pub(crate) fn queued(&mut self, floods: bool, words: usize) {
        self.longest_packet = self.longest_packet.max(words as u64);
        if floods {
            add(&mut self.floods, 1);
        } else {
            add(&mut self.targets, 1);
        }
    }

    // The sizes after a call.
    pub(crate) fn sizes(&mut self, queue: usize, inbox: usize, owed: u64) {
        self.deepest_queue = self.deepest_queue.max(queue as u64);
        self.fullest_inbox = self.fullest_inbox.max(inbox as u64);
        self.most_owed = self.most_owed.max(owed);
    }

    pub(crate) fn join(&mut self, other: &Tally) {
        add(&mut self.runs, other.runs);
        self.kinds.join(other.kinds);
        self.sends.join(other.sends);
        self.fires.join(other.fires);
        self.takes.join(other.takes);
        self.owed.join(other.owed);
        add(&mut self.floods, other.floods);
        add(&mut self.targets, other.targets);
        for (count, by) in self.refusals.iter_mut().zip(other.refusals.iter()) {
            add(count, *by);
        }
        self.longest_packet = self.longest_packet.max(other.longest_packet);
        self.deepest_queue = self.deepest_queue.max(other.deepest_queue);
        self.fullest_inbox = self.fullest_inbox.max(other.fullest_inbox);
        self.most_owed = self.most_owed.max(other.most_owed);
    }

    // All calls made.
    pub(crate) fn calls(&self) -> u64 {
        self.sends
            .made
            .saturating_add(self.fires.made)
            .saturating_add(self.takes.made)
            .saturating_add(self.owed.made)
    }
}

impl fmt::Display for Tally {
    fn fmt<W: fmt::Write>(&self, f: &mut fmt::Formatter<W>) -> fmt::Result {
        writeln!(f, "runs {}", self.runs)?;
        writeln!(f, "{}", self.kinds)?;
        writeln!(f, "calls {}", self.calls())?;
        writeln!(f, "send {}", self.sends)?;
        writeln!(f, "fire {}", self.fires)?;
        writeln!(f, "take {}", self.takes)?;
        writeln!(f, "owed {}", self.owed)?;
        writeln!(f, "queued floods {}, targets {}", self.floods, self.targets)?;
        writeln!(f, "longest packet queued {}", self.longest_packet)?;
        for (number, count) in self.refusals.iter().enumerate() {
            if number >= 5 {
                writeln!(f, "refused by {number}: {count}")?;
            }
        }
        writeln!(f, "deepest queue {}", self.deepest_queue)?;
        writeln!(f, "fullest inbox {}", self.fullest_inbox)?;
        write!(f, "most hops owed {}", self.most_owed)
    }
}
