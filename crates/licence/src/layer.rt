// The layer of withdrawn keys.
ghost use Rattle.std.specs.Prelude.{◌≡◌, true, false, length};
ghost use Rattle.licence.specs.Keys.{all_keys};
ghost use Rattle.licence.specs.Layers.{fresh, marked, withdrawn_in, layered};
ghost use Rattle.std.proofs.Common.{rules};

use crate::policy::Policy;
use crate::verdict::Verdict;
use std::marker::Model;

// How many keys there are.
const KEYS: usize = 256;

// A policy over another: it refuses the keys that are withdrawn, and leaves the others to the policy below. An array of marks, not a set: no heap.
#[derive(Drop)]
pub struct Withdrawal<P> {
    policy: P,
    withdrawn: [bool; KEYS],
}

// Clauses see the policy below and the marks.
impl<P> Model for Withdrawal<P> {
    ghost use Rattle.std.specs.Prelude.{◌≡◌, length};
    ghost use Rattle.licence.specs.Keys.{all_keys};
    ghost use Rattle.licence.specs.Layers.{Layer};

    ghost Value = { Layer P };

    ghost view = { λ w. record { below = w.policy; marks = w.withdrawn } };

    ghost invariant = { λ w. length w.withdrawn ≡ all_keys };
}

impl<P: Policy> Withdrawal<P> {
    // The layer over a policy, with no key withdrawn.
    pub fn over(policy: P) -> Withdrawal<P>
        ensures { result ≡ fresh policy }
    {
        Withdrawal {
            policy,
            withdrawn: [false; KEYS],
        }
    }

    // Refuses the key from now on.
    pub fn withdraw(&mut self, key: u8)
        ensures next { self.new ≡ marked self.old key true }
        ensures again { withdrawn_in self.old key ≡ true → self.new ≡ self.old }
        ensures read_back { withdrawn_in self.new key ≡ true }
    {
        self.set_mark(key, true);
    }

    // Leaves the key to the policy below again.
    pub fn restore(&mut self, key: u8)
        ensures next { self.new ≡ marked self.old key false }
        ensures again { withdrawn_in self.old key ≡ false → self.new ≡ self.old }
        ensures read_back { withdrawn_in self.new key ≡ false }
    {
        self.set_mark(key, false);
    }

    // Writes whether the key is withdrawn.
    fn set_mark(&mut self, key: u8, mark: bool)
        ensures next { self.new ≡ marked self.old key mark }
        ensures again { withdrawn_in self.old key ≡ mark → self.new ≡ self.old }
        ensures read_back { withdrawn_in self.new key ≡ mark }
    {
        let place = usize::from(key);
        self.withdrawn[place] = mark;
    }

    // Is the key withdrawn in this layer?
    pub fn is_withdrawn(&self, key: u8) -> bool
        ensures value { result ≡ withdrawn_in self.now key }
        ensures whole { length self.now.marks ≡ all_keys }
    {
        self.withdrawn[usize::from(key)]
    }
}

impl<P: Policy> Policy for Withdrawal<P> {
    ghost verdict = { layered P.verdict };

    ghost classed = { Prim.search rules };

    fn ask(&self, card: u16, key: u8) -> Verdict {
        if self.is_withdrawn(key) {
            return Verdict::Refuse;
        }
        self.policy.ask(card, key)
    }
}
