// A queue of at most 64 words. It stays in fixed memory, where freed places are used again, since no call on a tree may allocate.
ghost use Rattle.std.specs.Prelude.{◌≡◌, ℕ, ◌+◌, ◌%◌, ◌<◌, ◌≤◌, List, [], ◌∷◌, ◌++◌, length};
ghost use Rattle.network.specs.Cards.{oldest, younger};
ghost use Rattle.store.specs.Rings.{around, waiting};

use std::marker::Model;

// Both counters only grow, and wrap. A word that is taken changes one of them, where a first place and a length would both change.
#[derive(Drop)]
pub(crate) struct Ring {
    words: [u32; 64],
    taken: u32,
    added: u32,
}

// Clauses see the words, oldest first.
impl Model for Ring {
    ghost Value = { List ℕ };

    ghost view = { λ r. around r.words r.taken (waiting r.taken r.added) };

    ghost invariant = { λ r. waiting r.taken r.added ≤ 64 };
}

impl Ring {
    pub(crate) fn empty() -> Ring
        ensures { result ≡ [] }
    {
        Ring {
            words: [0; 64],
            taken: 0,
            added: 0,
        }
    }

    // How many words there are.
    pub(crate) fn len(&self) -> usize
        ensures words { result ≡ length self.now }
        ensures few { result ≤ 64 }
    {
        self.added.wrapping_sub(self.taken) as usize
    }

    #[inline(always)]
    pub(crate) fn oldest(&self) -> Option<u32>
        ensures { result ≡ oldest self.now }
    {
        if self.added == self.taken {
            return None;
        }
        Some(self.words[(self.taken % 64) as usize])
    }

    // One word more, behind the others.
    #[inline(always)]
    pub(crate) fn push(&mut self, word: u32)
        requires { length self.old < 64 }
        ensures { self.new ≡ self.old ++ word ∷ [] }
    {
        self.words[(self.added % 64) as usize] = word;
        self.added = self.added.wrapping_add(1);
    }

    // The oldest word leaves, if there is one. One write whether there is or not, so that a processor has no branch to guess.
    #[inline(always)]
    pub(crate) fn drop_oldest(&mut self)
        ensures { self.new ≡ younger self.old }
    {
        self.taken = if self.added == self.taken {
            self.taken
        } else {
            self.taken.wrapping_add(1)
        };
    }

    // The oldest word leaves, and is told.
    #[inline(always)]
    pub(crate) fn pop(&mut self) -> Option<u32>
        ensures word { result ≡ oldest self.old }
        ensures rest { self.new ≡ younger self.old }
    {
        let word = self.oldest()?;
        self.taken = self.taken.wrapping_add(1);
        Some(word)
    }

    // All these words, behind the others.
    pub(crate) fn push_all(&mut self, words: &[u32])
        requires { length self.old + length words.now ≤ 64 }
        ensures { self.new ≡ self.old ++ words.now }
    {
        copy_round(&mut self.words, (self.added % 64) as usize, words);
        self.added = self.added.wrapping_add(words.len() as u32);
    }
}

// Words from a place on, and from the first one on where the memory ends before they do.
fn copy_round(memory: &mut [u32; 64], at: usize, words: &[u32])
    requires { (at < 64) × (length words.now ≤ 64) }
    ensures { (f n : ℕ) → (f + n) % 64 ≡ at → n + length words.now ≤ 64 → around memory.new f (n + length words.now) ≡ around memory.old f n ++ words.now }
{
    let room = 64 - at;
    if words.len() <= room {
        memory[at..at + words.len()].copy_from_slice(words);
        return;
    }
    let (front, back) = words.split_at(room);
    memory[at..].copy_from_slice(front);
    memory[..back.len()].copy_from_slice(back);
}
