// A word: its kind, which is its two highest bits, and its bits one by one.
ghost use Rattle.std.specs.Prelude.{◌≡◌, ◌<◌};
ghost use Rattle.packet.specs.Words.{bit, kind_of};

// What a word is in its packet.
#[derive(Clone, Copy, PartialEq, Eq)]
pub enum Kind {
    Body,
    Tail,
    Head,
    Unused,
}

impl Kind {
    // The kind of a word, from its bits 31 and 30. The others are dropped, so this is no From.
    pub fn of(word: u32) -> Kind
        ensures { result ≡ kind_of word }
    {
        match word / 0x4000_0000 % 4 {
            0 => Kind::Body,
            1 => Kind::Tail,
            2 => Kind::Head,
            _ => Kind::Unused,
        }
    }
}

// Whether bit k of a word is 1.
pub(crate) fn bit(k: u32, word: u32) -> bool
    requires { k < 32 }
    ensures { result ≡ bit k word }
{
    (word >> k) % 2 == 1
}
