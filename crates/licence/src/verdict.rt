ghost use Rattle.std.specs.Prelude.{◌≡◌, true};
ghost use Rattle.licence.specs.Verdicts.{known};

// How many classes there are.
const CLASSES: u8 = 4;

// What a policy says of a packet at a card: it is dropped, or kept with a class.
// It is no Option: 'refuse' is an answer, and beside a book's `find` a None would read as 'no rule'.
#[derive(Clone, Copy, PartialEq, Eq)]
pub enum Verdict {
    Refuse,
    Class(u8),
}

impl Verdict {
    // Refuse, or one of the classes that there are?
    pub fn is_known(self) -> bool
        ensures { result ≡ known self }
    {
        match self {
            Verdict::Refuse => true,
            Verdict::Class(class) => class < CLASSES,
        }
    }
}

// The verdict of a rule. It is a struct of its own because a generic struct with a ghost field is not `Copy`.
#[derive(Clone, Copy)]
pub(crate) struct Carried {
    pub(crate) verdict: Verdict,
    ghost classed: { known verdict ≡ true },
}
