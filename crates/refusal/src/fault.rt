// What every fault has: the refusal that answers it, and what is wrong in words.
ghost use Rattle.std.specs.Prelude.{◌≡◌, ℕ, List, Some};
ghost use Rattle.std.specs.Fmt.{DisplaysOnOk};
ghost use Rattle.refusal.specs.declared.answer.Refusal.{Refusal};
ghost use Rattle.refusal.specs.Sentences.{sentence};

use crate::answer::Refusal;
use std::fmt;

// Why a call is refused.
pub trait Fault {
    ghost refusal: { Self → Refusal };

    ghost reason: { Self → List ℕ };

    // The number, and the place where there is one.
    fn refusal(&self) -> Refusal
        ensures { result ≡ refusal self.now };

    // What is wrong, in words.
    fn reason(&self) -> &'static str
        ensures { result.now ≡ reason self.now };
}

impl<F: Fault + Drop> From<F> for Refusal {
    ghost from_gives = { λ fault refusal. refusal ≡ F.refusal fault };

    fn from(fault: F) -> Refusal {
        fault.refusal()
    }
}

// The body of each fault's Display. The derive of thiserror is no way to it: it states nothing of what is printed.
pub fn write_sentence<F: Fault, W: fmt::Write>(fault: &F, f: &mut fmt::Formatter<W>) -> fmt::Result
    ensures { DisplaysOnOk W.write_str_gives f.old result (Some (sentence (F.refusal fault.now) (F.reason fault.now))) f.new }
{
    write!(f, "{}: {}", fault.refusal(), fault.reason())
}
