// The first word of a line.
ghost use Rattle.command.specs.Verbs.{verb_named};

use text::Spelling;

// What a line asks for.
#[derive(Clone, Copy)]
pub(crate) enum Verb {
    Tree,
    Rule,
    Go,
    Send,
    Fire,
    Take,
    Owed,
}

impl Spelling for Verb {
    type Value = Verb;

    ghost spells = { verb_named };

    fn read(field: &[u8]) -> Option<Verb> {
        match field {
            b"tree" => Some(Verb::Tree),
            b"rule" => Some(Verb::Rule),
            b"go" => Some(Verb::Go),
            b"send" => Some(Verb::Send),
            b"fire" => Some(Verb::Fire),
            b"take" => Some(Verb::Take),
            b"owed" => Some(Verb::Owed),
            _ => None,
        }
    }
}
