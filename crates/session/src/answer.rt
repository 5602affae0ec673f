// What a line of the console is answered.

// What a command that is granted gives.
#[derive(Clone, Copy)]
pub enum Answer {
    Done,
    // The outputs written by a fire, or the hops owed.
    Number(u32),
    // A word that was taken.
    Word(u32),
}
