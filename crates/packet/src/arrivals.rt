// A delivered packet.

// A packet as it was delivered: a part of the words that were read, from key word through tail.
#[derive(Clone, Copy)]
pub struct Arrival<'a> {
    pub words: &'a [u32],
    pub key: u8,
    pub class: u8,
    pub place: usize,
}
