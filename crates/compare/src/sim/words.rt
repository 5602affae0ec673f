// The bits of words.

pub(crate) fn is_head(word: u32) -> bool {
    word >> 30 == 2
}

pub(crate) fn is_tail(word: u32) -> bool {
    word >> 30 == 1
}

pub(crate) fn is_body(word: u32) -> bool {
    word >> 30 == 0
}

// The mode bit of a head.
pub(crate) fn floods(head: u32) -> bool {
    head & 0x2000_0000 != 0
}

// The nine bits of a head's route.
pub(crate) fn route(head: u32) -> u32 {
    head & 0x1ff
}

// The highest bit of a head's route.
pub(crate) fn top(head: u32) -> bool {
    head & 0x100 != 0
}

// The head with its route moved up by one bit.
pub(crate) fn moved(head: u32) -> u32 {
    (head & !0x1ff) | ((head & 0xff) << 1)
}

pub(crate) fn key(word: u32) -> u8 {
    (word & 0xff) as u8
}

// The key word with a class in bits 29 and 28.
pub(crate) fn with_class(word: u32, class: u8) -> u32 {
    word | (u32::from(class) << 28)
}
