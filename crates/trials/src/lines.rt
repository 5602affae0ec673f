// Lines of the console.
use command::{Command, LineBuffer, PacketRoom, read};
use station::{Input, Station};

// A line of 200 bytes, and one of 201.
const LONGEST: &[u8] =
    b"send 1 T DS 11 7 7 7 7 7 7 7 7 7 7 7 7 7 7 7 7 7 7 7 7 7 7 7 7 7 7 7 7 7 7 7 7 7 7 7 7 7 7 7 7 7 7 7 7 7 7 7 7 7 7 7 7 7 7 7 7 7 7 7 7 7 7 7 7 7 7 7 7 7 7 7 7 7 7 7 7 7 7 7 7 7 7 7 7 7 7 7 7 7 7 7 7 7";

const TOO_LONG: &[u8] =
    b"send 1 T DSD 11 7 7 7 7 7 7 7 7 7 7 7 7 7 7 7 7 7 7 7 7 7 7 7 7 7 7 7 7 7 7 7 7 7 7 7 7 7 7 7 7 7 7 7 7 7 7 7 7 7 7 7 7 7 7 7 7 7 7 7 7 7 7 7 7 7 7 7 7 7 7 7 7 7 7 7 7 7 7 7 7 7 7 7 7 7 7 7 7 7 7 7 7 7";

const UNDERSTOOD: [&[u8]; 20] = [
    b"tree 0",
    b"tree 007",
    b"tree 999",
    b"rule 0 30 00 ff n",
    b"rule 999 000 fF 00 256",
    b"go",
    b"send 1 T DS 11",
    b"send 999 F SUS 00 0 00000000 3fffffff 3FFFFFFF",
    b"send 1 T DSDLL 11 5",
    b"send 1 T UDLRSUDLR aB",
    b"send 1 T D 11",
    b"fire 1 u l",
    b"fire 1 u t",
    b"fire 1 d r",
    b"fire 1 d p",
    b"fire 31 d q",
    b"take 0",
    b"take 31",
    b"owed",
    LONGEST,
];

const NOT_UNDERSTOOD: [&[u8]; 52] = [
    b"",
    b" ",
    b"owed ",
    b" owed",
    b"owed\r",
    b"owed\0",
    b"\xf6wed",
    b"Owed",
    b"go x",
    b"go\ttree",
    b"tree",
    b"tree ",
    b"tree x",
    b"tree 0007",
    b"tree 1000",
    b"tree +5",
    b"tree -1",
    b"tree 0x1",
    b"tree 2 2",
    b"tree  2",
    b"tree\t2",
    b"tree 2\r",
    b"tree \xd9\xa2",
    b"take 0 0",
    b"take 65536",
    b"rule 0 30 00 ff",
    b"rule 0 30 00 ff N",
    b"rule 0 30 00 ff ",
    b"rule 0 30 0 ff n",
    b"rule 0 30 00 fg n",
    b"rule 0 30 00 ff 0000",
    b"rule 0 30 00 ff n n",
    b"send 1 T DS",
    b"send 1 T DS 1",
    b"send 1 T DS 0x11",
    b"send 1 T  11",
    b"send 1 T UDLRSUDLRS 11",
    b"send 1 T UDLRSUDLRD 11",
    b"send 1 T ds 11",
    b"send 1 T DX 11",
    b"send 1 t DS 11",
    b"send 1 TF DS 11",
    b"send 1 T DS 11 ",
    b"send 1 T DS 11 40000000",
    b"send 1 T DS 11 ffffffff",
    b"send 1 T DS 11 000000005",
    b"send 1 T DS 11 +5",
    b"send 1 T DS 11 5 x",
    b"fire 1 U q",
    b"fire 1 u x",
    b"fire 1 u",
    TOO_LONG,
];

// How many of these lines are commands.
fn understood(lines: &[&[u8]]) -> usize {
    lines
        .iter()
        .filter(|line| read(line, &mut PacketRoom::new()).is_some())
        .count()
}

#[test]
fn tells_commands_from_other_lines(rt: HostRuntime) {
    assert_eq!(rt; understood(&UNDERSTOOD), 20);
    assert_eq!(rt; understood(&NOT_UNDERSTOOD), 0);
}

// The words of the packet that a line sends.
fn sends(line: &[u8], words: &[u32]) -> bool {
    match read(line, &mut PacketRoom::new()) {
        Some(Command::Send { packet, .. }) => packet == words,
        _ => false,
    }
}

// How many words the packet has that a line sends, or none where it sends none.
fn words_sent(line: &[u8]) -> Option<usize> {
    match read(line, &mut PacketRoom::new())? {
        Command::Send { packet, .. } => Some(packet.len()),
        _ => None,
    }
}

#[test]
fn reads_what_a_line_says(rt: HostRuntime) {
    let mut room = PacketRoom::new();
    assert!(rt;
        matches!(
            read(b"tree 007", &mut room),
            Some(Command::Tree { levels: 7 })
        )
    );
    assert!(rt;
        matches!(
            read(b"fire 31 d p", &mut room),
            Some(Command::Fire {
                card: 31,
                station: Station::Down,
                input: Input::Parent
            })
        )
    );
    match read(b"rule 2 1 0a FF 256", &mut room) {
        Some(Command::Rule { cards, keys, class }) => {
            assert!(rt; cards.low == 2 && cards.high == 1);
            assert!(rt; keys.low == 10 && keys.high == 255);
            assert!(rt; class == Some(256));
        }
        _ => assert!(rt; false, "no rule"),
    }
    assert!(rt; sends(b"send 1 T DS 11", &[0x8000_0080, 0x4000_0011]));
    assert!(rt; sends(b"send 1 F UDS 11 5", &[0xa000_0140, 0x11, 0x4000_0005]));
    assert_eq!(rt; words_sent(LONGEST), Some(95));
}

// What a buffer says of an input that comes in parts.
#[derive(Clone, Copy, PartialEq, Eq, Debug)]
struct Said {
    commands: usize,
    others: usize,
}

impl Said {
    fn count(&mut self, said: Option<Option<Command>>) {
        match said {
            Some(Some(_)) => self.commands = self.commands.saturating_add(1),
            Some(None) => self.others = self.others.saturating_add(1),
            None => (),
        }
    }
}

fn said_of(parts: &[&[u8]]) -> Said {
    let mut buffer = LineBuffer::new();
    let mut room = PacketRoom::new();
    let mut said = Said {
        commands: 0,
        others: 0,
    };
    for part in parts {
        let mut left = *part;
        while let Some(line) = buffer.feed(&mut left, &mut room) {
            said.count(Some(line));
        }
    }
    said.count(buffer.last(&mut room));
    said
}

#[test]
fn answers_each_line(rt: HostRuntime) {
    assert_eq!(rt;
        said_of(&[]),
        Said {
            commands: 0,
            others: 0
        }
    );
    assert_eq!(rt;
        said_of(&[b"\n"]),
        Said {
            commands: 0,
            others: 1
        }
    );
    assert_eq!(rt;
        said_of(&[b"go\nowed"]),
        Said {
            commands: 2,
            others: 0
        }
    );
    assert_eq!(rt;
        said_of(&[b"g", b"o\now", b"", b"ed", b"\n\n"]),
        Said {
            commands: 2,
            others: 1
        }
    );
    assert_eq!(rt;
        said_of(&[b"go\r\n\n\xff\nowed\n"]),
        Said {
            commands: 1,
            others: 3
        }
    );
    let mut long = [b'g'; 500];
    long[497] = b'\n';
    long[499] = b'o';
    assert_eq!(rt;
        said_of(&[&long]),
        Said {
            commands: 1,
            others: 1
        }
    );
}
