// The console of the tree: each line of standard input is answered by one line.
#![tactic(auto)]

ghost use Rattle.std.specs.Prelude.{◌≡◌, [], ◌∷◌, ◌++◌, OnOk, false};
ghost use Rattle.std.specs.Io.KnownBytes.{Appends};
ghost use Rattle.session.specs.Answers.{reply_text};
ghost use Rattle.session.specs.Replies.{HasRoom};
ghost use Rattle.session.specs.Conversations.{desk_in, replied};
ghost use Rattle.command.specs.Inputs.{said_last, followed};
ghost use Rattle.console.specs.Printed.{printed, answered_by};

use session::{Answer, Conversation, LONGEST_REPLY, LineFault, Replies, push_reply};
use std::io;
use std::io::{BufRead, BufReader, IsTerminal, Write};

const HELP: &str = "tree LEVELS; then rule LOW HIGH LOWKEY HIGHKEY CLASS (or n), or none; then go; \
    then send CARD T|F ROUTE KEY WORDS, fire CARD u|d l|r|q|p|t, take CARD, owed";

// The most bytes that are read at once.
const BLOCK: usize = 65536;

// The lines of a host or a person: the replies that are not written yet, where they go, and where the words for a person, if one types.
#[derive(Drop)]
struct Terminal<O, E> {
    conversation: Conversation,
    replies: Replies,
    out: O,
    aside: Option<E>,
}

impl<O: Write, E: Write> Terminal<O, E> {
    // Takes the bytes that came, and writes the reply to each line that they end.
    fn feed(&mut self, bytes: &[u8]) -> io::Result<()>
        requires { HasRoom self.old.replies }
        ensures text { OnOk result (Appends (O.contents self.old.out) (O.contents self.new.out)
            (self.old.replies.items ++ printed (answered_by (desk_in self.old.conversation) self.old.conversation.line bytes.now))) }
        ensures none { OnOk result (self.new.replies.items ≡ []) }
    {
        let mut left = bytes;
        while let Some(answer) = self.conversation.feed(&mut left) {
            if self.hold(answer) {
                self.tell(answer)?;
            }
        }
        self.write()
    }

    // Ends the input: a last line may lack its newline.
    fn end(&mut self) -> io::Result<()>
        requires { HasRoom self.old.replies }
        ensures { OnOk result (Appends (O.contents self.old.out) (O.contents self.new.out)
            (self.old.replies.items ++ printed (followed (replied (desk_in self.old.conversation) (said_last self.old.conversation.line)) []))) }
    {
        if let Some(answer) = self.conversation.end() {
            if self.hold(answer) {
                self.tell(answer)?;
            }
        }
        self.write()
    }

    // Adds a reply to those that are to be written. They are due where there is no room for one more, or where a person waits for words.
    #[inline(always)]
    fn hold(&mut self, answer: Result<Answer, LineFault>) -> bool
        requires { HasRoom self.old.replies }
        ensures text { self.new.replies.items ≡ self.old.replies.items ++ (reply_text answer ++ 10 ∷ []) }
        ensures out { self.new.out ≡ self.old.out }
        ensures conversation { self.new.conversation ≡ self.old.conversation }
        ensures room { result ≡ false → HasRoom self.new.replies }
    {
        push_reply(&mut self.replies, answer);
        let full = self.replies.remaining_capacity() < LONGEST_REPLY;
        full || (self.aside.is_some() && answer.is_err())
    }

    // Writes the replies, and for a person what is wrong. This and `write` are not inlined: room for an error would be cleared at every line.
    // That these words cannot be written ends nothing.
    #[inline(never)]
    fn tell(&mut self, answer: Result<Answer, LineFault>) -> io::Result<()>
        ensures text { OnOk result (Appends (O.contents self.old.out) (O.contents self.new.out) self.old.replies.items) }
        ensures none { OnOk result (self.new.replies.items ≡ []) }
        ensures conversation { self.new.conversation ≡ self.old.conversation }
    {
        self.write()?;
        if let (Some(aside), Err(fault)) = (&mut self.aside, answer) {
            let _ = writeln!(aside, "{fault}");
        }
        Ok(())
    }

    // Writes the replies that are not written yet.
    #[inline(never)]
    fn write(&mut self) -> io::Result<()>
        ensures text { OnOk result (Appends (O.contents self.old.out) (O.contents self.new.out) self.old.replies.items) }
        ensures none { OnOk result (self.new.replies.items ≡ []) }
        ensures conversation { self.new.conversation ≡ self.old.conversation }
    {
        self.out.write_all(self.replies.as_slice())?;
        self.replies.clear();
        self.out.flush()
    }
}

fn main(rt: HostRuntime) -> io::Result<()> {
    let heap = rt.alloc();
    let stdin = rt.stdin();
    let mut aside = None;
    if stdin.is_terminal() {
        let mut stderr = rt.stderr();
        let _ = writeln!(stderr, "{HELP}");
        aside = Some(stderr);
    }
    let mut terminal = Terminal {
        conversation: Conversation::new(),
        replies: Replies::new(),
        out: rt.stdout(),
        aside,
    };
    let mut input = BufReader::with_capacity(heap, BLOCK, stdin)?;
    // What came is answered before more is waited for.
    for _ in 0..u64::MAX {
        let bytes = input.fill_buf()?;
        let count = bytes.len();
        if count == 0 {
            break;
        }
        terminal.feed(bytes)?;
        input.consume(count);
    }
    terminal.end()
}
