// The console and its lines: an input is fed in parts, and each line is answered as it ends.
ghost use Rattle.std.specs.Prelude.{◌≡◌, ℕ, List, [], ◌++◌};
ghost use Rattle.command.specs.Inputs.{fed, said_last, all_said, followed};
ghost use Rattle.session.specs.Desks.{waiting};
ghost use Rattle.session.specs.Sessions.{StandsBy, after, answers, calls_made};
ghost use Rattle.session.specs.Conversations.{replied, desk_after, all_answered, KeepsOnIf, desk_in, said_in};

use crate::answer::Answer;
use crate::console::Console;
use crate::fault::LineFault;
use command::{LineBuffer, PacketRoom};

// The console, what is read of the next line, and room for the packet of a line that ends.
#[derive(Drop)]
pub struct Conversation {
    console: Console,
    line: LineBuffer,
    packet: PacketRoom,
}

impl Conversation {
    // Nothing is read, and the console waits for a tree. An input that is fed to it and then ended is answered line by line, in order.
    #[tactic(auto, using(crate::proofs::Answering::line_by_line))]
    pub fn new() -> Conversation
        ensures desk { desk_in result ≡ waiting }
        ensures lines { (input : List ℕ) → all_said result.line input ≡ said_in input }
        ensures answers { (input : List ℕ) → all_answered (desk_in result) result.line input ≡ answers waiting (said_in input) }
    {
        Conversation {
            console: Console::new(),
            line: LineBuffer::new(),
            packet: PacketRoom::new(),
        }
    }

    // Takes bytes of the input up to their first newline, or all of them. The newline ends a line, which is answered.
    pub fn feed(&mut self, input: &mut &[u8]) -> Option<Result<Answer, LineFault>>
        ensures answer { result ≡ replied (desk_in self.old) (fed self.old.line input.old.now).said }
        ensures next { desk_in self.new ≡ desk_after (desk_in self.old) (fed self.old.line input.old.now).said }
        ensures line { self.new.line ≡ (fed self.old.line input.old.now).kept }
        ensures left { input.new.now ≡ (fed self.old.line input.old.now).left }
        ensures laws { KeepsOnIf (fed self.old.line input.old.now).said (desk_in self.old) (desk_in self.new) }
        ensures onward { (more : List ℕ) → all_answered (desk_in self.old) self.old.line (input.old.now ++ more)
            ≡ followed result (all_answered (desk_in self.new) self.new.line (input.new.now ++ more)) }
    {
        let said = self.line.feed(input, &mut self.packet)?;
        Some(self.console.hear(said))
    }

    // At the end of the input: a last line without a newline is answered. Nothing is kept of it.
    pub fn end(&mut self) -> Option<Result<Answer, LineFault>>
        ensures answer { result ≡ replied (desk_in self.old) (said_last self.old.line) }
        ensures next { desk_in self.new ≡ desk_after (desk_in self.old) (said_last self.old.line) }
        ensures line { self.new.line ≡ [] }
        ensures laws { KeepsOnIf (said_last self.old.line) (desk_in self.old) (desk_in self.new) }
    {
        let said = self.line.last(&mut self.packet)?;
        Some(self.console.hear(said))
    }
}

// The conversation of a whole input.
pub fn converse(input: &[u8]) -> Conversation
    ensures next { desk_in result ≡ after waiting (said_in input.now) }
    ensures laws { StandsBy (calls_made waiting (said_in input.now)) (desk_in result) }
{
    let mut conversation = Conversation::new();
    let mut left = input;
    while conversation.feed(&mut left).is_some() {}
    let _ = conversation.end();
    conversation
}
