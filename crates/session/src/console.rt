// The console: it waits for a tree, then takes the rules, then the tree runs.
ghost use Rattle.std.specs.Prelude.{◌≡◌, Some};
ghost use Rattle.std.specs.Option.{option_map};
ghost use Rattle.command.specs.Commands.{meant};
ghost use Rattle.command.specs.Commands.Command.{Tree as TreeOf, Go};
ghost use Rattle.session.specs.Desks.{waiting, obeyed, heard};
ghost use Rattle.session.specs.Consoles.{desk_of};
ghost use Rattle.session.specs.Sessions.{KeepsOn};

use crate::answer::Answer;
use crate::calling::call;
use crate::fault::LineFault;
use crate::ruling::add_rule;
use command::Command;
use router::Tree;
use rulebook::Rulebook;
use std::mem;
use wiring::FullTree;

// What the console is.
#[derive(Drop)]
pub enum Console {
    // It waits for a tree.
    Waiting,
    // It has a tree, and takes its rules.
    Ruling { wiring: FullTree, rules: Rulebook },
    // The tree runs, in place: no call moves it.
    Running(Tree<FullTree, Rulebook>),
}

impl Console {
    // A console that waits for a tree.
    pub fn new() -> Console
        ensures { desk_of result ≡ waiting }
    {
        Console::Waiting
    }

    // `tree`: the rules come next. This and `go` are not inlined: the room for a console would be cleared at every command.
    #[inline(never)]
    fn begin(&mut self, levels: u16) -> Result<Answer, LineFault>
        requires { desk_of self.old ≡ waiting }
        ensures answer { result ≡ (obeyed waiting (TreeOf levels)).answer }
        ensures next { desk_of self.new ≡ (obeyed waiting (TreeOf levels)).next }
    {
        *self = Console::Ruling {
            wiring: FullTree::new(levels)?,
            rules: Rulebook::new(),
        };
        Ok(Answer::Done)
    }

    // `go`: the tree is set up over the book of the rules.
    #[inline(never)]
    fn go(&mut self) -> Result<Answer, LineFault>
        ensures answer { result ≡ (obeyed (desk_of self.old) Go).answer }
        ensures next { desk_of self.new ≡ (obeyed (desk_of self.old) Go).next }
        ensures laws { KeepsOn (Some Go) (desk_of self.old) (desk_of self.new) }
    {
        match self {
            Console::Ruling { wiring, rules } => {
                let rules = mem::replace(rules, Rulebook::new());
                *self = Console::Running(Tree::new(*wiring, rules));
                Ok(Answer::Done)
            }
            Console::Waiting => Err(LineFault::NotUnderstood),
            Console::Running(_) => Err(LineFault::NotUnderstood),
        }
    }

    // Carries out a command, or refuses it and changes nothing. This and `hear` are inlined, so that the command and its answer stay in registers.
    #[inline(always)]
    pub fn obey(&mut self, command: Command) -> Result<Answer, LineFault>
        ensures answer { result ≡ (obeyed (desk_of self.old) (meant command.entry)).answer }
        ensures next { desk_of self.new ≡ (obeyed (desk_of self.old) (meant command.entry)).next }
        ensures laws { KeepsOn (Some (meant command.entry)) (desk_of self.old) (desk_of self.new) }
    {
        match self {
            Console::Waiting => match command {
                Command::Tree { levels } => self.begin(levels),
                _ => Err(LineFault::NotUnderstood),
            },
            Console::Ruling { rules, .. } => match command {
                Command::Rule { cards, keys, class } => {
                    add_rule(rules, cards, keys, class)?;
                    Ok(Answer::Done)
                }
                Command::Go => self.go(),
                _ => Err(LineFault::NotUnderstood),
            },
            Console::Running(tree) => call(tree, command),
        }
    }

    // Answers a line, by the command that it says. A line that says none is not understood.
    #[inline(always)]
    pub fn hear(&mut self, said: Option<Command>) -> Result<Answer, LineFault>
        ensures answer { result ≡ (heard (desk_of self.old) (option_map meant said.entry)).answer }
        ensures next { desk_of self.new ≡ (heard (desk_of self.old) (option_map meant said.entry)).next }
        ensures laws { KeepsOn (option_map meant said.entry) (desk_of self.old) (desk_of self.new) }
    {
        match said {
            Some(command) => self.obey(command),
            None => Err(LineFault::NotUnderstood),
        }
    }
}
