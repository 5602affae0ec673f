// The calls on a tree that runs.
ghost use Rattle.std.specs.Prelude.{◌≡◌, Some};
ghost use Rattle.command.specs.Commands.{meant};
ghost use Rattle.command.specs.Commands.Command.{Fire};
ghost use Rattle.session.specs.Desks.{running, called};
ghost use Rattle.session.specs.Consoles.{tree_in};
ghost use Rattle.session.specs.Sessions.{KeepsOn};

use crate::answer::Answer;
use crate::fault::LineFault;
use command::Command;
use router::Tree;
use rulebook::Rulebook;
use station::{Input, Station};
use wiring::FullTree;

// A fire, and the outputs that it wrote.
fn fire(
    tree: &mut Tree<FullTree, Rulebook>,
    card: u16,
    station: Station,
    input: Input,
) -> Result<Answer, LineFault>
    ensures answer { result ≡ (called (tree_in tree.old) (Fire card station input)).answer }
    ensures next { tree_in tree.new ≡ (called (tree_in tree.old) (Fire card station input)).next }
    ensures laws { KeepsOn (Some (Fire card station input)) (running (tree_in tree.old)) (running (tree_in tree.new)) }
{
    let outputs = tree.fire(card, station, input)?;
    Ok(Answer::Number(u32::from(outputs)))
}

// Makes the call that a command asks for. The other commands are for the parts before. It is inlined with `Console::obey`.
#[inline(always)]
pub(crate) fn call(
    tree: &mut Tree<FullTree, Rulebook>,
    command: Command,
) -> Result<Answer, LineFault>
    ensures answer { result ≡ (called (tree_in tree.old) (meant command.entry)).answer }
    ensures next { tree_in tree.new ≡ (called (tree_in tree.old) (meant command.entry)).next }
    ensures laws { KeepsOn (Some (meant command.entry)) (running (tree_in tree.old)) (running (tree_in tree.new)) }
{
    match command {
        Command::Send { card, packet } => {
            tree.send(card, packet)?;
            Ok(Answer::Done)
        }
        Command::Fire {
            card,
            station,
            input,
        } => fire(tree, card, station, input),
        Command::Take { card } => Ok(Answer::Word(tree.take(card)?)),
        Command::Owed => Ok(Answer::Number(tree.owed())),
        Command::Tree { .. } | Command::Rule { .. } | Command::Go => Err(LineFault::NotUnderstood),
    }
}
