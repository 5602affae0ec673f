// Whole sessions.
ghost use Rattle.std.specs.Prelude.{◌≡◌, map};
ghost use Rattle.std.specs.Option.{option_map};
ghost use Rattle.command.specs.Commands.{meant};
ghost use Rattle.session.specs.Desks.{waiting};
ghost use Rattle.session.specs.Consoles.{desk_of};
ghost use Rattle.session.specs.Sessions.{RefusedChangeNothing, StandsBy, after, calls_made};

use crate::console::Console;
use command::Command;

// The console after a session from the start: lines that say these commands, or none.
pub fn replay(session: &[Option<Command>]) -> Console
    ensures next { desk_of result ≡ after waiting (map (option_map meant) session.now) }
    ensures laws { StandsBy (calls_made waiting (map (option_map meant) session.now)) (desk_of result) }
{
    let mut console = Console::new();
    for said in session {
        let _ = console.hear(*said);
    }
    console
}

// Whatever the console is, a line that it refuses leaves it as it was.
pub fn refused_lines_change_nothing()
    ensures { RefusedChangeNothing }
{}
