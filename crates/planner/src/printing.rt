// A plan as a person reads it.
ghost use Rattle.std.specs.Prelude.{Some, replicate};
ghost use Rattle.std.specs.Fmt.{DisplaysOnOk};
ghost use Rattle.std.specs.List.{flat_map};
ghost use Rattle.packet.specs.Courses.{sides_in};
ghost use Rattle.packet.specs.Routes.{side_letter};
ghost use Rattle.planner.specs.Texts.{route_letters, head_text, walk_text, plan_text};

use crate::plans::Plan;
use packet::{Head, Route, Sides};
use routing::Walk;
use std::fmt;

// The letters of a route: U for each link up, D for the turn, L or R for each descent, S for the stop.
#[derive(Drop)]
struct Letters(Route);

impl fmt::Display for Letters {
    ghost output = { λ letters. Some (route_letters letters.0.bits) };

    fn fmt<W: fmt::Write>(&self, f: &mut fmt::Formatter<W>) -> fmt::Result {
        let Some(course) = self.0.course() else {
            return Ok(());
        };
        write_ups(course.ups, f)?;
        f.write_str("D")?;
        write_sides(course.sides, f)?;
        f.write_str("S")
    }
}

// A U for each link up.
fn write_ups<W: fmt::Write>(ups: u16, f: &mut fmt::Formatter<W>) -> fmt::Result
    ensures { DisplaysOnOk W.write_str_gives f.old result (Some (replicate ups 85)) f.new }
{
    for _up in 0..ups {
        f.write_str("U")?;
    }
    Ok(())
}

// The letter of each descent.
fn write_sides<W: fmt::Write>(sides: Sides, f: &mut fmt::Formatter<W>) -> fmt::Result
    ensures { DisplaysOnOk W.write_str_gives f.old result (Some (flat_map side_letter (sides_in sides))) f.new }
{
    for side in sides {
        write!(f, "{side}")?;
    }
    Ok(())
}

// A head, and the letters of its route.
#[tactic(auto, using(crate::proofs::Padded::eight_digits))]
fn write_head<W: fmt::Write>(head: &Head, f: &mut fmt::Formatter<W>) -> fmt::Result
    ensures { DisplaysOnOk W.write_str_gives f.old result (Some (head_text head.now)) f.new }
{
    write!(
        f,
        "head {:08x}, route {}",
        u32::from(*head),
        Letters(head.route)
    )
}

// How far a walk climbs and descends, and where to.
fn write_walk<W: fmt::Write>(walk: &Walk, f: &mut fmt::Formatter<W>) -> fmt::Result
    ensures { DisplaysOnOk W.write_str_gives f.old result (Some (walk_text walk.now)) f.new }
{
    write!(
        f,
        "{} up to card {}, {} down to card {}",
        walk.ups, walk.turn, walk.descents, walk.terminus
    )
}

impl fmt::Display for Plan {
    ghost output = { λ plan. Some (plan_text plan) };

    fn fmt<W: fmt::Write>(&self, f: &mut fmt::Formatter<W>) -> fmt::Result {
        write_head(&self.head, f)?;
        f.write_str(", ")?;
        write_walk(&self.walk, f)?;
        write!(
            f,
            ", {}, cards reached {}, hops a word {}",
            self.head.mode, self.reached, self.hops
        )
    }
}
