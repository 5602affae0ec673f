// Which kinds of worlds the runs have had.
use crate::worlds::World;
use std::fmt;

#[derive(Clone, Copy, Default)]
pub struct Kinds {
    full: u64,
    wired: u64,
    one_card: u64,
    ranges: u64,
    patterns: u64,
    empty: u64,
    one_layer: u64,
    two_layers: u64,
}

pub(crate) fn add(count: &mut u64, by: u64) {
    *count = count.saturating_add(by);
}

impl Kinds {
    // The kinds of one world.
    pub(crate) fn of(world: &World) -> Kinds {
        let layers = world.licences.layers.len();
        Kinds {
            full: u64::from(world.levels.is_some()),
            wired: u64::from(world.levels.is_none()),
            one_card: u64::from(world.table.len() == 2),
            ranges: u64::from(!world.patterns),
            patterns: u64::from(world.patterns),
            empty: u64::from(world.licences.rules.is_empty()),
            one_layer: u64::from(layers == 1),
            two_layers: u64::from(layers == 2),
        }
    }

    pub(crate) fn join(&mut self, other: Kinds) {
        add(&mut self.full, other.full);
        add(&mut self.wired, other.wired);
        add(&mut self.one_card, other.one_card);
        add(&mut self.ranges, other.ranges);
        add(&mut self.patterns, other.patterns);
        add(&mut self.empty, other.empty);
        add(&mut self.one_layer, other.one_layer);
        add(&mut self.two_layers, other.two_layers);
    }
}

impl fmt::Display for Kinds {
    fn fmt<W: fmt::Write>(&self, f: &mut fmt::Formatter<W>) -> fmt::Result {
        writeln!(
            f,
            "wirings: full trees {}, tables {}, of one card among them {}",
            self.full, self.wired, self.one_card
        )?;
        writeln!(
            f,
            "books: range rules {}, pattern rules {}, empty ones among them {}",
            self.ranges, self.patterns, self.empty
        )?;
        write!(
            f,
            "withdrawal layers: one {}, two {}",
            self.one_layer, self.two_layers
        )
    }
}
