// The policy: a list of rules, of which the first that covers decides, under layers of withdrawn keys.

// The cards and keys that a rule covers.
#[derive(Clone, Copy)]
pub enum Scope {
    // Cards and keys from low to high, both ends counted.
    Range { cards: (u16, u16), keys: (u8, u8) },
    // Bit c of the set for card c, and the keys whose cared-for bits equal the value.
    Pattern { set: u32, value: u8, care: u8 },
}

// A rule: what it covers, and the class that it gives, or none where it refuses.
#[derive(Clone, Copy)]
pub struct Rule {
    pub scope: Scope,
    pub class: Option<u8>,
}

// The rules, and the withdrawn keys of each layer.
#[derive(Drop)]
pub struct Licences {
    pub rules: Vec<Rule>,
    pub layers: Vec<Vec<u8>>,
}

impl Scope {
    fn covers(&self, card: u16, key: u8) -> bool {
        match *self {
            Scope::Range {
                cards: (first, last),
                keys: (low, high),
            } => first <= card && card <= last && low <= key && key <= high,
            Scope::Pattern { set, value, care } => {
                card < 31 && (set >> card) & 1 == 1 && key & care == value
            }
        }
    }
}

impl Licences {
    // The class with which a card keeps a flood of this key, or none where it drops it.
    pub(crate) fn class(&self, card: u16, key: u8) -> Option<u8> {
        for layer in &self.layers {
            if layer.contains(&key) {
                return None;
            }
        }
        for rule in &self.rules {
            if rule.scope.covers(card, key) {
                return rule.class;
            }
        }
        None
    }
}
