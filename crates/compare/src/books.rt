// The laws' books of one run, on the simulator's side: path hops and fires, and what each card should and does receive.
use crate::sim::{Journey, Simulator, words};
use std::alloc::{AllocError, Global};

#[derive(Drop)]
pub struct Books {
    heap: Global,
    path_hops: u64,
    fires: u64,
    // Of each card, the arrivals that the granted sends call for, and the words that were taken.
    due: Vec<Vec<Vec<u32>>>,
    taken: Vec<Vec<u32>>,
}

impl Books {
    pub(crate) fn new(heap: Global, cards: u16) -> Result<Books, AllocError> {
        let mut due = Vec::new(heap);
        let mut taken = Vec::new(heap);
        for _ in 0..cards {
            due.push(Vec::new(heap))?;
            taken.push(Vec::new(heap))?;
        }
        Ok(Books {
            heap,
            path_hops: 0,
            fires: 0,
            due,
            taken,
        })
    }

    // A granted send: its path hops, and its arrival at each card that it reaches and that keeps it.
    pub(crate) fn sent(
        &mut self,
        model: &Simulator,
        journey: Journey,
        packet: &[u32],
    ) -> Result<(), AllocError> {
        let [head, key_word, ..] = packet else {
            return Ok(());
        };
        let flood = words::floods(*head);
        let reached = if flood {
            model.family.size(journey.terminus)
        } else {
            1
        };
        let stations = journey
            .ups
            .saturating_add(1)
            .saturating_add(journey.descents)
            .saturating_add(reached);
        let hops = stations.saturating_mul(packet.len() as u64);
        self.path_hops = self.path_hops.saturating_add(hops);
        for card in 0..model.family.cards() {
            let reaches = card == journey.terminus
                || (flood && model.family.stands_over(journey.terminus, card));
            if reaches {
                let class = if flood {
                    model.licences.class(card, words::key(*key_word))
                } else {
                    Some(0)
                };
                if let Some(class) = class {
                    self.expect(card, packet, class)?;
                }
            }
        }
        Ok(())
    }

    // The packet arrives as its words after the head, with the class in the key word.
    fn expect(&mut self, card: u16, packet: &[u32], class: u8) -> Result<(), AllocError> {
        let mut arrival = Vec::new(self.heap);
        for (place, word) in packet.iter().enumerate() {
            if place == 1 {
                arrival.push(words::with_class(*word, class))?;
            } else if place > 1 {
                arrival.push(*word)?;
            }
        }
        if let Some(due) = self.due.get_mut(usize::from(card)) {
            due.push(arrival)?;
        }
        Ok(())
    }

    pub(crate) fn fired(&mut self) {
        self.fires = self.fires.saturating_add(1);
    }

    pub(crate) fn took(&mut self, card: u16, word: u32) -> Result<(), AllocError> {
        if let Some(taken) = self.taken.get_mut(usize::from(card)) {
            taken.push(word)?;
        }
        Ok(())
    }

    // Are these hops owed, with the fires, the path hops?
    pub(crate) fn balance(&self, owed: u64) -> bool {
        owed.saturating_add(self.fires) == self.path_hops
    }

    // At quiet: are each card's words its due arrivals, whole, each list as often as it is due?
    pub(crate) fn settle(&mut self) -> Result<bool, AllocError> {
        let heap = self.heap;
        for (due, taken) in self.due.iter_mut().zip(self.taken.iter()) {
            let Some(mut arrived) = arrivals(heap, taken.as_slice())? else {
                return Ok(false);
            };
            due.sort()?;
            arrived.sort()?;
            if *due != arrived {
                return Ok(false);
            }
        }
        Ok(true)
    }
}

// A card's words cut behind each tail, or none where words are left behind the last.
fn arrivals(heap: Global, taken: &[u32]) -> Result<Option<Vec<Vec<u32>>>, AllocError> {
    let mut whole = Vec::new(heap);
    let mut arrival = Vec::new(heap);
    for word in taken {
        arrival.push(*word)?;
        if words::is_tail(*word) {
            whole.push(arrival)?;
            arrival = Vec::new(heap);
        }
    }
    if arrival.is_empty() {
        Ok(Some(whole))
    } else {
        Ok(None)
    }
}
