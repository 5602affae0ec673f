// Each call's answer and its next tree. That wiring and policy stay (SameParts) is what a call promises, so each step hands it on.
ghost use Rattle.std.specs.Prelude.{◌≡◌, ◌+◌, ◌≤◌, length, IfOk};
ghost use Rattle.packet.specs.Packets.{check_packet};
ghost use Rattle.network.specs.Cards.{card_at};
ghost use Rattle.network.specs.Sends.{way_for, room_by, send_way, send_step};
ghost use Rattle.network.specs.Fires.{fire_step};
ghost use Rattle.network.specs.Takes.{take_step};
ghost use Rattle.router.specs.Inner.{lowered, raised};
ghost use Rattle.router.specs.Kept.{SameParts};

use crate::tree::Tree;
use crate::way::Way;
use licence::Policy;
use packet::check;
use refusal::{FireFault, PacketFault, TakeFault};
use routing::walk_route;
use station::{Input, Station};
use wiring::{CardId, Wiring};

impl<W: Wiring, P: Policy> Tree<W, P> {
    // The way of a packet that may be queued, or why it may not: the packet, its route, and room in the queue, in this order.
    fn way(&self, card: CardId, packet: &[u32]) -> Result<Way, PacketFault>
        ensures way { result ≡ room_by (length (card_at self.now.table card).queue + length packet.now) (way_for (W.shape self.now.wiring) card (check_packet packet.now)) }
        ensures room { IfOk result (λ _. length (card_at self.now.table card).queue + length packet.now ≤ 64) }
    {
        let head = check(packet)?;
        let walk = walk_route(&self.wiring, card.number(), head.route)?;
        if self.table.queued(card) + packet.len() > 64 {
            return Err(PacketFault::QueueFull);
        }
        Ok(Way {
            mode: head.mode,
            walk,
        })
    }

    // A send: the whole packet is queued, or nothing is.
    pub(crate) fn send_step(&mut self, card: u16, packet: &[u32]) -> Result<(), PacketFault>
        ensures answer { result ≡ (send_step (W.shape self.old.wiring) self.old.table card packet.now).answer }
        ensures next { self.new.table ≡ (send_step (W.shape self.old.wiring) self.old.table card packet.now).next }
        ensures same { SameParts self.old self.new }
        ensures owed { self.new.owed ≡ raised (W.shape self.old.wiring) self.old.owed (length packet.now) (send_way (W.shape self.old.wiring) (length (card_at self.old.table card).queue) card packet.now) }
    {
        let card = self.wiring.card(card).ok_or(PacketFault::NoSender)?;
        let way = self.way(card, packet)?;
        let hops = self
            .wiring
            .path_hops(way.mode, &way.walk, packet.len() as u16);
        self.table.queue_all(card, packet);
        let owed = u64::from(self.owed).saturating_add(hops);
        self.owed = u32::try_from(owed).unwrap_or(u32::MAX);
        Ok(())
    }

    // A fire: one word through one station. Where the compiler knows the station, it leaves out what the other needs.
    #[inline(always)]
    pub(crate) fn fire_step(
        &mut self,
        card: u16,
        station: Station,
        input: Input,
    ) -> Result<u8, FireFault>
        ensures answer { result ≡ (fire_step (W.shape self.old.wiring) (P.verdict self.old.policy) self.old.table card station input).answer }
        ensures next { self.new.table ≡ (fire_step (W.shape self.old.wiring) (P.verdict self.old.policy) self.old.table card station input).next }
        ensures same { SameParts self.old self.new }
        ensures owed { self.new.owed ≡ lowered self.old.owed result }
    {
        let card = self.wiring.card(card).ok_or(FireFault::NoCard)?;
        let from = self.locate(card, station, input)?;
        let word = self.table.word_at(&from)?;
        self.move_word(card, station, input, from, word)
    }

    // A take: the oldest word of an inbox.
    pub(crate) fn take_step(&mut self, card: u16) -> Result<u32, TakeFault>
        ensures answer { result ≡ (take_step (W.shape self.old.wiring) self.old.table card).answer }
        ensures next { self.new.table ≡ (take_step (W.shape self.old.wiring) self.old.table card).next }
        ensures same { SameParts self.old self.new }
        ensures owed { self.new.owed ≡ self.old.owed }
    {
        let card = self.wiring.card(card).ok_or(TakeFault::NoReader)?;
        self.table.take(card).ok_or(TakeFault::InboxEmpty)
    }
}
