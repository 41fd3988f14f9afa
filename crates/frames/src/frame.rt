// What is heard in a whole frame, slot by slot: the slots of part 0, then those of part 1, and so on.
ghost use Rattle.std.specs.Prelude.{◌≡◌, ◌+◌, ◌*◌, ◌^◌, ◌<◌, ◌≤◌, true, vec_len, MatchOption};
ghost use Rattle.frames.specs.Slots.{slot_in, there_in};

use crate::slot::Slot;
use channels::Channel;

mod hear;
mod put;
mod speak;
mod words;

#[derive(Drop)]
pub struct Frame {
    channel: Channel,
    slots: Vec<Slot>,
    // q × q slots, and no word of a sender that isn't there.
    ghost whole: { vec_len slots ≡ channel.q * channel.q },
    ghost there: { there_in (channel.q ^ channel.d) slots.items ≡ true },
}

impl Frame {
    // The channel that the frame is of.
    pub fn channel(&self) -> Channel
        ensures { result ≡ self.now.channel }
    {
        self.channel
    }

    // What is heard in every slot: those of part 0 first, then those of part 1, and so on.
    pub fn slots(&self) -> &[Slot]
        ensures { result.now ≡ self.now.slots.items }
    {
        &self.slots
    }

    // What is heard in a slot of a part; none for a part or slot that isn't there.
    pub fn slot(&self, part: u8, y: u8) -> Option<Slot>
        ensures { MatchOption result (part < self.now.channel.q → self.now.channel.q ≤ y) (λ s. (part < self.now.channel.q) × (y < self.now.channel.q) × (s ≡ slot_in self.now.channel.q self.now.slots.items part y)) }
    {
        let q = self.channel.parts();
        if part >= q || y >= q {
            return None;
        }
        Some(self.at(part, y))
    }

    // The place of slot y of a part among all slots. Who asks shows that both are there: a struct of the two would have to carry the frame's q as well.
    fn place(&self, part: u8, y: u8) -> usize
        requires part { part < self.now.channel.q }
        requires slot { y < self.now.channel.q }
        ensures is { result ≡ part * self.now.channel.q + y }
        ensures there { result < vec_len self.now.slots }
    {
        usize::from(part) * usize::from(self.channel.parts()) + usize::from(y)
    }

    // What is heard in slot y of a part.
    fn at(&self, part: u8, y: u8) -> Slot
        requires part { part < self.now.channel.q }
        requires slot { y < self.now.channel.q }
        ensures { result ≡ slot_in self.now.channel.q self.now.slots.items part y }
    {
        self.slots[self.place(part, y)]
    }
}
