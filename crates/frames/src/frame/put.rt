// One slot of a frame, put there as it was heard.
ghost use Rattle.std.specs.Prelude.{◌≡◌, ◌+◌, ◌*◌, Some, None, MatchResult, slice_set};
ghost use Rattle.channels.specs.Settings.{settings};
ghost use Rattle.frames.specs.Slots.{misplaced};

use super::Frame;
use crate::slot::Slot;
use channels::Fault;

impl Frame {
    // Puts what was heard into slot y of a part. `Fault::Order` for a part or slot that isn't there, `Fault::Sender` for the word
    // of a sender that isn't there, and then the frame stays as it was.
    pub fn put(&mut self, part: u8, y: u8, slot: Slot) -> Result<(), Fault>
        ensures same { self.new.channel ≡ self.old.channel }
        ensures cases { MatchResult result (λ _. (misplaced (settings self.old.channel) part y slot ≡ None) × (self.new.slots.items ≡ slice_set self.old.slots.items (part * self.old.channel.q + y) slot)) (λ e. (misplaced (settings self.old.channel) part y slot ≡ Some e) × (self.new.slots.items ≡ self.old.slots.items)) }
    {
        let q = self.channel.parts();
        if part >= q || y >= q {
            return Err(Fault::Order);
        }
        if !slot.is_below(self.channel.senders()) {
            return Err(Fault::Sender);
        }
        let place = self.place(part, y);
        self.slots[place] = slot;
        Ok(())
    }
}
