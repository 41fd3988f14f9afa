// Senders speak in a frame, one after the other.
ghost use Rattle.std.specs.Prelude.{◌≡◌, ◌+◌, ◌*◌, ◌^◌, ◌<◌, [], replicate, Some, None, MatchResult, slice_set};
ghost use Rattle.channels.specs.Settings.{settings};
ghost use Rattle.channels.specs.Plans.{plan_in};
ghost use Rattle.frames.specs.Slots.{Hears, Said, Spoke, joined, refusal, slot_in};
ghost use Rattle.frames.specs.declared.slot.Slot.TheVariants.{Silence as SlotSilence};
ghost use Rattle.channels.specs.declared.fault.Fault.TheVariants.{Memory as FaultMemory};

use super::Frame;
use crate::slot::Slot;
use channels::{Channel, Fault, Plan};
use messages::{is_message, word_at};
use std::alloc::Global;

// Whether a sender can speak on this channel with this message, or why not.
pub fn check_speaker(channel: Channel, number: u32, message: &[u32]) -> Result<(), Fault>
    ensures { MatchResult result (λ _. refusal (settings channel) number message.now ≡ None) (λ e. refusal (settings channel) number message.now ≡ Some e) }
{
    if number >= channel.senders() {
        return Err(Fault::Sender);
    }
    if message.len() == usize::from(channel.numbers()) && is_message(message) {
        Ok(())
    } else {
        Err(Fault::Message)
    }
}

impl Frame {
    // A frame of the channel in which nobody speaks; `Fault::Memory` where there is no memory for its slots.
    pub fn silent(heap: Global, channel: Channel) -> Result<Frame, Fault>
        ensures { MatchResult result (λ f. (f.channel ≡ channel) × Hears (settings channel) [] f.slots.items × (f.slots.items ≡ replicate (channel.q * channel.q) SlotSilence)) (λ e. e ≡ FaultMemory) }
    {
        // By `as`: from u32 to usize the library has no conversion that always succeeds.
        let slots = vec![in heap; Slot::Silence; channel.slots() as usize]?;
        Ok(Frame { channel, slots })
    }

    // One sender more speaks in slot y of a part.
    fn say_in(&mut self, part: u8, y: u8, sender: u32, word: u32)
        requires part { part < self.old.channel.q }
        requires slot { y < self.old.channel.q }
        requires sender { sender < self.old.channel.q ^ self.old.channel.d }
        ensures same { self.new.channel ≡ self.old.channel }
        ensures joined { self.new.slots.items ≡ slice_set self.old.slots.items (part * self.old.channel.q + y) (joined sender word (slot_in self.old.channel.q self.old.slots.items part y)) }
    {
        let place = self.place(part, y);
        self.slots[place] = self.slots[place].with(sender, word);
    }

    // One sender more speaks its message by its plan, in all parts.
    fn say(&mut self, plan: Plan, sender: u32, message: &[u32])
        requires side { plan.q ≡ self.old.channel.q }
        requires sender { sender < self.old.channel.q ^ self.old.channel.d }
        ensures same { self.new.channel ≡ self.old.channel }
        ensures said { Said self.old.channel.q (plan_in plan) sender message.now self.old.channel.q self.old.slots.items self.new.slots.items }
    {
        // Each part below q has a slot, and there is no other part here.
        for part in 0..self.channel.parts() {
            let Some(y) = plan.slot(part) else {
                return;
            };
            self.say_in(part, y, sender, word_at(message, usize::from(part)));
        }
    }

    // One sender more speaks its message in the frame, in all parts; refused, the frame stays as it was.
    pub fn speak(&mut self, number: u32, message: &[u32]) -> Result<(), Fault>
        ensures same { self.new.channel ≡ self.old.channel }
        ensures cases { MatchResult result (λ _. Spoke (settings self.old.channel) number message.now self.old.slots.items self.new.slots.items) (λ e. (refusal (settings self.old.channel) number message.now ≡ Some e) × (self.new.slots.items ≡ self.old.slots.items)) }
    {
        check_speaker(self.channel, number, message)?;
        let plan = Plan::of(self.channel, number)?;
        self.say(plan, number, message);
        Ok(())
    }
}
