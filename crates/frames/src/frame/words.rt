// What is heard of one sender: its words, each with its part, and the message that they come to.
ghost use Rattle.std.specs.Prelude.{◌≡◌, ◌^◌, ◌<◌, ◌≤◌, ◌⊎◌, IfOk, MatchResult};
ghost use Rattle.channels.specs.Plans.{Planned};
ghost use Rattle.channels.specs.Settings.{settings};
ghost use Rattle.channels.specs.declared.fault.Fault.TheVariants.{Memory as FaultMemory, Sender as FaultSender};
ghost use Rattle.frames.specs.Slots.{slot_in, slot_of};
ghost use Rattle.frames.specs.Heard.{Answered, Delivered, words_from};
ghost use Rattle.polynomials.specs.Heard.{words_in};
ghost use Rattle.speakall.specs.Frame.{word_if};
ghost use Rattle.speakall.specs.Plan.{plan_of, slot_at};
ghost use Rattle.std.specs.Option.{option_to_list};

use super::Frame;
use channels::{Fault, Plan};
use messages::{PartWord, Reading};
use std::alloc::Global;

impl Frame {
    // The word of a sender in a part, if it is alone in its slot there.
    fn word_in(&self, plan: Plan, number: u32, part: u8) -> Option<PartWord>
        requires planned { Planned plan (settings self.now.channel) number }
        requires part { part < self.now.channel.q }
        ensures { words_in (option_to_list result) ≡ word_if (plan_of (settings self.now.channel) number) part (slot_of (settings self.now.channel) (slot_in self.now.channel.q self.now.slots.items part (slot_at self.now.channel.q (plan_of (settings self.now.channel) number) part))) }
    {
        let y = plan.slot(part)?;
        self.at(part, y).word_of(number, part)
    }

    // The words heard of a sender, in the order of the parts; `Fault::Sender` for one that isn't there, or `Fault::Memory`.
    pub fn words(&self, heap: Global, number: u32) -> Result<Vec<PartWord>, Fault>
        ensures { MatchResult result (λ ws. words_in ws.items ≡ words_from (settings self.now.channel) self.now.slots.items (plan_of (settings self.now.channel) number) 0 self.now.channel.q) (λ e. (e ≡ FaultMemory) ⊎ ((e ≡ FaultSender) × (self.now.channel.q ^ self.now.channel.d ≤ number))) }
    {
        let plan = Plan::of(self.channel, number)?;
        // A loop: a chain's closure would not know that the part is below q, which `word_in` asks.
        let mut words = Vec::new(heap);
        for part in 0..self.channel.parts() {
            words.extend(self.word_in(plan, number, part))?;
        }
        Ok(words)
    }

    // What is made of the words heard of a sender: the message goes to the lent memory, which has as many places as it has numbers.
    // `Fault::Sender` for a sender that isn't there, or `Fault::Memory`, and then the lent memory stays as it was.
    // Whoever speaks, of at most k + 1 speakers each one's message is read, resting on s words or more, none of them off.
    pub fn read(&self, heap: Global, number: u32, message: &mut [u32]) -> Result<Reading, Fault>
        ensures made { MatchResult result (λ a. Answered (settings self.now.channel) (words_from (settings self.now.channel) self.now.slots.items (plan_of (settings self.now.channel) number) 0 self.now.channel.q) a message.old message.new) (λ e. ((e ≡ FaultMemory) ⊎ ((e ≡ FaultSender) × (self.now.channel.q ^ self.now.channel.d ≤ number))) × (message.new ≡ message.old)) }
        ensures delivered { IfOk result (λ a. Delivered (settings self.now.channel) self.now.slots.items (plan_of (settings self.now.channel) number) a message.new) }
    {
        let words = self.words(heap, number)?;
        Ok(messages::read(self.channel, &words, message))
    }
}
