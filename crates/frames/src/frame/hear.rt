// All the speakers of a frame at once.
ghost use Rattle.channels.specs.Settings.{settings};
ghost use Rattle.channels.specs.declared.fault.Fault.TheVariants.{Memory as FaultMemory};
ghost use Rattle.frames.specs.Slots.{Hears};
ghost use Rattle.frames.specs.Speakers.{refusal_in, speakers_in};
ghost use Rattle.std.specs.Prelude.{◌≡◌, ◌⊎◌, [], Some, None, MatchResult};

use super::Frame;
use super::speak::check_speaker;
use crate::speaker::Speaker;
use channels::{Channel, Fault};
use std::alloc::Global;

// Whether all the speakers can speak on this channel, or why the first of them that cannot is refused.
fn check_speakers(channel: Channel, speakers: &[Speaker]) -> Result<(), Fault>
    ensures { MatchResult result (λ _. refusal_in (settings channel) speakers.now ≡ None) (λ e. refusal_in (settings channel) speakers.now ≡ Some e) }
{
    for speaker in speakers {
        check_speaker(channel, speaker.number, &speaker.message)?;
    }
    Ok(())
}

impl Frame {
    // These speakers, none of whom is refused, speak in a silent frame; the last of them first, as the statement has it.
    fn speak_all(&mut self, speakers: &[Speaker]) -> Result<(), Fault>
        requires silent { Hears (settings self.old.channel) [] self.old.slots.items }
        requires can { refusal_in (settings self.old.channel) speakers.now ≡ None }
        ensures same { self.new.channel ≡ self.old.channel }
        ensures heard { MatchResult result (λ _. Hears (settings self.old.channel) (speakers_in (settings self.old.channel) speakers.now) self.new.slots.items) (λ _. ⊥) }
    {
        for speaker in speakers.iter().rev() {
            self.speak(speaker.number, &speaker.message)?;
        }
        Ok(())
    }

    // What is heard when these and nobody else speak; the fault of the first that cannot, or `Fault::Memory`.
    pub fn hear(heap: Global, channel: Channel, speakers: &[Speaker]) -> Result<Frame, Fault>
        ensures { MatchResult result (λ f. (f.channel ≡ channel) × (refusal_in (settings channel) speakers.now ≡ None) × Hears (settings channel) (speakers_in (settings channel) speakers.now) f.slots.items) (λ e. (e ≡ FaultMemory) ⊎ (refusal_in (settings channel) speakers.now ≡ Some e)) }
    {
        check_speakers(channel, speakers)?;
        let mut frame = Frame::silent(heap, channel)?;
        frame.speak_all(speakers)?;
        Ok(frame)
    }
}
