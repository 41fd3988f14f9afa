// The records of a frame: one for each slot that isn't silent, in the order of parts and slots.
ghost use Rattle.std.specs.Prelude.{◌≡◌, ◌^◌, true, MatchResult};
ghost use Rattle.aired.specs.Aired.{record_with, records_of, what_if};
ghost use Rattle.channels.specs.Settings.{settings};
ghost use Rattle.channels.specs.declared.fault.Fault.TheVariants.{Memory as FaultMemory};
ghost use Rattle.frames.specs.Slots.{is_there};
ghost use Rattle.std.specs.Option.{option_to_list};

use channels::{Channel, Fault};
use frames::{Frame, Slot};
use records::{Heard, What};
use std::alloc::Global;
use words::AirWord;

// What is heard in a slot of a part that isn't silent: a word as it is on the air, or noise.
fn what_of(channel: Channel, frame: u32, part: u8, slot: Slot) -> Option<What>
    requires { is_there (channel.q ^ channel.d) slot ≡ true }
    ensures { result ≡ what_if frame part slot }
{
    match slot {
        Slot::Silence => None,
        Slot::One { sender, word } => {
            let said = AirWord::new(channel, sender, frame, word).ok()?;
            Some(What::Word(said.to_bytes(part)))
        }
        Slot::Noise => Some(What::Noise),
    }
}

// The record of slot y of a part, unless it is silent.
fn record_of(channel: Channel, frame: u32, part: u8, y: u8, slot: Slot) -> Option<Heard>
    requires { is_there (channel.q ^ channel.d) slot ≡ true }
    ensures { option_to_list result ≡ record_with frame part y (what_if frame part slot) }
{
    let what = what_of(channel, frame, part, slot)?;
    Some(Heard {
        frame,
        part,
        slot: y,
        what,
    })
}

// The records of what is heard in a frame with this number; `Fault::Memory` where there is no memory for them.
pub fn records_of(heap: Global, frame: &Frame, number: u32) -> Result<Vec<Heard>, Fault>
    ensures { MatchResult result (λ v. v.items ≡ records_of (settings frame.now.channel) number frame.now.slots.items) (λ e. e ≡ FaultMemory) }
{
    let channel = frame.channel();
    let mut records = Vec::new(heap);
    for part in 0..channel.parts() {
        for y in 0..channel.parts() {
            if let Some(slot) = frame.slot(part, y) {
                records.extend(record_of(channel, number, part, y, slot))?;
            }
        }
    }
    Ok(records)
}
