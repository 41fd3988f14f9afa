// A frame on its way through bytes: written as an input of what was heard, the channel first, and read back from it.
ghost use Rattle.aired.specs.Aired.{Returned, bytes_of};
ghost use Rattle.channels.specs.Settings.{settings};
ghost use Rattle.channels.specs.declared.fault.Fault.TheVariants.{Memory as FaultMemory};
ghost use Rattle.std.specs.Prelude.{◌≡◌, IfOk, MatchResult};

use crate::back::frame_of;
use crate::recorded::records_of;
use channels::Fault;
use frames::Frame;
use readers::read_heard_input;
use std::alloc::Global;
use writers::heard_input_bytes;

// What was heard in a frame as bytes, and the frame that was read from them.
#[derive(Drop)]
pub struct Aired {
    pub bytes: Vec<u8>,
    pub frame: Frame,
}

// Writes what is heard in a frame with this number, the channel first, and reads it back; `Fault::Memory` where memory fails.
// What is heard when some senders speak comes back as it was.
pub fn through_bytes(heap: Global, frame: &Frame, number: u32) -> Result<Aired, Fault>
    ensures bytes { MatchResult result (λ a. (a.bytes.items ≡ bytes_of (settings frame.now.channel) number frame.now.slots.items) × (settings a.frame.channel ≡ settings frame.now.channel)) (λ e. e ≡ FaultMemory) }
    ensures back { IfOk result (λ a. Returned (settings frame.now.channel) frame.now.slots.items a.frame.slots.items) }
{
    let records = records_of(heap, frame, number)?;
    let bytes = heard_input_bytes(heap, frame.channel(), &records)?;
    let input = read_heard_input(heap, &bytes)?;
    let channel = input.channel.ok_or(Fault::Kind)?;
    let frame = frame_of(heap, channel, number, &input.read.records)?;
    Ok(Aired { bytes, frame })
}
