// The speakers that the senders' words give, and their numbers.
ghost use Rattle.channels.specs.Settings.{settings};
ghost use Rattle.command_words.specs.Each.{Each};
ghost use Rattle.ice_speakers.specs.Speakers.{Says, number_in};
ghost use Rattle.ice_speakers.specs.Wide.{message_of, narrow};
ghost use Rattle.speakall.specs.Plan.{size};
ghost use Rattle.std.specs.Prelude.{◌≡◌, map, IfOk};

use crate::wide::narrowed;
use channels::Channel;
use frames::Speaker;
use sender_words::Spoken;
use std::alloc::{AllocError, Global};

fn all_narrowed(heap: Global, numbers: &[u64]) -> Result<Vec<u32>, AllocError>
    ensures { IfOk result (λ v. v.items ≡ map narrow numbers.now) }
{
    numbers.iter().map(|n| narrowed(*n)).collect(heap)
}

// The message that a sender says: the one given, or s zeros.
fn message_of(heap: Global, channel: Channel, spoken: &Spoken) -> Result<Vec<u32>, AllocError>
    ensures { IfOk result (λ v. v.items ≡ message_of (size (settings channel)) spoken.now.message) }
{
    match &spoken.message {
        Some(numbers) => all_narrowed(heap, numbers),
        None => vec![in heap; 0; usize::from(channel.numbers())],
    }
}

// The speakers, in the order of the words.
pub fn speakers_of(
    heap: Global,
    channel: Channel,
    all: &[Spoken],
) -> Result<Vec<Speaker>, AllocError>
    ensures { IfOk result (λ v. Each (Says (size (settings channel))) all.now v.items) }
{
    let mut speakers = Vec::new(heap);
    for spoken in all {
        let number = narrowed(spoken.number);
        let message = message_of(heap, channel, spoken)?;
        speakers.push(Speaker { number, message })?;
    }
    Ok(speakers)
}

// The speakers' numbers, in their order.
pub fn numbers_of(heap: Global, speakers: &[Speaker]) -> Result<Vec<u32>, AllocError>
    ensures { IfOk result (λ v. v.items ≡ map number_in speakers.now) }
{
    speakers.iter().map(|speaker| speaker.number).collect(heap)
}
