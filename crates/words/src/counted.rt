// What a listener makes of twelve bytes heard in a slot: a sender's word that counts, or noise.
// They count where they are the bytes of the word of a sender that is there, and that speaks in that slot by its plan.
ghost use Rattle.std.specs.Prelude.{◌≡◌, ℕ, ◌%◌, ◌<◌, true, false, is_some, Decides, MatchOption, ◌≢◌, slice_index};
ghost use Rattle.channels.specs.Settings.{settings};
ghost use Rattle.speakall.specs.Frame.{p};
ghost use Rattle.words.specs.Bytes.{air_bytes};
ghost use Rattle.words.specs.Counting.{Counts, Speaks, is_counted, sender_in, word_in};

use crate::AirWord;
use channels::{Channel, Plan};

// Words are numbers below this prime; it is also in `polynomials`, on which this crate does not stand.
const P: u32 = 2147483647;

// A word that counts, and the number of the sender whose it is.
#[derive(Clone, Copy, PartialEq, Eq, Debug)]
pub struct Counted {
    pub sender: u32,
    pub word: u32,
}

// What the first eight bytes say.
fn said_in(bytes: [u8; 12]) -> AirWord
    ensures sender { result.sender ≡ sender_in bytes }
    ensures frame { result.frame ≡ slice_index bytes 3 }
    ensures word { result.word ≡ word_in bytes }
{
    let [a, b, c, frame, e, f, g, h, ..] = bytes;
    let sender = u32::from_be_bytes([0, a, b, c]);
    let word = u32::from_be_bytes([e, f, g, h]);
    AirWord {
        sender,
        frame,
        word,
    }
}

// The word that was put out in this part as these bytes; none where the last four are wrong.
fn read(bytes: [u8; 12], part: u8) -> Option<AirWord>
    ensures { MatchOption result ((s f w : ℕ) → bytes ≢ air_bytes s f w part) (λ a. bytes ≡ air_bytes a.sender a.frame a.word part) }
{
    let said = said_in(bytes);
    (bytes == said.to_bytes(part)).then_some(said)
}

// Whether a sender that is there speaks in this slot of this part, by its plan.
fn speaks(channel: Channel, sender: u32, part: u8, slot: u8) -> bool
    ensures { Decides result (Speaks (settings channel) sender part slot) }
{
    Plan::of(channel, sender).is_ok_and(|plan| plan.slot(part) == Some(slot))
}

// Whether what was said counts in this slot of this part of this frame. The three go side by side: a caller has them from a record or a loop, and no fact joins them.
fn counts(said: AirWord, channel: Channel, frame: u32, part: u8, slot: u8) -> bool
    ensures { Decides result ((said.frame ≡ frame % 256) × (said.word < p) × Speaks (settings channel) said.sender part slot) }
{
    u32::from(said.frame) == frame % 256
        && said.word < P
        && speaks(channel, said.sender, part, slot)
}

impl AirWord {
    // The sender's word that these bytes are, heard in this slot of this part of this frame; none where they are noise.
    pub fn from_bytes(
        bytes: [u8; 12],
        channel: Channel,
        frame: u32,
        part: u8,
        slot: u8,
    ) -> Option<Counted>
        ensures tested { MatchOption result (is_counted (settings channel) frame part slot bytes ≡ false) (λ k. (is_counted (settings channel) frame part slot bytes ≡ true) × (k.sender ≡ sender_in bytes) × (k.word ≡ word_in bytes)) }
        ensures counts { MatchOption result ((sender word : ℕ) → Counts (settings channel) frame part slot bytes sender word → ⊥) (λ k. Counts (settings channel) frame part slot bytes k.sender k.word) }
    {
        let said = read(bytes, part)?;
        counts(said, channel, frame, part, slot).then_some(Counted {
            sender: said.sender,
            word: said.word,
        })
    }

    // What a listener makes of this word, put out in this part and heard in this slot and frame: its sender and the word
    // in the slot of the sender's plan, and noise in any other slot, and in a frame that differs modulo 256.
    pub fn heard(self, channel: Channel, frame: u32, part: u8, slot: u8) -> Option<Counted>
        ensures taken { Speaks (settings channel) self.sender part slot → self.frame ≡ frame % 256 → self.word < p → MatchOption result ⊥ (λ k. (k.sender ≡ self.sender) × (k.word ≡ self.word)) }
        ensures misplaced { (Speaks (settings channel) self.sender part slot → ⊥) → is_some result ≡ false }
        ensures outdated { (self.frame ≢ frame % 256) → is_some result ≡ false }
        ensures overlarge { (self.word < p → ⊥) → is_some result ≡ false }
    {
        AirWord::from_bytes(self.to_bytes(part), channel, frame, part, slot)
    }
}
