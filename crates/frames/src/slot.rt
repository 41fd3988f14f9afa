// What is heard in one slot of one part; a word stands in the case that holds it, beside its sender.
ghost use Rattle.frames.specs.Slots.{is_there, joined, own_word};
ghost use Rattle.std.specs.Prelude.{◌≡◌};

use messages::PartWord;

#[derive(Clone, Copy, PartialEq, Eq, Debug)]
pub enum Slot {
    // Nobody speaks.
    Silence,
    // One sender speaks, and its word is heard.
    One { sender: u32, word: u32 },
    // Two or more speak, and nothing can be made out.
    Noise,
}

impl Slot {
    // The slot once one sender more speaks in it.
    pub fn with(self, sender: u32, word: u32) -> Slot
        ensures { result ≡ joined sender word self }
    {
        match self {
            Slot::Silence => Slot::One { sender, word },
            Slot::One { .. } | Slot::Noise => Slot::Noise,
        }
    }

    // The word of this sender in the slot, with the part in which the slot lies; none where it is not alone there.
    pub fn word_of(self, number: u32, part: u8) -> Option<PartWord>
        ensures { result ≡ own_word number part self }
    {
        match self {
            Slot::One { sender, word } if sender == number => Some(PartWord { part, value: word }),
            Slot::Silence | Slot::One { .. } | Slot::Noise => None,
        }
    }

    // Whether the word in the slot, if there is one, is of a sender below this number.
    pub fn is_below(self, senders: u32) -> bool
        ensures { result ≡ is_there senders self }
    {
        match self {
            Slot::One { sender, .. } => sender < senders,
            Slot::Silence | Slot::Noise => true,
        }
    }
}
