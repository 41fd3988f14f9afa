// The sign of one slot in the grid: silence, the letter of the sender that is alone in it, or noise.
ghost use Rattle.ice_grid.specs.Marks.{letter_of, letters, mark_of};
ghost use Rattle.std.specs.Prelude.{◌≡◌};

use frames::Slot;

// Letters of the first senders; the others have a question mark.
const LETTERS: [u8; 52] = *b"abcdefghijklmnopqrstuvwxyzABCDEFGHIJKLMNOPQRSTUVWXYZ";

// The letter of a sender: that of its place among these numbers, of which only the first 52 are looked at.
pub fn letter(number: u32, numbers: &[u32]) -> char
    ensures { result ≡ letter_of number numbers.now letters }
{
    for (other, letter) in numbers.iter().zip(&LETTERS) {
        if *other == number {
            return char::from(*letter);
        }
    }
    '?'
}

// The sign of a slot of a frame in which the senders with these numbers speak.
pub fn mark(slot: Slot, numbers: &[u32]) -> char
    ensures { result ≡ mark_of slot numbers.now }
{
    match slot {
        Slot::Silence => '.',
        Slot::One { sender, .. } => letter(sender, numbers),
        Slot::Noise => '#',
    }
}
