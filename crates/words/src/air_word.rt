// A word on the air, and its twelve bytes, high byte first: the sender's number (3), the frame modulo 256 (1), the word (4),
// and the first four bytes of SHA-256 over these eight and the part.
ghost use Rattle.std.specs.Prelude.{◌≡◌, ◌^◌, ◌<◌, ◌≤◌, ◌++◌, MatchResult};
ghost use Rattle.channels.specs.Settings.{settings};
ghost use Rattle.channels.specs.declared.fault.Fault.TheVariants.{Sender as FaultSender};
ghost use Rattle.words.specs.Bytes.{air_bytes, body as body_of, sum_of};
ghost use Rattle.words.specs.Counting.{SaidBy};

use channels::{Channel, Fault};

#[derive(Clone, Copy)]
pub struct AirWord {
    // The sender's number.
    pub sender: u32,
    // The frame, modulo 256.
    pub frame: u8,
    // The value of the sender's message in a part.
    pub word: u32,
    // The number has three bytes on the air.
    ghost narrow: { sender < 2 ^ 24 },
}

// The eight bytes and then the sum. Also in `records`, for 8 and 12 bytes: one function would have three lengths and a `requires` that the third is the sum, in a crate below both.
fn joined(body: [u8; 8], sum: [u8; 4]) -> [u8; 12]
    ensures { result ≡ body ++ sum }
{
    let mut bytes = [0; 12];
    bytes[..8].copy_from_slice(&body);
    bytes[8..].copy_from_slice(&sum);
    bytes
}

// The first four bytes of the digest of the eight bytes and the part.
fn sum_of(body: [u8; 8], part: u8) -> [u8; 4]
    ensures { result ≡ sum_of body part }
{
    let mut bytes = [part; 9];
    bytes[..8].copy_from_slice(&body);
    sha256::sum(bytes)
}

impl AirWord {
    // The word of a sender in a frame, or `Fault::Sender` where the channel has no such sender.
    pub fn new(channel: Channel, sender: u32, frame: u32, word: u32) -> Result<AirWord, Fault>
        ensures { MatchResult result (λ a. SaidBy (settings channel) sender frame word a.sender a.frame a.word) (λ e. (e ≡ FaultSender) × ((settings channel).q ^ (settings channel).d ≤ sender)) }
    {
        if sender >= channel.senders() {
            return Err(Fault::Sender);
        }
        Ok(AirWord {
            sender,
            // By `as`: below 256, so it fits.
            frame: (frame % 256) as u8,
            word,
        })
    }

    // The eight bytes that say something.
    fn body(self) -> [u8; 8]
        ensures { result ≡ body_of self.sender self.frame self.word }
    {
        let [_, a, b, c] = self.sender.to_be_bytes();
        let [e, f, g, h] = self.word.to_be_bytes();
        [a, b, c, self.frame, e, f, g, h]
    }

    // The bytes that are put out in this part.
    pub fn to_bytes(self, part: u8) -> [u8; 12]
        ensures { result ≡ air_bytes self.sender self.frame self.word part }
    {
        let body = self.body();
        joined(body, sum_of(body, part))
    }
}
