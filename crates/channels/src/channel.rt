// A channel: how a frame is cut, how long plans are, and how many others may speak in the same frame.
// How it is made, and its sizes, stand in `make`, apart from the struct, whose facts they use.
ghost use Rattle.std.specs.Prelude.{◌≡◌, ◌-◌, ◌*◌, ◌^◌, ◌<◌, ◌≤◌, true};
ghost use Rattle.channels.specs.Valid.{is_valid};
ghost use Rattle.speakall.specs.Plan.{listed, sides};

mod make;

#[derive(Clone, Copy, PartialEq, Eq, Debug)]
pub struct Channel {
    // Parts of a frame, and slots of a part.
    q: u8,
    // Digits of a plan.
    d: u8,
    // Others that may speak in the same frame.
    k: u8,
    // All that makes it a channel, whole and in its parts, for the crates above.
    ghost valid: { is_valid q d k ≡ true },
    ghost side: { listed q sides ≡ true },
    ghost wide: { 2 < q },
    ghost narrow: { q < 252 },
    ghost some: { 0 < d },
    ghost few: { d ≤ 4 },
    ghost enough: { d ≤ q },
    ghost spare: { k * (d - 1) < q },
    ghost held: { q ^ d ≤ 65536 },
}

impl Channel {
    // The parts of a frame, and the slots of each part: q.
    pub fn parts(self) -> u8
        ensures { result ≡ self.q }
    {
        self.q
    }

    // The digits of a plan: d.
    pub fn digits(self) -> u8
        ensures { result ≡ self.d }
    {
        self.d
    }

    // How many others may speak in the same frame: k.
    pub fn others(self) -> u8
        ensures { result ≡ self.k }
    {
        self.k
    }
}
