// A channel as a line: its numbers, and its sizes, which follow from them.
ghost use Rattle.channels.specs.Settings.{settings};
ghost use Rattle.command_words.specs.Lines.{Sizes, line_text};
ghost use Rattle.std.specs.Prelude.{Some};

use channels::Channel;
use std::fmt;

// A channel as `29 3 9: 841 slots, 24389 senders, messages of 11 numbers`.
#[derive(Clone, Copy)]
pub struct Line {
    pub q: u8,
    pub d: u8,
    pub k: u8,
    pub slots: u32,
    pub senders: u32,
    pub numbers: u8,
}

impl Line {
    pub fn of(channel: Channel) -> Line
        ensures { Sizes (settings channel) result }
    {
        Line {
            q: channel.parts(),
            d: channel.digits(),
            k: channel.others(),
            slots: channel.slots(),
            senders: channel.senders(),
            numbers: channel.numbers(),
        }
    }
}

impl fmt::Display for Line {
    ghost output = { λ l. Some (line_text l) };

    fn fmt<W: fmt::Write>(&self, f: &mut fmt::Formatter<W>) -> fmt::Result {
        let Line {
            q,
            d,
            k,
            slots,
            senders,
            numbers,
        } = *self;
        write!(
            f,
            "{q} {d} {k}: {slots} slots, {senders} senders, messages of {numbers} numbers"
        )
    }
}
