// Why there is no channel.
ghost use Rattle.channels.specs.Faults.{fault_text};
ghost use Rattle.plan_words.specs.Lines.{wish_text};
ghost use Rattle.std.specs.Prelude.{◌++◌, Some, codes};

use channels::Fault;
use planning::Wish;
use std::fmt;

// Why there is no channel, as `fault 9: no channel for 9000 senders, 9 others and messages of 300 numbers`.
#[derive(Clone, Copy)]
pub struct Refusal {
    pub fault: Fault,
    pub wish: Wish,
}

impl fmt::Display for Refusal {
    ghost output = { λ r. Some (fault_text r.fault ++ (codes " for " ++ wish_text r.wish)) };

    fn fmt<W: fmt::Write>(&self, f: &mut fmt::Formatter<W>) -> fmt::Result {
        let fault = self.fault;
        let Wish {
            senders,
            others,
            numbers,
        } = self.wish;
        write!(
            f,
            "{fault} for {senders} senders, {others} others and messages of {numbers} numbers"
        )
    }
}
