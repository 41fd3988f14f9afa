// Why no record stands first in some bytes.
ghost use Rattle.records.specs.Faults.{fault_of};
ghost use Rattle.records.specs.declared.unread.Unread.TheVariants.{Wrong};
ghost use Rattle.std.specs.Prelude.{◌≡◌};

use channels::Fault;

#[derive(Clone, Copy, PartialEq, Eq, Debug)]
pub enum Unread {
    // No such record, whatever bytes follow.
    Wrong(Fault),
    // Fewer bytes than the record has.
    Short,
}

impl Unread {
    // The fault that is told where no more bytes come: `Fault::Kind` for a record that is cut.
    pub fn fault(self) -> Fault
        ensures { result ≡ fault_of self }
    {
        match self {
            Unread::Wrong(fault) => fault,
            Unread::Short => Fault::Kind,
        }
    }
}

impl From<Fault> for Unread {
    ghost from_gives = { λ fault unread. unread ≡ Wrong fault };

    fn from(fault: Fault) -> Unread {
        Unread::Wrong(fault)
    }
}
