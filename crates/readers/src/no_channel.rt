// An input that does not begin with a channel.
ghost use Rattle.readers.specs.Inputs.{no_channel};
ghost use Rattle.std.specs.Prelude.{◌≡◌};

use channels::{Channel, Fault};
use reading::Stopped;
use records::Unread;

// Where a reading stops that found no channel: at byte 0, with fault 1 for one that is cut.
pub fn no_channel(found: Result<Channel, Unread>) -> Stopped
    ensures { result ≡ no_channel found }
{
    let fault = match found {
        Ok(_) => Fault::Kind,
        Err(unread) => unread.fault(),
    };
    Stopped { fault, byte: 0 }
}
