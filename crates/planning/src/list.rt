// All channels that serve a wish, found in the order in which they are listed: the sides in rising order,
// and for each the digits from 1 up.
ghost use Rattle.channels.specs.declared.fault.Fault.TheVariants.{Memory};
ghost use Rattle.planning.specs.Wishes.{AllBefore, AllThatServe, asked, settings_of};
ghost use Rattle.speakall.specs.Plan.{sides as listed_sides};
ghost use Rattle.std.specs.Prelude.{◌≡◌, MatchResult};

use crate::wish::{Wish, serving};
use channels::{Channel, Fault, table};
use std::alloc::Global;

// Adds the channels with this q that serve, the lowest d first.
fn add_side(wish: Wish, q: u8, found: &mut Vec<Channel>) -> Result<(), Fault>
    requires { AllBefore wish (asked wish q 1) (settings_of found.old.items) }
    ensures { MatchResult result (λ _. AllBefore wish (asked wish q 5) (settings_of found.new.items)) (λ e. e ≡ Memory) }
{
    // A loop: of what a vector holds after `extend` with a chain less is known.
    for d in 1..5 {
        if let Some(channel) = serving(wish, q, d) {
            found.push(channel)?;
        }
    }
    Ok(())
}

// Goes through the sides, which are all that q may be, in rising order.
fn gathered(heap: Global, wish: Wish, sides: &[u8]) -> Result<Vec<Channel>, Fault>
    requires { sides.now ≡ listed_sides }
    ensures { MatchResult result (λ v. AllThatServe wish (settings_of v.items)) (λ e. e ≡ Memory) }
{
    let mut found = Vec::new(heap);
    for q in sides {
        add_side(wish, *q, &mut found)?;
    }
    Ok(found)
}

// All channels that serve, the fewest slots first, then the lowest d; the empty list where none serves.
// `Fault::Memory` where memory fails.
pub fn all(heap: Global, wish: Wish) -> Result<Vec<Channel>, Fault>
    ensures { MatchResult result (λ v. AllThatServe wish (settings_of v.items)) (λ e. e ≡ Memory) }
{
    gathered(heap, wish, table::sides())
}
