// The lines of the senders: in which slots each speaks, what is heard of each and what is read.
ghost use Rattle.channels.specs.Plans.{plan_in};
ghost use Rattle.channels.specs.Settings.{settings};
ghost use Rattle.ice_lines.specs.Lines.{heard_text, planned_text, read_text, spaced_of, words_of};
ghost use Rattle.speakall.specs.Promise.{table_of};
ghost use Rattle.std.specs.Prelude.{◌≡◌, map, IfOk, string_bytes};

use channels::{Channel, Fault, Plan};
use ice_grid::letter;
use messages::{PartWord, Reading};
use std::alloc::{AllocError, Global};

// The numbers, with a space before each.
fn spaced(heap: Global, numbers: &[u32]) -> Result<String, AllocError>
    ensures { IfOk result (λ s. string_bytes s ≡ spaced_of numbers.now) }
{
    let mut text = String::new(heap);
    for n in numbers {
        write!(text, " {n}")?;
    }
    Ok(text)
}

// The slots of a plan, part by part.
fn slots_of(heap: Global, plan: Plan, q: u8) -> Result<Vec<u32>, AllocError>
    requires { plan.q ≡ q }
    ensures { IfOk result (λ v. v.items ≡ table_of q (plan_in plan) q) }
{
    (0..q)
        .filter_map(|part| plan.slot(part))
        .map(u32::from)
        .collect(heap)
}

// A sender with its letter and its plan, as `a  sender 7: slots 2 3 4 0 1`.
pub fn planned(
    heap: Global,
    channel: Channel,
    numbers: &[u32],
    number: u32,
) -> Result<String, Fault>
    ensures { IfOk result (λ s. string_bytes s ≡ planned_text (settings channel) numbers.now number) }
{
    let plan = Plan::of(channel, number)?;
    let slots = slots_of(heap, plan, channel.parts())?;
    let slots = spaced(heap, &slots)?;
    let letter = letter(number, numbers);
    Ok(format!(in heap; "{letter}  sender {number}: slots{slots}")?)
}

// The numbers of the parts in which the words were heard.
fn parts_of(heap: Global, words: &[PartWord]) -> Result<Vec<u32>, AllocError>
    ensures { IfOk result (λ v. v.items ≡ map (λ w. w.part) words.now) }
{
    words.iter().map(|word| u32::from(word.part)).collect(heap)
}

// What was heard in them.
fn values_of(heap: Global, words: &[PartWord]) -> Result<Vec<u32>, AllocError>
    ensures { IfOk result (λ v. v.items ≡ map (λ w. w.value) words.now) }
{
    words.iter().map(|word| word.value).collect(heap)
}

// What is heard of a sender, as `sender 7: 4 words, in parts 1 2 3 4: 11 12 13 14`.
pub fn heard(heap: Global, number: u32, words: &[PartWord]) -> Result<String, AllocError>
    ensures { IfOk result (λ s. string_bytes s ≡ heard_text number (map (λ w. w.part) words.now) (map (λ w. w.value) words.now)) }
{
    let parts = spaced(heap, &parts_of(heap, words)?)?;
    let values = spaced(heap, &values_of(heap, words)?)?;
    match words.len() {
        0 => format!(in heap; "sender {number}: 0 words"),
        1 => format!(in heap; "sender {number}: 1 word, in part{parts}:{values}"),
        n => format!(in heap; "sender {number}: {n} words, in parts{parts}:{values}"),
    }
}

// What stands between a count of words and a count of numbers.
fn words_for(n: usize) -> &'static str
    ensures { result.now ≡ words_of n }
{
    if n == 1 { " word for " } else { " words for " }
}

// What is made of a sender's words, as `  read: 10 1 0`, `  too few (6): 2 words for 3 numbers` or `  doubtful (7)`.
pub fn read(heap: Global, reading: Reading, message: &[u32]) -> Result<String, AllocError>
    ensures { IfOk result (λ s. string_bytes s ≡ read_text reading message.now) }
{
    let size = message.len();
    // The numbers of `Fault::TooFew` and `Fault::Doubtful`, written out: `Fault::number` answers an `Option`, since want of memory has none.
    match reading {
        Reading::TooFew(n) => {
            let words = words_for(n);
            format!(in heap; "  too few (6): {n}{words}{size} numbers")
        }
        Reading::Message { .. } => {
            let numbers = spaced(heap, message)?;
            format!(in heap; "  read:{numbers}")
        }
        Reading::Doubtful => format!(in heap; "  doubtful (7)"),
    }
}
