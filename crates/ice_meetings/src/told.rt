// In how many parts of a frame the senders meet: every two of a few, and of many the two that meet most.
ghost use Rattle.std.specs.Prelude.{◌≡◌, ◌-◌, ◌≤◌, max, [], ◌∷◌, ◌++◌, map, IfOk, string_bytes, OnOk};
ghost use Rattle.channels.specs.Settings.{settings};
ghost use Rattle.ice_meetings.specs.Meets.{counts_of, every_two, few_or_most, limit_text, lines_in, meeting_lines, meets_in, most_of, most_text, pair_text};

use crate::meeting::{Meeting, parts};
use channels::{Channel, Fault};
use std::alloc::{AllocError, Global};

// Of so many senders every two are told of.
const FEW: usize = 12;

// The most parts in which a sender meets one of the others, or `most`; more than the limit are not looked for.
fn most_with(
    channel: Channel,
    number: u32,
    others: &[u32],
    limit: u8,
    most: u8,
) -> Result<u8, Fault>
    requires { most ≤ limit }
    ensures { IfOk result (λ m. (m ≤ limit) × (m ≡ max most (most_of limit (map (meets_in (settings channel) number) others.now)))) }
{
    let mut top = most;
    for other in others {
        if top >= limit {
            return Ok(top);
        }
        let meeting = Meeting::of(channel, number, *other)?;
        top = top.max(meeting.count.min(limit));
    }
    Ok(top)
}

// The most parts in which two of these senders meet. No two senders of a channel meet in more than d - 1, which is the limit:
// once two meet in so many, no more are looked at.
fn most(channel: Channel, numbers: &[u32], limit: u8) -> Result<u8, Fault>
    ensures { IfOk result (λ m. m ≡ most_of limit (counts_of (settings channel) numbers.now)) }
{
    let mut top = 0;
    // By the senders left: each is paired with those behind it, and no iterator gives the rest of its slice.
    let mut left = numbers;
    while let [number, others @ ..] = left {
        top = most_with(channel, *number, others, limit, top)?;
        left = others;
    }
    Ok(top)
}

// The line of two senders.
fn pair(heap: Global, channel: Channel, one: u32, other: u32) -> Result<String, Fault>
    ensures { IfOk result (λ s. string_bytes s ≡ pair_text (settings channel) one other) }
{
    let meeting = Meeting::of(channel, one, other)?;
    Ok(format!(in heap; "{meeting}")?)
}

// A line for a sender and each of the others.
fn meet_with(
    heap: Global,
    channel: Channel,
    number: u32,
    others: &[u32],
    lines: &mut Vec<String>,
) -> Result<(), Fault>
    ensures { OnOk result (lines_in lines.new.items ≡ lines_in lines.old.items ++ map (pair_text (settings channel) number) others.now) }
{
    for other in others {
        push_line(lines, pair(heap, channel, number, *other)?)?;
    }
    Ok(())
}

// A line for every two of the senders.
fn every_two(heap: Global, channel: Channel, numbers: &[u32]) -> Result<Vec<String>, Fault>
    ensures { IfOk result (λ v. lines_in v.items ≡ every_two (settings channel) numbers.now) }
{
    let mut lines = Vec::new(heap);
    let mut left = numbers;
    while let [number, others @ ..] = left {
        meet_with(heap, channel, *number, others, &mut lines)?;
        left = others;
    }
    Ok(lines)
}

// A line more.
fn push_line(lines: &mut Vec<String>, line: String) -> Result<(), AllocError>
    ensures { OnOk result (lines_in lines.new.items ≡ lines_in lines.old.items ++ (string_bytes line ∷ [])) }
{
    lines.push(line)?;
    Ok(())
}

fn most_text(heap: Global, count: u8) -> Result<String, AllocError>
    ensures { IfOk result (λ s. string_bytes s ≡ most_text count) }
{
    let parts = parts(count);
    format!(in heap; "no two meet in more than {count} {parts}")
}

// The line of the two that meet most.
fn most_line(heap: Global, channel: Channel, numbers: &[u32]) -> Result<String, Fault>
    ensures { IfOk result (λ s. string_bytes s ≡ most_text (most_of ((settings channel).d - 1) (counts_of (settings channel) numbers.now))) }
{
    let count = most(channel, numbers, channel.digits() - 1)?;
    Ok(most_text(heap, count)?)
}

// A line for every two of a few senders, and one line of many.
fn few_or_most(heap: Global, channel: Channel, numbers: &[u32]) -> Result<Vec<String>, Fault>
    ensures { IfOk result (λ v. lines_in v.items ≡ few_or_most (settings channel) numbers.now) }
{
    if numbers.len() <= FEW {
        return every_two(heap, channel, numbers);
    }
    let mut lines = Vec::new(heap);
    push_line(&mut lines, most_line(heap, channel, numbers)?)?;
    Ok(lines)
}

// In how many parts two senders of the channel meet at most.
fn limit_line(heap: Global, limit: u8) -> Result<String, AllocError>
    ensures { IfOk result (λ s. string_bytes s ≡ limit_text limit) }
{
    format!(in heap; "of any two senders: at most d - 1 = {limit}")
}

// In how many parts the senders meet, and in how many two senders of the channel meet at most.
pub fn meetings(heap: Global, channel: Channel, numbers: &[u32]) -> Result<Vec<String>, Fault>
    ensures { IfOk result (λ v. lines_in v.items ≡ meeting_lines (settings channel) numbers.now) }
{
    let mut lines = few_or_most(heap, channel, numbers)?;
    push_line(&mut lines, limit_line(heap, channel.digits() - 1)?)?;
    Ok(lines)
}
