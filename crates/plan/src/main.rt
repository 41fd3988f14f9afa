// The program that chooses a channel: `plan SENDERS K NUMBERS` prints the best, and all that would do.
// All that can be said of its answers is said by the contracts of `planning` and `plan_words`.
#![tactic(auto)]

use channels::{Channel, Fault};
use plan_words::{Line, Misuse, Refusal, Request, USAGE};
use planning::Wish;
use std::alloc::Global;
use std::env;
use std::io::{BufWriter, Write};
use std::process::ExitCode;

// Tells why there is no channel, and fails.
fn refuse(rt: &HostRuntime, fault: Fault, wish: Wish) -> anyhow::Result<ExitCode> {
    let refusal = Refusal { fault, wish };
    eprintln!(rt; "{refusal}")?;
    Ok(ExitCode::FAILURE)
}

// Tells which word is wrong and what is wanted, and fails.
fn correct(rt: &HostRuntime, misuse: Misuse, texts: &[String]) -> anyhow::Result<ExitCode> {
    let text = plan_words::told(rt.alloc(), misuse, texts)?;
    eprintln!(rt; "{text}")?;
    Ok(ExitCode::FAILURE)
}

// The best channel, and all that would do, the best first.
#[derive(Drop)]
struct Found {
    best: Channel,
    all: Vec<Channel>,
}

fn find(heap: Global, wish: Wish) -> Result<Found, Fault> {
    Ok(Found {
        best: planning::best(wish)?,
        all: planning::all(heap, wish)?,
    })
}

// Prints the best channel, and then all that would do.
fn print(rt: &HostRuntime, found: Found) -> anyhow::Result<ExitCode> {
    let mut out = BufWriter::new(rt.alloc(), rt.stdout())?;
    let best = Line::of(found.best);
    writeln!(out, "{best}\n\nAll that would do:")?;
    for channel in found.all {
        let line = Line::of(channel);
        writeln!(out, "{line}")?;
    }
    out.flush()?;
    Ok(ExitCode::SUCCESS)
}

// Writes a channel's bytes.
fn write_raw(rt: &HostRuntime, channel: Channel) -> anyhow::Result<ExitCode> {
    rt.stdout().write_all(&plan_words::bytes(channel))?;
    Ok(ExitCode::SUCCESS)
}

fn main(rt: HostRuntime) -> anyhow::Result<ExitCode> {
    let texts = env::args(&rt)?.skip(1).collect::<Vec<String>>(rt.alloc())?;
    let words = plan_words::words_of(rt.alloc(), &texts)?;
    match plan_words::read_words(&words) {
        Ok(Request::Help) => {
            print!(rt; "{USAGE}")?;
            Ok(ExitCode::SUCCESS)
        }
        Ok(Request::Plan(wish)) => match find(rt.alloc(), wish) {
            Ok(found) => print(&rt, found),
            Err(fault) => refuse(&rt, fault, wish),
        },
        Ok(Request::Raw(wish)) => match planning::best(wish) {
            Ok(channel) => write_raw(&rt, channel),
            Err(fault) => refuse(&rt, fault, wish),
        },
        Err(misuse) => correct(&rt, misuse, &texts),
    }
}
