// The program that shows one frame: `ice frame Q D K NUMBER[=A,B,..]..` prints who speaks, what is heard and what is read.
// All that can be said of its answers is said by the contracts of `ice_words`, `ice_speakers`, `frames`, `ice_lines` and the crates below these.
#![tactic(auto)]

use channels::{Channel, Fault};
use command_words::Line;
use frames::Frame;
use ice_lines::SIGNS;
use ice_speakers::Heard;
use ice_words::{Misuse, Request, Spoken, USAGE};
use std::alloc::Global;
use std::env;
use std::io::{BufWriter, Write};
use std::process::ExitCode;

// The senders with their slots.
fn plans(heap: Global, channel: Channel, numbers: &[u32]) -> Result<Vec<String>, Fault> {
    let mut lines = Vec::new(heap);
    for number in numbers {
        lines.push(ice_lines::planned(heap, channel, numbers, *number)?)?;
    }
    Ok(lines)
}

// The grid of the frame, under the numbers of the parts.
fn grid(heap: Global, q: u8, frame: &Frame, numbers: &[u32]) -> Result<Vec<String>, Fault> {
    let mut lines = ice_lines::headers(heap, q)?;
    for y in 0..q {
        lines.push(ice_lines::row(heap, frame, numbers, y)?)?;
    }
    lines.push(String::from_str(heap, SIGNS)?)?;
    Ok(lines)
}

// What is heard of each sender, and what is read.
fn readings(
    heap: Global,
    channel: Channel,
    frame: &Frame,
    numbers: &[u32],
) -> Result<Vec<String>, Fault> {
    let mut lines = Vec::new(heap);
    let mut message = vec![in heap; 0; usize::from(channel.numbers())]?;
    for number in numbers {
        let words = frame.words(heap, *number)?;
        lines.push(ice_lines::heard(heap, *number, &words)?)?;
        let reading = frame.read(heap, *number, &mut message)?;
        lines.push(ice_lines::read(heap, reading, &message)?)?;
    }
    Ok(lines)
}

// What is shown of a frame: the channel's line, and the sections below it.
#[derive(Drop)]
struct Picture {
    line: Line,
    sections: [Vec<String>; 4],
}

// What is shown of the frame in which these speak, on the channel with these numbers; or why there is none.
fn draw(heap: Global, q: u64, d: u64, k: u64, spoken: &[Spoken]) -> Result<Picture, Fault> {
    let channel = ice_words::channel_of(q, d, k)?;
    let Heard { frame, numbers } = ice_speakers::hear(heap, channel, spoken)?;
    let plans = plans(heap, channel, &numbers)?;
    let grid = grid(heap, channel.parts(), &frame, &numbers)?;
    let meetings = ice_lines::meetings(heap, channel, &numbers)?;
    let readings = readings(heap, channel, &frame, &numbers)?;
    Ok(Picture {
        line: Line::of(channel),
        sections: [plans, grid, meetings, readings],
    })
}

// Prints the channel's line and the sections, each after an empty line.
fn print(rt: &HostRuntime, picture: Picture) -> anyhow::Result<ExitCode> {
    let mut out = BufWriter::new(rt.alloc(), rt.stdout())?;
    let Picture { line, sections } = picture;
    writeln!(out, "{line}")?;
    for section in sections {
        writeln!(out)?;
        for line in section {
            writeln!(out, "{line}")?;
        }
    }
    out.flush()?;
    Ok(ExitCode::SUCCESS)
}

// Tells which word is wrong and what is wanted, and fails.
fn correct(rt: &HostRuntime, misuse: Misuse, texts: &[String]) -> anyhow::Result<ExitCode> {
    if misuse == Misuse::Nothing {
        eprint!(rt; "{USAGE}")?;
    } else {
        let text = ice_words::told(rt.alloc(), misuse, texts)?;
        eprintln!(rt; "{text}")?;
    }
    Ok(ExitCode::FAILURE)
}

// Tells why there is no frame, and fails.
fn refuse(rt: &HostRuntime, fault: Fault) -> anyhow::Result<ExitCode> {
    eprintln!(rt; "{fault}")?;
    Ok(ExitCode::FAILURE)
}

fn main(rt: HostRuntime) -> anyhow::Result<ExitCode> {
    let texts = env::args(&rt)?.skip(1).collect::<Vec<String>>(rt.alloc())?;
    match ice_words::read_words(rt.alloc(), &texts) {
        Ok(Request::Help) => {
            print!(rt; "{USAGE}")?;
            Ok(ExitCode::SUCCESS)
        }
        Ok(Request::Frame { q, d, k, spoken }) => match draw(rt.alloc(), q, d, k, &spoken) {
            Ok(picture) => print(&rt, picture),
            Err(fault) => refuse(&rt, fault),
        },
        Err(misuse) => correct(&rt, misuse, &texts),
    }
}
