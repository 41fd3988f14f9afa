// The grid of one frame, as the program `ice` shows it: a row for each slot's number, in it a sign for each part.
#![tactic(auto)]

mod grid;
mod marks;

pub use grid::{SIGNS, headers, row};
pub use marks::{letter, mark};

// A row of a silent frame, and the numbers of the parts.
#[cfg(test)]
mod tests {
    use super::*;
    use channels::Channel;
    use frames::Frame;
    use std::test::Fail;

    #[test]
    fn of_a_silent_frame(rt: HostRuntime) -> Result<(), Fail> {
        let frame = Frame::silent(rt.alloc(), Channel::new(5, 2, 2)?)?;
        let line = row(rt.alloc(), &frame, &[7], 2)?;
        let above = headers(rt.alloc(), 251)?;
        assert!(rt; line.as_str() == "  2 . . . . ." && above.len() == 3);
        Ok(())
    }
}
