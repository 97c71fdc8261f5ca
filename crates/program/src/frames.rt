//! Frames of standard input, one after another.
ghost use Rattle.std.specs.Prelude.{◌≡◌, ◌<◌, ◌≤◌, length, Some, None, IfOk, IsErrOf};
ghost use Rattle.program.specs.Frames.{step_of, line_heading, first_frame, AreFrames, IsOnlyReading};

use crate::frame_headers::FrameHeader;
use basis::{Bytes, Down, Unfit};
use serve::Step;
use serve::lines::{split_line, split_message};
use serve::words::split_words;
use std::alloc::Global;

/// The steps of the frames before the first that does not parse.
#[derive(Drop)]
pub struct Frames {
    pub steps: Vec<Step>,
    /// Whether the next frame does not parse.
    pub is_bad: bool,
}

fn read_line(alloc: Global, line: &[u8]) -> Result<FrameHeader, Unfit>
    ensures ok { IfOk result (λ header. line_heading line.now ≡ Some header) }
    ensures syntax { IsErrOf result Unfit.Syntax → line_heading line.now ≡ None }
{
    let words = split_words(alloc, line)?;
    FrameHeader::read(alloc, words.as_slice())
}

fn read_step(alloc: Global, header: FrameHeader, rest: &[u8]) -> Result<(Step, &[u8]), Unfit>
    ensures ok { IfOk result (λ found. step_of header rest.now ≡ Some (found.0, found.1.now)) }
    ensures syntax { IsErrOf result Unfit.Syntax → step_of header rest.now ≡ None }
    ensures shorter { IfOk result (λ found. length found.1.now ≤ length rest.now) }
{
    match header {
        FrameHeader::Request { at, len } => {
            let Some((message, rest)) = split_message(rest, len) else {
                return Err(Unfit::Syntax);
            };
            let bytes = Bytes::new(Vec::from_slice(alloc, message)?);
            Ok((Step::Request { at, bytes }, rest))
        }
        FrameHeader::Command { at, command } => Ok((Step::Command { at, command }, rest)),
    }
}

fn read_frame(alloc: Global, bytes: &[u8]) -> Result<(Step, &[u8]), Unfit>
    ensures ok { IfOk result (λ found. first_frame bytes.now ≡ Some (found.0, found.1.now)) }
    ensures syntax { IsErrOf result Unfit.Syntax → first_frame bytes.now ≡ None }
    ensures shorter { IfOk result (λ found. length found.1.now < length bytes.now) }
{
    let Some((line, rest)) = split_line(bytes) else {
        return Err(Unfit::Syntax);
    };
    let header = read_line(alloc, line)?;
    read_step(alloc, header, rest)
}

/// Reads frames up to the first that does not parse. That one has the number `steps.len() + 1` (from 1).
pub fn read_frames(alloc: Global, bytes: &[u8]) -> Result<Frames, Down>
    ensures frames { IfOk result (λ frames. AreFrames bytes.now frames.steps.items frames.is_bad) }
    ensures only { IfOk result (λ frames. IsOnlyReading bytes.now frames.steps.items frames.is_bad) }
{
    let mut steps = Vec::new(alloc);
    let mut rest = bytes;
    'frames: while !rest.is_empty() {
        match read_frame(alloc, rest) {
            Ok((step, left)) => {
                steps.push(step)?;
                rest = left;
            }
            Err(Unfit::Syntax) => {
                return Ok(Frames {
                    steps,
                    is_bad: true,
                });
            }
            Err(Unfit::Down) => return Err(Down),
        }
    }
    Ok(Frames {
        steps,
        is_bad: false,
    })
}
