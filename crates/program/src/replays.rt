//! The command `replay`: frames from one stream, replies to another.
ghost use Rattle.std.specs.Prelude.{◌≡◌, ◌⊎◌, ℕ, List, None, IfSome, IfOk, OnOk};
ghost use Rattle.std.specs.Io.KnownBytes.{Appends, IsAtEnd};
ghost use Rattle.program.specs.Replies.{printed, bad_frame_text, AreReplies, AnswersFrames};
ghost use Rattle.program.specs.Exits.{status_of};
ghost use Rattle.program.specs.Inputs.{ReadsAll};
ghost use Rattle.program.specs.Outcomes.{stream, error_stream, ReplaysFrames};
ghost use Rattle.program.specs.Streams.{GetsAll};
ghost use Rattle.program.specs.declared.exits.Exit.{Exit};

use crate::environment::Files;
use crate::errors::note_bad_frame;
use crate::exits::Exit;
use crate::frames::read_frames;
use crate::reasons::Cause;
use crate::replies::{print_replies, refuse};
use crate::streams::ErrorStream;
use basis::{Bytes, Down};
use machine::Keep;
use serve::{Service, Step};
use std::alloc::Global;
use std::io;
use std::io::{Read, Write};

// The replies, and the number of the bad frame after them, if there is one.
#[derive(Drop)]
struct Replay {
    replies: Vec<Bytes>,
    bad_frame: Option<usize>,
}

/// The replies of a store to steps, and the store afterwards.
pub fn replay_over<K: Keep>(alloc: Global, keep: K, steps: &[Step]) -> (Result<Vec<Bytes>, Down>, K)
    ensures { K.clean result.1 → K.sound keep → ((org : List ℕ) → K.rows keep org ≡ None) → IfOk result.0 (λ replies. AreReplies steps.now replies.items) }
{
    let mut service = Service::new(keep);
    let replies = service.replay(alloc, steps);
    let keep = service.into_keep();
    (replies, keep)
}

/// Everything left in a stream.
pub fn read_all<I: Read>(alloc: Global, input: &mut I) -> Result<Vec<u8>, Down>
    ensures bytes { IfOk result (λ bytes. IfSome (I.remaining input.old) (λ known. bytes.items ≡ known)) }
    ensures end { OnOk result (IsAtEnd (I.remaining input.new)) }
{
    let mut bytes = Vec::new(alloc);
    match input.read_to_end(&mut bytes) {
        Ok(_) => Ok(bytes),
        Err(_) => Err(Down),
    }
}

fn answer<K: Keep, F: Files<K>>(alloc: Global, files: &F, bytes: &[u8]) -> Result<Replay, Down>
    ensures { IfOk result (λ replay. AnswersFrames bytes.now replay.replies.items replay.bad_frame) }
{
    let frames = read_frames(alloc, bytes)?;
    let replies = files.replay(alloc, frames.steps.as_slice())?;
    let bad_frame = if frames.is_bad {
        Some(frames.steps.len() + 1)
    } else {
        None
    };
    Ok(Replay { replies, bad_frame })
}

fn answer_input<K: Keep, F: Files<K>, I: Read>(
    alloc: Global,
    files: &F,
    input: &mut I,
) -> Result<Replay, Down>
    ensures answers { IfOk result (λ replay. IfSome (I.remaining input.old) (λ bytes. AnswersFrames bytes replay.replies.items replay.bad_frame)) }
    ensures end { OnOk result (IsAtEnd (I.remaining input.new)) }
{
    let bytes = read_all(alloc, input)?;
    answer::<K, F>(alloc, files, bytes.as_slice())
}

fn print_all<O: Write>(output: &mut O, replies: &[Bytes]) -> io::Result<()>
    ensures { OnOk result (Appends (O.contents output.old) (O.contents output.new) (printed replies.now)) }
{
    print_replies(output, replies)?;
    output.flush()
}

fn end_at<E: ErrorStream>(errors: &mut E, bad_frame: Option<usize>) -> Exit
    ensures done { bad_frame ≡ None → result ≡ Exit.Done }
    ensures bad { IfSome bad_frame (λ frame. ((result ≡ Exit.BadFrame) × GetsAll (E.reported errors.old) (E.reported errors.new) (bad_frame_text frame)) ⊎ (result ≡ Exit.Unprinted)) }
{
    match bad_frame {
        None => Exit::Done,
        Some(frame) => match note_bad_frame(errors, frame) {
            Ok(()) => Exit::BadFrame,
            Err(_) => Exit::Unprinted,
        },
    }
}

/// Reads frames up to the first that does not parse, replays them and prints the replies.
pub fn replay_frames<K: Keep, F: Files<K>, I: Read, O: Write, E: ErrorStream>(
    alloc: Global,
    files: &F,
    input: &mut I,
    output: &mut O,
    errors: &mut E,
) -> Exit
    ensures replays { ReplaysFrames (I.remaining input.old) result (stream (O.contents output.old) (O.contents output.new)) (error_stream (E.reported errors.old) (E.reported errors.new)) }
    ensures input { ReadsAll (I.remaining input.new) result (stream (O.contents output.old) (O.contents output.new)) (error_stream (E.reported errors.old) (E.reported errors.new)) }
{
    let Ok(replay) = answer_input::<K, F, I>(alloc, files, input) else {
        return refuse(output, errors, Cause::Input);
    };
    match print_all(output, replay.replies.as_slice()) {
        Ok(()) => end_at(errors, replay.bad_frame),
        Err(_) => Exit::Unprinted,
    }
}

/// As `replay_frames`. The result is the exit status.
pub fn run_frames<K: Keep, F: Files<K>, I: Read, O: Write, E: ErrorStream>(
    alloc: Global,
    files: &F,
    input: &mut I,
    output: &mut O,
    errors: &mut E,
) -> u8
    ensures { (exit : Exit) × (result ≡ status_of exit) × ReplaysFrames (I.remaining input.old) exit (stream (O.contents output.old) (O.contents output.new)) (error_stream (E.reported errors.old) (E.reported errors.new)) }
{
    replay_frames::<K, F, I, O, E>(alloc, files, input, output, errors).status()
}
