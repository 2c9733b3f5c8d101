// A list of frames as one SVG text.
ghost use Rattle.std.specs.Prelude.{◌≡◌, ◌++◌, ◌≤◌, IfOk, OnOk, length};
ghost use Rattle.ticklab_draw.specs.labels.Pictures.{frames_text, picture};

use crate::labels::frame_text::push_frame;
use crate::labels::head::push_head;
use crate::labels::run::Frame;
use crate::pieces::PICTURE_END;
use crate::writing::{Added, push};
use base::NoMemory;
use std::alloc::Global;

/// The most moves that are drawn: their frames and the start fill a hundred rows and more. Refuse a
/// longer list before `frames`.
pub const MOST_MOVES: usize = 400;

/// The picture of these frames of `n` processes, whose first is the start.
pub fn write_frames(alloc: Global, n: u8, frames: &[Frame]) -> Result<Vec<u8>, NoMemory>
    requires { length frames.now ≤ 401 }
    ensures { IfOk result (λ out. out.items ≡ picture n frames.now) }
{
    let mut out = Vec::new(alloc);
    push_head(&mut out, n, frames.len() as u64)?;
    push_frames(&mut out, frames)?;
    push(&mut out, PICTURE_END)?;
    Ok(out)
}

fn push_frames(out: &mut Vec<u8>, frames: &[Frame]) -> Added
    requires { length frames.now ≤ 401 }
    ensures { OnOk result (out.new.items ≡ out.old.items ++ frames_text 0 frames.now) }
{
    for (at, frame) in frames.iter().enumerate() {
        push_frame(out, at, frame)?;
    }
    Ok(())
}
