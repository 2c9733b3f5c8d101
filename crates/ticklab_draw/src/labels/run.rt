// The frames of a list of moves.
ghost use Rattle.std.specs.Prelude.{◌≡◌, ◌+◌, ◌<◌, ◌≤◌, All, IfOk, length, Some};
ghost use Rattle.language_schedules.specs.Moves.{mover};
ghost use Rattle.word_core.specs.Order.{IsOrdered};
ghost use Rattle.word_core.specs.Stamps.{moved};
ghost use Rattle.ticklab_draw.specs.labels.Frames.{frames_of};

use base::NoMemory;
use std::alloc::Global;
use ticket_core::Move;
use word_core::LabelWord;

/// The labels of all processes, and the move that led to them.
#[derive(Clone, Copy)]
pub struct Frame {
    /// `None` at the start, before all moves.
    pub made: Option<Move>,
    pub labels: LabelWord,
}

/// The start, where nobody has a label, and the frame after each of these moves of `n` processes.
#[tactic(auto, using(crate::proofs::labels::FrameLemmas::made_all))]
pub fn frames(alloc: Global, n: u8, moves: &[Move]) -> Result<Vec<Frame>, NoMemory>
    requires at_least_one { 1 ≤ n }
    requires at_most_six { n ≤ 6 }
    requires in_range { All (λ move. mover move < n) moves.now }
    ensures frames { IfOk result (λ frames. frames.items ≡ frames_of n moves.now) }
    ensures count { IfOk result (λ frames. length frames.items ≡ length moves.now + 1) }
{
    let labels = LabelWord::start(n);
    let mut frame = Frame { made: None, labels };
    let mut frames = Vec::new(alloc);
    frames.push(frame)?;
    for &made in moves {
        frame = frame.after(made);
        frames.push(frame)?;
    }
    Ok(frames)
}

impl Frame {
    // The frame after one more move.
    fn after(&self, made: Move) -> Frame
        requires in_range { mover made < length self.now.labels }
        requires ordered { IsOrdered self.now.labels }
        ensures made { result.made ≡ Some made }
        ensures moved { result.labels ≡ moved made self.now.labels }
        ensures ordered { IsOrdered result.labels }
    {
        match made {
            Move::Stamp(process) => Frame {
                made: Some(made),
                labels: self.labels.stamped(process),
            },
            Move::Clear(process) => Frame {
                made: Some(made),
                labels: self.labels.cleared(process),
            },
        }
    }
}
