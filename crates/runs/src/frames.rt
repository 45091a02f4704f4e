//! Frames of a trajectory, in the notation of GROMACS.

ghost use Rattle.std.specs.Prelude.{IfOk};
ghost use Rattle.gro.specs.Frames.{frame_view};
ghost use Rattle.state.specs.StateViews.{state_view};
ghost use Rattle.runs.specs.Frames.{IsTimedFrame, ShowsFrame};

use crate::faults::TextFault;
use crate::frame_titles::timed_title;
use crate::kept_observers::KeptObserver;
use crate::showing::Show;
use engine::Engine;
use fallible::Out;
use gro::{GroFrame, write};
use job::TimeStep;
use state::State;
use std::alloc::{AllocError, Allocator};

/// The frame of a state, with time and step in its title.
fn timed_frame<A: Allocator + Copy>(
    state: &State<A>,
    time_step: TimeStep,
) -> Result<GroFrame<A>, AllocError>
    ensures { IfOk result (λ f. IsTimedFrame time_step (state_view state.now) (frame_view f)) }
{
    let GroFrame {
        title,
        atoms,
        sides,
    } = state.frame()?;
    let title = timed_title(title, time_step, state.step)?;
    Ok(GroFrame {
        title,
        atoms,
        sides,
    })
}

/// Shows each state by its frame, as `State::frame` gives it. The title is the state's own up to the first ` t= ` in
/// it, followed by ` t= %9.5f step= %d`: the time in ps and the step counter (GROMACS manual, gro file format).
#[derive(Clone, Copy)]
pub struct FrameTexts;

impl<A: Allocator + Copy> Show<A> for FrameTexts {
    ghost shows = { λ _. ShowsFrame };

    fn observes(&self) -> bool {
        false
    }

    fn show<O: Out>(
        &self,
        engine: &mut Engine<A>,
        _observer: &KeptObserver<A>,
        _number: u64,
        out: &mut O,
    ) -> Result<(), TextFault> {
        let time_step = engine.time_step();
        let frame = timed_frame(engine.state(), time_step)?;
        write(&frame, out)?;
        Ok(())
    }
}
