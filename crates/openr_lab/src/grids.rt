ghost use Rattle.std.specs.Prelude.{◌≡◌, ◌≢◌, ◌<◌, ◌≤◌, ◌^◌, ◌⊎◌, None, IfOk};
ghost use Rattle.lab_words.specs.Command.{least_size, most_size};
ghost use Rattle.lab_words.specs.declared.words.Mode.TheVariants.{Gen};
ghost use Rattle.openr_lab.specs.Answer.{answer_grid, grid_of};
ghost use Rattle.openr_lab.specs.Ends.{IsSummed, IsUnsettledRun, GridAnswered, GridDone, GridFailed, GridUnsettled};

use crate::answer::Answer;
use crate::ended::{Ended, end_with};
use crate::streams::write_all;
use crate::texts::unsettled_line;
use lab_words::Words;
use net_grid::grid;
use net_laboratory::Show;
use net_report::summary;
use net_world::{RunFault, round_robin};
use or_base::{Bytes, NoMemory, Sink};
use std::alloc::Global;

/// The answer of mode gen: the summary of the run of a grid.
fn answer_grid(alloc: Global, size: u32) -> Result<Answer, NoMemory>
    requires low { least_size ≤ size }
    requires high { size ≤ most_size }
    ensures answer { IfOk result (λ answer. answer ≡ answer_grid size) }
    ensures status { IfOk result (λ answer. (answer.status ≡ 0) ⊎ (answer.status ≡ 4)) }
    ensures summed { IfOk result (λ answer. answer.status ≡ 0 → IsSummed size answer.text answer.run) }
    ensures unsettled { IfOk result (λ answer. answer.status ≡ 4 → IsUnsettledRun (grid_of size) answer.text answer.run) }
{
    let scenario = grid(alloc, size, Show::Routes)?;
    match round_robin(alloc, &scenario) {
        Ok(done) => Ok(Answer {
            status: 0,
            text: Bytes::from_vec(summary(alloc, &done, &scenario, size)?),
            run: Some(done),
        }),
        Err(RunFault::Unsettled { settle, done }) => Ok(Answer {
            status: 4,
            text: unsettled_line(alloc, settle)?,
            run: Some(done),
        }),
        Err(RunFault::NoMemory) => Err(NoMemory),
    }
}

/// What the program does in mode gen: it reads nothing, runs a grid of the size that the words ask for, and writes what it
/// came to.
pub fn run_grid<K: Sink>(alloc: Global, words: &Words, sink: &mut K) -> Ended
    requires mode { words.now.mode ≡ Gen }
    requires low { least_size ≤ words.now.size }
    requires high { words.now.size ≤ most_size }
    requires sink { K.faults sink.old < 2 ^ 62 }

    ensures status { (result.status ≡ 0) ⊎ ((result.status ≡ 4) ⊎ ((result.status ≡ 5) ⊎ (result.status ≡ 7))) }
    ensures answered { (result.status ≡ 0) ⊎ (result.status ≡ 4) → GridAnswered words.now (K.taken sink.old) (K.taken sink.new) result.status result.run }
    ensures done { result.status ≡ 0 → GridDone words.now (K.taken sink.old) (K.taken sink.new) result.run }
    ensures unsettled { result.status ≡ 4 → GridUnsettled words.now (K.taken sink.old) (K.taken sink.new) result.run }

    ensures memory_untaken { result.status ≡ 5 → K.taken sink.new ≡ K.taken sink.old }
    ensures memory_no_record { result.status ≡ 5 → result.run ≡ None }
    ensures write_fault { result.status ≡ 7 → K.faults sink.old < K.faults sink.new }
    ensures write_failed { result.status ≡ 7 → GridFailed words.now (K.taken sink.old) (K.taken sink.new) result.run }
    ensures no_write_fault { result.status ≢ 7 → K.faults sink.new ≡ K.faults sink.old }
{
    let Answer { status, text, run } = match answer_grid(alloc, words.size) {
        Ok(answer) => answer,
        Err(_) => return end_with(5),
    };
    match write_all(sink, text.as_slice()) {
        Ok(()) => Ended { status, run },
        Err(_) if status == 0 => Ended { status: 7, run },
        Err(_) => end_with(7),
    }
}
