ghost use Rattle.std.specs.Prelude.{◌≡◌, ◌≢◌, ◌<◌, ◌≤◌, ◌^◌, ◌⊎◌, IsTrue, None};
ghost use Rattle.openr_lab.specs.Ends.{is_status, IsAnswerStatus, IsAsked, Answered, AnswerFailed, AnsweredDone, LeftUnsettled, AnsweredBadTurn, RefusedWords, UsageFailed};
ghost use Rattle.lab_words.specs.Command.{least_size, most_size};
ghost use Rattle.lab_words.specs.declared.words.Mode.TheVariants.{Replay};

use crate::answer::Answer;
use crate::built::is_mode_built;
use crate::ended::{Ended, end_with};
use crate::grids::run_grid;
use crate::replay::answer_to;
use crate::streams::{StreamRefusal, read_all, write_all};
use crate::texts::{NOT_BUILT, USAGE};
use lab_words::{Mode, Words, WordsFault, read_words};
use or_base::{Sink, Source};
use std::alloc::Global;

/// What the program does for words that were read.
pub fn openr_plain<S: Source, K: Sink>(
    alloc: Global,
    words: &Words,
    source: &mut S,
    sink: &mut K,
) -> Ended
    requires low { least_size ≤ words.now.size }
    requires high { words.now.size ≤ most_size }
    requires source { S.faults source.old < 2 ^ 62 }
    requires sink { K.faults sink.old < 2 ^ 62 }

    ensures known { IsTrue (is_status result.status) }
    ensures not_usage { result.status ≢ 2 }
    // In mode replay the bytes decide among the statuses 0, 3, 4 and 8, and in mode gen the size between 0 and 4, with nothing
    // read; a mode that isn't built is status 3 before anything is read.
    ensures answered { IsAnswerStatus result.status
        → Answered words.now (S.left source.old) (S.left source.new) (K.taken sink.old) (K.taken sink.new) result.status result.run }
    ensures done { result.status ≡ 0
        → AnsweredDone words.now (S.left source.old) (S.left source.new) (K.taken sink.old) (K.taken sink.new) result.run }
    ensures unsettled { result.status ≡ 4
        → LeftUnsettled words.now (S.left source.old) (S.left source.new) (K.taken sink.old) (K.taken sink.new) result.run }
    ensures bad_turn { result.status ≡ 8
        → AnsweredBadTurn words.now (S.left source.old) (S.left source.new) (K.taken sink.old) (K.taken sink.new) result.run }

    ensures memory_untaken { result.status ≡ 5 → K.taken sink.new ≡ K.taken sink.old }
    ensures memory_no_record { result.status ≡ 5 → result.run ≡ None }
    // A read is tried only in mode replay.
    ensures read_replays { result.status ≡ 6 → words.now.mode ≡ Replay }
    ensures read_fault { result.status ≡ 6 → S.faults source.old < S.faults source.new }
    ensures read_untaken { result.status ≡ 6 → K.taken sink.new ≡ K.taken sink.old }
    ensures read_no_record { result.status ≡ 6 → result.run ≡ None }
    ensures no_read_fault { result.status ≢ 6 → S.faults source.new ≡ S.faults source.old }

    ensures write_fault { result.status ≡ 7 → K.faults sink.old < K.faults sink.new }
    ensures write_failed { result.status ≡ 7
        → AnswerFailed words.now (S.left source.old) (S.left source.new) (K.taken sink.old) (K.taken sink.new) result.run }
    ensures no_write_fault { result.status ≢ 7 → K.faults sink.new ≡ K.faults sink.old }
{
    if !is_mode_built(words.mode) {
        return match write_all(sink, NOT_BUILT) {
            Ok(()) => end_with(3),
            Err(_) => end_with(7),
        };
    }
    if matches!(words.mode, Mode::Gen) {
        return run_grid(alloc, words, sink);
    }
    let bytes = match read_all(alloc, source) {
        Ok(bytes) => bytes,
        Err(StreamRefusal::Fault) => return end_with(6),
        Err(StreamRefusal::NoMemory) => return end_with(5),
    };
    let Answer { status, text, run } = match answer_to(alloc, words, bytes.as_slice()) {
        Ok(answer) => answer,
        Err(_) => return end_with(5),
    };
    match write_all(sink, text.as_slice()) {
        Ok(()) => Ended { status, run },
        Err(_) if status == 0 => Ended { status: 7, run },
        Err(_) => end_with(7),
    }
}

/// All that the program does: the words are those after the program's name.
pub fn openr<S: Source, K: Sink>(
    alloc: Global,
    words: &[String],
    source: &mut S,
    sink: &mut K,
) -> Ended
    requires source { S.faults source.old < 2 ^ 62 }
    requires sink { K.faults sink.old < 2 ^ 62 }

    ensures known { IsTrue (is_status result.status) }
    // The words are wrong exactly where the status is 2, unless memory ran out or the write failed.
    ensures usage { result.status ≡ 2
        → RefusedWords words.now (S.left source.old) (S.left source.new) (K.taken sink.old) (K.taken sink.new) result.run }
    // In mode replay the bytes decide among the statuses 0, 3, 4 and 8, and in mode gen the size between 0 and 4, with nothing
    // read; a mode that isn't built is status 3 before anything is read.
    ensures answered { IsAnswerStatus result.status
        → IsAsked words.now (λ asked. Answered asked (S.left source.old) (S.left source.new) (K.taken sink.old) (K.taken sink.new) result.status result.run) }
    ensures done { result.status ≡ 0
        → IsAsked words.now (λ asked. AnsweredDone asked (S.left source.old) (S.left source.new) (K.taken sink.old) (K.taken sink.new) result.run) }
    ensures unsettled { result.status ≡ 4
        → IsAsked words.now (λ asked. LeftUnsettled asked (S.left source.old) (S.left source.new) (K.taken sink.old) (K.taken sink.new) result.run) }
    ensures bad_turn { result.status ≡ 8
        → IsAsked words.now (λ asked. AnsweredBadTurn asked (S.left source.old) (S.left source.new) (K.taken sink.old) (K.taken sink.new) result.run) }

    ensures memory_untaken { result.status ≡ 5 → K.taken sink.new ≡ K.taken sink.old }
    ensures memory_no_record { result.status ≡ 5 → result.run ≡ None }
    // A read is tried only where the words were accepted and ask for mode replay.
    ensures read_asked { result.status ≡ 6 → IsAsked words.now (λ asked. asked.mode ≡ Replay) }
    ensures read_fault { result.status ≡ 6 → S.faults source.old < S.faults source.new }
    ensures read_untaken { result.status ≡ 6 → K.taken sink.new ≡ K.taken sink.old }
    ensures read_no_record { result.status ≡ 6 → result.run ≡ None }
    ensures no_read_fault { result.status ≢ 6 → S.faults source.new ≡ S.faults source.old }

    ensures write_fault { result.status ≡ 7 → K.faults sink.old < K.faults sink.new }
    ensures write_failed { result.status ≡ 7
        → UsageFailed words.now (S.left source.old) (S.left source.new) (K.taken sink.old) (K.taken sink.new) result.run
        ⊎ IsAsked words.now (λ asked. AnswerFailed asked (S.left source.old) (S.left source.new) (K.taken sink.old) (K.taken sink.new) result.run) }
    ensures no_write_fault { result.status ≢ 7 → K.faults sink.new ≡ K.faults sink.old }
{
    match read_words(alloc, words) {
        Ok(asked) => openr_plain(alloc, &asked, source, sink),
        Err(WordsFault::Usage) => match write_all(sink, USAGE) {
            Ok(()) => end_with(2),
            Err(_) => end_with(7),
        },
        Err(WordsFault::NoMemory) => end_with(5),
    }
}
