//! From a command line to an exit status: reads a study, simulates its branches, and writes their texts.
ghost use Rattle.std.specs.Prelude.{◌≡◌, ◌≢◌, ◌⊎◌, ◌≤◌, ◌∷◌, [], IfErr, None, OnOk};
ghost use Rattle.sim_outer.specs.Counts.{HasRisen};
ghost use Rattle.command_words.specs.Requests.{request_view};
ghost use Rattle.cloner_top.specs.Answers.{IsAnswer, IsHaltedFor, IsLawfulEnding, assignment_of, outside_of};
ghost use Rattle.cloner_top.specs.Facts.{AreFewFetches, Completes, IsCutFor, IsStoppedFor};
ghost use Rattle.cloner_top.specs.Facts.{IsToldFor, IsUnreadFor, IsWritten};
ghost use Rattle.cloner_top.specs.Fetches.{HasFetchedUpTo};
ghost use Rattle.cloner_top.specs.Outsides.{ArePutOrCut, IsStudyPut};
ghost use Rattle.cloner_top.specs.Refusals.{error_line, status_of, words_refusal};
ghost use Rattle.cloner_top.specs.Stops.{excess_line, excess_status};
ghost use Rattle.cloner_top.specs.Texts.{all_fetches};

use crate::excess::Excess;
use crate::halt::Halt;
use crate::prepare::prepare;
use crate::putting::put_text;
use crate::refusal::Refusal;
use crate::resources::Resources;
use crate::writing::write_prepared;
use command_words::{Request, WordsFault, read_words};
use crew_pool::{Gate, Workers};
use sim_base::Steps;
use sim_outer::{Inputs, Sink, Word};
use std::alloc::Global;
use std::sync::Wait;
use std::sync::ledger::Ledger;
use std::thread::Threads;

// Prepares a study, runs it and writes its texts.
fn prepare_and_write<I: Inputs, O: Sink, G: Gate + Sync, L: Ledger, R: Threads + Wait + Sync>(
    rt: &R,
    alloc: Global,
    request: &Request,
    inputs: &mut I,
    out: &mut O,
    gate: &G,
    steps: &mut Steps<L>,
) -> Result<(), Halt>
    ensures ok { OnOk result (IsStudyPut
        (IsLawfulEnding (I.view inputs.old).files (request_view request.now).assignment) steps.old steps.new
        (O.view out.old) (O.view out.new)) }
    ensures err { IfErr result (λ h. IsHaltedFor (HasRisen (I.view inputs.old).faults (I.view inputs.new).faults)
        (I.view inputs.old).files (request_view request.now).assignment steps.old steps.new
        (O.view out.old) (O.view out.new) h) }
    ensures fetched { HasFetchedUpTo (all_fetches (request_view request.now).assignment)
        (I.view inputs.old) (I.view inputs.new) result }
{
    let workers = Workers {
        count: request.workers,
    };
    let resources = Resources {
        rt,
        alloc,
        gate,
        workers,
    };
    match prepare(alloc, inputs, &request.assignment) {
        Ok(prepared) => write_prepared(&resources, &prepared, out, steps),
        Err(refusal) => Err(Halt::Refused(refusal)),
    }
}

// Writes the error line. A failed write changes nothing else.
fn report_error<E: Sink>(err: &mut E, refusal: &Refusal) -> u8
    ensures status { result ≡ status_of refusal.now }
    ensures told { ArePutOrCut (error_line refusal.now ∷ []) (E.view err.old) (E.view err.new) }
{
    let line = refusal.line();
    let _ = put_text(err, line.text().as_bytes());
    refusal.status()
}

// Writes the journal of a live study that exceeded the limit, and then the error line. If the journal is cut off, the
// line is not written.
fn report_limit<E: Sink>(err: &mut E, journal: &[u8], excess: &Excess) -> u8
    ensures status { result ≡ excess_status excess.now }
    ensures told { ArePutOrCut (journal.now ∷ excess_line excess.now ∷ []) (E.view err.old) (E.view err.new) }
{
    let line = excess.line();
    let Ok(()) = put_text(err, journal) else {
        return excess.status();
    };
    let _ = put_text(err, line.text().as_bytes());
    excess.status()
}

// Maps an error in the command line to a refusal.
fn words_refused(fault: WordsFault) -> Refusal
    ensures { result ≡ words_refusal fault }
{
    match fault {
        WordsFault::NoMemory => Refusal::OutOfMemory,
        WordsFault::Usage => Refusal::Usage,
    }
}

// Runs the command line, and writes the error line if there is no output. Returns the exit status.
fn run_or_report<I: Inputs, O: Sink, E: Sink, G: Gate + Sync, L: Ledger, R: Threads + Wait + Sync>(
    rt: &R,
    alloc: Global,
    words: &[Word],
    inputs: &mut I,
    out: &mut O,
    err: &mut E,
    gate: &G,
    steps: &mut Steps<L>,
) -> u8
    ensures answer { IsAnswer (assignment_of words.now)
        (outside_of (I.view inputs.old) (O.view out.old) (E.view err.old) steps.old)
        (outside_of (I.view inputs.new) (O.view out.new) (E.view err.new) steps.new)
        result }
    ensures later { (I.view inputs.old).faults ≤ (I.view inputs.new).faults }
    ensures same { (I.view inputs.new).files ≡ (I.view inputs.old).files }
    ensures fetches { AreFewFetches (assignment_of words.now)
        (outside_of (I.view inputs.old) (O.view out.old) (E.view err.old) steps.old)
        (outside_of (I.view inputs.new) (O.view out.new) (E.view err.new) steps.new) }
{
    let request = match read_words(alloc, words) {
        Ok(request) => request,
        Err(fault) => return report_error(err, &words_refused(fault)),
    };
    match prepare_and_write(rt, alloc, &request, inputs, out, gate, steps) {
        Ok(()) => 0,
        Err(Halt::Refused(refusal)) => report_error(err, &refusal),
        Err(Halt::Overrun { journal, excess }) => report_limit(err, journal.as_slice(), &excess),
    }
}

/// Runs the whole program: from the words of the command line to its exit status.
///
/// - `run MODEL SCRIPT` runs all clones of the script in one shared world. It writes the trace of each, and then the
///   report.
/// - `solo MODEL SCRIPT --clone NAME` runs one clone alone, and writes its trace.
/// - `live MODEL SCRIPT` runs that world while the analysts of the script decide and look. It writes their journal, and
///   then what `run` writes.
/// - `gen NUMBER` generates a model and a script from the number, runs them, and writes the report only.
/// - `watch MODEL SCRIPT WATCHES` creates a branch when a watched line gets long. It writes what `run` writes, in
///   the order of the watches.
/// - `stats MODEL SCRIPT` runs as `run` does, and writes the statistics of each clone's servers.
/// - `save MODEL SCRIPT --clone NAME --until T` runs one clone alone until T, or to its end or the horizon if they are
///   earlier. It writes the text of a snapshot.
/// - `resume MODEL SNAPSHOT` goes on from a snapshot. It writes the trace of the clone: the lines of the snapshot, and
///   those that follow.
/// - `links MODEL SCRIPT` runs in rounds with a clock for each station. It writes what `run` writes, and then the
///   number of rounds.
///
/// Each text is put in one call, and all memory is allocated before the first put. The status is 0 if everything is
/// written. Otherwise one line to the error sink says why. If a live study exceeds the limit, its journal precedes that
/// line. The other statuses:
///
/// 1. out of memory, at any place before the first put;
/// 2. the command line has no known form;
/// 3. a required file was not read: an input operation failed, or there is no such file;
/// 4. the model's text is not a model;
/// 5. the script's text is not a script;
/// 6. a decision is refused, or no clone has the name; the journal of a live study shows refusals instead;
/// 7. a log would grow longer than the model's limit before the horizon, or before the time at which a clone is saved;
/// 8. the output was cut off, only because a write failed;
/// 9. the text of the watches is invalid, or a watch does not fit;
/// 10. the snapshot's text is not a snapshot of the model;
/// 11. the text of the snapshot would be longer than a file may be.
///
/// After every status except 0 and 8 the output is unchanged.
pub fn cloner<R: Threads + Wait + Sync, I: Inputs, O: Sink, E: Sink, G: Gate + Sync, L: Ledger>(
    rt: &R,
    alloc: Global,
    words: &[Word],
    inputs: &mut I,
    out: &mut O,
    err: &mut E,
    gate: &G,
    steps: &mut Steps<L>,
) -> u8
    // what each status means
    ensures finished { result ≡ 0 → IsWritten (assignment_of words.now)
        (outside_of (I.view inputs.old) (O.view out.old) (E.view err.old) steps.old)
        (outside_of (I.view inputs.new) (O.view out.new) (E.view err.new) steps.new) }
    ensures usage { (result ≡ 2 → assignment_of words.now ≡ None)
        × (assignment_of words.now ≡ None → (result ≡ 1) ⊎ (result ≡ 2)) }
    ensures unread { result ≡ 3 → IsUnreadFor (assignment_of words.now)
        (outside_of (I.view inputs.old) (O.view out.old) (E.view err.old) steps.old)
        (outside_of (I.view inputs.new) (O.view out.new) (E.view err.new) steps.new) }
    ensures refused { 4 ≤ result → result ≢ 8 → IsStoppedFor (assignment_of words.now)
        (outside_of (I.view inputs.old) (O.view out.old) (E.view err.old) steps.old)
        (outside_of (I.view inputs.new) (O.view out.new) (E.view err.new) steps.new)
        result }
    ensures cut { result ≡ 8 → IsCutFor (assignment_of words.now)
        (outside_of (I.view inputs.old) (O.view out.old) (E.view err.old) steps.old)
        (outside_of (I.view inputs.new) (O.view out.new) (E.view err.new) steps.new) }

    // what stays unchanged, what is printed, and how much work is done
    ensures output_same { result ≢ 0 → result ≢ 8 →
        ((O.view out.new).bytes ≡ (O.view out.old).bytes) × ((O.view out.new).calls ≡ (O.view out.old).calls) }
    ensures told { result ≢ 0 → IsToldFor (assignment_of words.now)
        (outside_of (I.view inputs.old) (O.view out.old) (E.view err.old) steps.old)
        (outside_of (I.view inputs.new) (O.view out.new) (E.view err.new) steps.new)
        result }
    ensures idle { 2 ≤ result → result ≢ 7 → result ≢ 8 → result ≢ 11 → steps.new ≡ steps.old }
    ensures fetches { AreFewFetches (assignment_of words.now)
        (outside_of (I.view inputs.old) (O.view out.old) (E.view err.old) steps.old)
        (outside_of (I.view inputs.new) (O.view out.new) (E.view err.new) steps.new) }
    ensures same { (I.view inputs.new).files ≡ (I.view inputs.old).files }
    ensures later { (I.view inputs.old).faults ≤ (I.view inputs.new).faults }

    // an allowed ending is reached; and all of the above in one statement
    ensures complete { Completes (assignment_of words.now)
        (outside_of (I.view inputs.old) (O.view out.old) (E.view err.old) steps.old)
        (outside_of (I.view inputs.new) (O.view out.new) (E.view err.new) steps.new)
        result }
    ensures answer { IsAnswer (assignment_of words.now)
        (outside_of (I.view inputs.old) (O.view out.old) (E.view err.old) steps.old)
        (outside_of (I.view inputs.new) (O.view out.new) (E.view err.new) steps.new)
        result }
{
    run_or_report(rt, alloc, words, inputs, out, err, gate, steps)
}
