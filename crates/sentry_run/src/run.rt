//! A run of the Sentry, from its words to the text of its state.

ghost use Rattle.std.specs.Prelude.{◌≡◌, ◌≢◌, ◌⊎◌, ◌<◌, ◌≤◌, ℕ, true, false, [], length, map, string_bytes, Some, None};
ghost use Rattle.std.specs.Prelude.{IfSome, IfOk, IfErr, IsSomeAnd};
ghost use Rattle.sn_base.specs.Faults.{Rose, HasCause};
ghost use Rattle.sn_edge.specs.Reading.{ReadsWithin};
ghost use Rattle.sn_edge.specs.Taken.{with_taken};
ghost use Rattle.kernel_model.specs.entries.History.{any_live};
ghost use Rattle.kernel_model.specs.files.Numbers.{IsGapless, HasAllBelow, numbers_opened, numbers_drawn};
ghost use Rattle.kernel_model.specs.opening.Opening.{Refuses};
ghost use Rattle.kernel_model.specs.printed.Printed.{printed};
ghost use Rattle.kernel_model.specs.Words.{accepted};
ghost use Rattle.sentry_run.specs.Command.{command_of};
ghost use Rattle.sentry_run.specs.Causes.{status_of, is_unreadable, IsUnread, HasNotBegun, HasRun, HasNoTrace, HasText};
ghost use Rattle.sentry_run.specs.Causes.{HasFront, HasEnded, MayFailToOpen, MayFailToRead, MayFailToGrant};
ghost use Rattle.sentry_run.specs.Causes.{MayFailToStart};
ghost use Rattle.sentry_run.specs.Concluded.{Fronts, StopsShort};
ghost use Rattle.sentry_run.specs.Granted.{IsUngranted};
ghost use Rattle.mount_file.specs.Form.{HasForm};
ghost use Rattle.sentry_run.specs.Outcome.{ReadsMounts, HasMountFault, MeetsFault, first_lacking, granted, begun, most_read};
ghost use Rattle.sentry_run.specs.Outcome.{state_after};
ghost use Rattle.sentry_run.specs.Outcome.{WhereRead, WhereState, IsHistory, RefusesOpening, refused_kernel, IsOver};
ghost use Rattle.sentry_run.specs.Outcome.{asks_trace, text_of, LacksFile, ComesOut, AreLeft, LeavesInside};
ghost use Rattle.sentry_run.specs.Outcome.{IsLeftOver, IsAccepted, world_after, KeepsOutside};
ghost use Rattle.sentry_run.specs.Played.{IsStuck};
ghost use Rattle.image_walk.specs.Standing.{no_left};
ghost use Rattle.sentry_run.specs.Ran.{IsRefused, ReadsAs, FailsToRead, RanBy, RanWords};
ghost use Rattle.sentry_run.specs.Sides.{side, sides};
ghost use Rattle.sentry_run.specs.Uncounted.{AreAlikeUncounted};

use crate::conclude::{conclude, outcome};
use crate::grants::play;
use crate::outcome::{Fault, Outcome};
use crate::play::no_opening;
use crate::words::{Command, read_words};
use host_node::HostWorld;
use kernel_model::Kernel;
use mount_file::{LONGEST_MOUNT_FILE, MountFault, Mounts, read_mounts};
use sn_base::List;
use sn_edge::{EdgeErr, Sink, Source, read_all};
use sn_errno::Errno;
use std::alloc::Global;

/// The outcome of a run that did not begin.
fn refused(alloc: Global, fault: Fault) -> Outcome
    ensures { IsRefused fault result }
{
    outcome(alloc, fault, no_opening(alloc), List::new(alloc), None)
}

/// Reads and checks the mount file that a command names.
pub fn load_mounts<S: Source>(
    alloc: Global,
    command: &Command<'_>,
    files: &mut S,
) -> Result<Mounts, Fault>
    ensures read { ReadsWithin (S.told files.old) (S.told files.new) most_read }
    ensures ok { IfOk result (ReadsAs (command_of command.now) (S.told files.old)) }
    ensures form { IfOk result HasForm }
    ensures err { IfErr result (FailsToRead (command_of command.now)
        (side (S.told files.old) (S.count files.old)) (side (S.told files.new) (S.count files.new))) }
    ensures cause { HasCause (is_unreadable result) (S.count files.old) (S.count files.new) }
    ensures memory { IfErr result (λ fault. fault ≢ Fault.Mounts MountFault.Memory) }
{
    let bytes = match read_all(alloc, files, command.mounts, LONGEST_MOUNT_FILE) {
        Ok(bytes) => bytes,
        Err(EdgeErr::Failed) => return Err(Fault::SourceFault),
        Err(EdgeErr::Memory) => return Err(Fault::Memory),
    };
    match read_mounts(alloc, bytes.as_slice()) {
        Ok(mounts) => Ok(mounts),
        Err(MountFault::Memory) => Err(Fault::Memory),
        Err(fault) => Err(Fault::Mounts(fault)),
    }
}

/// Runs a command.
fn run_command<S: Source, W: HostWorld, K: Sink>(
    alloc: Global,
    command: &Command<'_>,
    files: &mut S,
    host: &mut W,
    out: &mut K,
) -> Outcome
    requires ungranted { IsUngranted (W.told host.old) }
    ensures { RanBy (command_of command.now)
        (sides (side (S.told files.old) (S.count files.old)) (side (W.told host.old) (W.count host.old))
        (side (K.told out.old) (K.count out.old)))
        (sides (side (S.told files.new) (S.count files.new)) (side (W.told host.new) (W.count host.new))
        (side (K.told out.new) (K.count out.new))) result }
{
    match load_mounts(alloc, command, files) {
        Ok(mounts) => {
            let played = play(alloc, &mounts, host);
            conclude(alloc, played, mounts, command.trace, out)
        }
        Err(fault) => refused(alloc, fault),
    }
}

/// Runs the words.
fn run_words<S: Source, W: HostWorld, K: Sink>(
    alloc: Global,
    words: &[String],
    files: &mut S,
    host: &mut W,
    out: &mut K,
) -> Outcome
    requires ungranted { IsUngranted (W.told host.old) }
    ensures { RanWords (accepted (map string_bytes words.now))
        (sides (side (S.told files.old) (S.count files.old)) (side (W.told host.old) (W.count host.old))
        (side (K.told out.old) (K.count out.old)))
        (sides (side (S.told files.new) (S.count files.new)) (side (W.told host.new) (W.count host.new))
        (side (K.told out.new) (K.count out.new))) result }
{
    match read_words(words) {
        Some(command) => run_command(alloc, &command, files, host, out),
        None => refused(alloc, Fault::Usage),
    }
}

/// Runs what the words say: it reads a mount file, grants its folders, runs its tasks and writes the text of the run.
///
/// `words` are those after the program's name. The order of work is: the words; the mount file, to its end and then
/// its rules; the grants in order; the images; the run; giving all nodes back and settling the folders; the text. The
/// first refusal in that order is the answer; memory may run out at any point before it.
pub fn run_sentry<S: Source, W: HostWorld, K: Sink>(
    alloc: Global,
    words: &[String],
    files: &mut S,
    host: &mut W,
    out: &mut K,
) -> Outcome
    // No folder of the world is granted.
    requires ungranted { IsUngranted (W.told host.old) }
    // ---- the answers and their causes
    ensures status { result.status ≡ status_of result.fault }
    ensures usage { result.fault ≡ Fault.Usage → accepted (map string_bytes words.now) ≡ None }
    ensures usage_exact { accepted (map string_bytes words.now) ≡ None → result.fault ≡ Fault.Usage }
    ensures source_fault { result.fault ≡ Fault.SourceFault → Rose (S.count files.old) (S.count files.new) }
    ensures source_exact { S.count files.old < S.count files.new → result.fault ≡ Fault.SourceFault }
    // A file that isn't there is no empty one.
    ensures source_lacking { LacksFile (accepted (map string_bytes words.now)) (S.told files.old) →
        MayFailToOpen result.fault }
    // The source is read at most to its 65,537th byte, and each read takes a byte or is the last.
    ensures source_read { ReadsWithin (S.told files.old) (S.told files.new) most_read }
    ensures mounts { (fault : MountFault) → result.fault ≡ Fault.Mounts fault →
        HasMountFault (accepted (map string_bytes words.now)) (S.told files.old) fault }
    ensures mounts_exact { (fault : MountFault) →
        MeetsFault (accepted (map string_bytes words.now)) (S.told files.old) fault → MayFailToRead fault result.fault }
    // Want of memory is told as such, whatever the source tells.
    ensures never_mounts_memory { result.fault ≢ Fault.Mounts MountFault.Memory }
    // The mount file that the outcome holds is what the bytes say.
    ensures read { ReadsMounts (accepted (map string_bytes words.now)) (S.told files.old) result.mounts }
    ensures unread { result.mounts ≡ None → IsUnread result.fault }
    ensures form { IfSome result.mounts HasForm }
    ensures host_fault { result.fault ≡ Fault.HostFault → Rose (W.count host.old) (W.count host.new) }
    // A settle leaves the count: it rises in a grant alone.
    ensures host_exact { W.count host.old < W.count host.new → result.fault ≡ Fault.HostFault }
    ensures grant { (mount : ℕ) → result.fault ≡ Fault.Grant mount →
        WhereRead result.mounts (W.told host.old) (λ m w. granted m.mounts w ≡ None) }
    ensures grant_number { (mount : ℕ) → result.fault ≡ Fault.Grant mount →
        IfSome result.mounts (λ m. (1 ≤ mount) × (mount ≤ length m.mounts)) }
    // Folders are granted in the order of their mounts, and the first that isn't there is the answer.
    ensures grant_first { (mount : ℕ) → result.fault ≡ Fault.Grant mount →
        WhereRead result.mounts (W.told host.old) (λ m w. first_lacking 1 m.mounts w ≡ Some mount) }
    ensures grant_exact { WhereRead result.mounts (W.told host.old) (λ m w.
        granted m.mounts w ≡ None → MayFailToGrant result.fault) }
    ensures image { (task : ℕ) (errno : Errno) → result.fault ≡ Fault.Image task errno →
        WhereRead result.mounts (W.told host.old) (λ m w. RefusesOpening (begun m w result.opening) task errno) }
    ensures image_exact { WhereRead result.mounts (W.told host.old) (λ m w. (k : Kernel) (task : ℕ) (errno : Errno) →
        begun m w result.opening ≡ Refuses k task errno → MayFailToStart task errno result.fault) }
    ensures sink_fault { result.fault ≡ Fault.SinkFault → Rose (K.count out.old) (K.count out.new) }
    ensures sink_exact { K.count out.old < K.count out.new → result.fault ≡ Fault.SinkFault }
    // A sink that failed has not taken all of the text.
    ensures sink_short { result.fault ≡ Fault.SinkFault → WhereRead result.mounts (W.told host.old) (λ m w.
        StopsShort (K.told out.old) (K.told out.new) (text_of (state_after m w result.opening result.trace)
        result.trace (asks_trace (accepted (map string_bytes words.now))))) }
    ensures sink_over { result.fault ≡ Fault.SinkFault →
        WhereState result.mounts (W.told host.old) result.opening result.trace (λ m w k. IsOver m result.trace k) }
    ensures done { result.fault ≡ Fault.Done →
        WhereState result.mounts (W.told host.old) result.opening result.trace (λ m w k. any_live k ≡ false) }
    ensures done_exact { WhereState result.mounts (W.told host.old) result.opening result.trace (λ m w k.
        any_live k ≡ false → ComesOut Fault.Done (K.told out.old) (K.told out.new)
        (printed k result.trace (asks_trace (accepted (map string_bytes words.now)))) result.fault) }
    ensures full { result.fault ≡ Fault.Full →
        WhereState result.mounts (W.told host.old) result.opening result.trace (λ m w k. any_live k ≡ true) }
    ensures full_length { result.fault ≡ Fault.Full → IfSome result.mounts (λ m. length result.trace ≡ m.entries) }
    // A full trace goes before tasks none of which is ready.
    ensures full_exact { WhereState result.mounts (W.told host.old) result.opening result.trace (λ m w k.
        any_live k ≡ true → length result.trace ≡ m.entries →
        ComesOut Fault.Full (K.told out.old) (K.told out.new)
        (printed k result.trace (asks_trace (accepted (map string_bytes words.now)))) result.fault) }
    ensures stuck { result.fault ≡ Fault.Stuck →
        WhereState result.mounts (W.told host.old) result.opening result.trace (λ m w k. IsStuck m result.trace k) }
    ensures stuck_length { result.fault ≡ Fault.Stuck → IfSome result.mounts (λ m. length result.trace < m.entries) }
    // With a live task and a trace that is not full a run ends nowhere but where no step is ready.
    ensures stuck_exact { WhereState result.mounts (W.told host.old) result.opening result.trace (λ m w k.
        any_live k ≡ true → length result.trace < m.entries →
        ComesOut Fault.Stuck (K.told out.old) (K.told out.new)
        (printed k result.trace (asks_trace (accepted (map string_bytes words.now)))) result.fault) }
    // ---- the trace
    ensures history { HasRun result.fault →
        WhereRead result.mounts (W.told host.old) (λ m w. IsHistory m w result.opening result.trace) }
    ensures history_memory { result.fault ≡ Fault.Memory → WhereRead result.mounts (W.told host.old) (λ m w.
        (result.trace ≡ []) ⊎ IsHistory m w result.opening result.trace) }
    ensures bound { IfSome result.mounts (λ m. length result.trace ≤ m.entries) }
    ensures empty { HasNoTrace result.fault → result.trace ≡ [] }
    ensures unread_empty { result.mounts ≡ None → result.trace ≡ [] }
    // ---- the numbers
    ensures gapless { IsGapless (numbers_opened result.opening) }
    ensures below { HasAllBelow (numbers_drawn result.opening result.trace result.left) }
    ensures left_over { WhereState result.mounts (W.told host.old) result.opening result.trace (λ m w k.
        IsLeftOver result.left k) }
    ensures left_tasks { WhereState result.mounts (W.told host.old) result.opening result.trace (λ m w k.
        AreLeft m w result k) }
    ensures left_none { HasNoTrace result.fault → result.left ≡ no_left }
    // ---- the text
    ensures text { HasText result.fault →
        WhereState result.mounts (W.told host.old) result.opening result.trace (λ m w k.
        K.told out.new ≡ with_taken (K.told out.old)
        (printed k result.trace (asks_trace (accepted (map string_bytes words.now))))) }
    ensures text_front { HasFront result.fault → WhereRead result.mounts (W.told host.old) (λ m w.
        Fronts (K.told out.old) (K.told out.new) (text_of (state_after m w result.opening result.trace)
        result.trace (asks_trace (accepted (map string_bytes words.now))))) }
    ensures text_none { HasNoTrace result.fault → K.told out.new ≡ K.told out.old }
    ensures unread_text { result.mounts ≡ None → K.told out.new ≡ K.told out.old }
    // ---- the world
    ensures world { HasRun result.fault →
        WhereState result.mounts (W.told host.old) result.opening result.trace (λ m w k.
        W.told host.new ≡ Some (world_after m result.opening result.left k w)) }
    ensures image_world { (task : ℕ) (errno : Errno) → result.fault ≡ Fault.Image task errno →
        WhereRead result.mounts (W.told host.old) (λ m w.
        IfSome (refused_kernel (begun m w result.opening)) (λ k.
        W.told host.new ≡ Some (world_after m result.opening result.left k w))) }
    // But for the counts of failed calls the world is then as it was.
    ensures image_alike { (task : ℕ) (errno : Errno) → result.fault ≡ Fault.Image task errno →
        WhereRead result.mounts (W.told host.old) (λ m w.
        IsSomeAnd (W.told host.new) (λ after. AreAlikeUncounted after w)) }
    ensures world_same { HasNotBegun result.fault → W.told host.new ≡ W.told host.old }
    ensures unread_world { result.mounts ≡ None → W.told host.new ≡ W.told host.old }
    ensures outside { result.fault ≡ Fault.Memory →
        WhereRead result.mounts (W.told host.old) (λ m w. KeepsOutside m w (W.told host.new)) }
    // Also where memory runs out, all nodes are given back and the folders are settled.
    ensures inside { result.fault ≡ Fault.Memory → WhereRead result.mounts (W.told host.old) (λ m w.
        LeavesInside m w result (W.told host.new)) }
    // ---- what is accepted comes to its end
    ensures complete { IsAccepted (accepted (map string_bytes words.now)) (S.told files.old)
        (W.told host.old) result.opening →
        (Rose (S.count files.old) (S.count files.new) → ⊥) → (Rose (W.count host.old) (W.count host.new) → ⊥) →
        (Rose (K.count out.old) (K.count out.new) → ⊥) → HasEnded result.fault }
{
    run_words(alloc, words, files, host, out)
}
