// The program's whole call.
ghost use Rattle.std.specs.Prelude.{◌≡◌, ◌≢◌, ◌⊎◌, ◌≤◌, ◌+◌, ℕ, List, Some, None, IsTrue, IfOk, IfErr, false, is_some};
ghost use Rattle.sm_io.specs.Faults.{HasCause, Rose};
ghost use Rattle.sm_io.specs.Files.{FileMap};
ghost use Rattle.sm_io.specs.Sink.{Took, CutOff};
ghost use Rattle.schedule_file.specs.declared.Entry.{Entry as EntryValue};
ghost use Rattle.image_text.specs.Image.{Image as ImageValue, IsImage};
ghost use Rattle.mod_layout.specs.declared.Module.{Module as ModuleValue};
ghost use Rattle.arm_balance.specs.declared.Arm.{Arm as ArmValue};
ghost use Rattle.flow_rule.specs.Terms.{no_terms};
ghost use Rattle.written_machine.specs.Peers.{section, DifferInData, Peers};
ghost use Rattle.written_machine.specs.Script.{play};
ghost use Rattle.written_machine.specs.Trace.{trace};
ghost use Rattle.written_machine.specs.View.{at, view_of};
ghost use Rattle.written_machine.specs.declared.Hidden.TheVariants.{Only};
ghost use Rattle.written_machine.specs.declared.ScriptLine.{ScriptLine as ScriptLineValue};
ghost use Rattle.cli_files.specs.declared.answers.Status.{Status as Statuses};
ghost use Rattle.cli_files.specs.declared.answers.FileFault.{FileFault as FileFaults};
ghost use Rattle.cli_calls.specs.Command.{Command, Outcome, Comes, IfAnswered, gives, judges, refuses, run_status, runs};
ghost use Rattle.link_symbols.specs.declared.fault.LinkFault.{LinkFault as LinkFaults};
ghost use Rattle.cli_calls.specs.CommandNames.{command_of};
ghost use Rattle.sm_cli.specs.Serve.{call_of};
ghost use Rattle.sm_cli.specs.CommandLine.{sancus_commands};
ghost use Rattle.cli_files.specs.Files.{IsFirstFault};
ghost use Rattle.sm_cli.specs.Input.{IsInput};
ghost use Rattle.sm_cli.specs.MonitorCommand.{script_start, script_answer};
ghost use Rattle.cli_calls.specs.Words.{texts};
ghost use Rattle.cli_calls.specs.Calls.{Serves, Refuses, IsOrOutside, Completes};

use crate::commands::read_command;
use cli_calls::end_call;
use cli_files::Status;
use sm_io::{Files, Sink};
use std::alloc::Global;

/// Does all that the program does: the command that the words are, on files and two sinks.
pub fn serve<F: Files, O: Sink, E: Sink>(
    alloc: Global,
    words: &[String],
    files: &mut F,
    out: &mut O,
    err: &mut E,
) -> Status
    // The headline: whatever image, or objects of one, schedule and bound are given, `out` takes exactly the outside
    // trace of the written machine, and `err` nothing, unless the system fails or memory runs out; and for every image
    // that differs in one confined module's data alone, whose calls give the same registers in the same cycles, it is
    // the same trace, with equal views of all but that module at every cycle.
    ensures headline { (value : ImageValue) (entries : List EntryValue) (cycles : ℕ) →
        IsInput (texts words.now) (F.content files.old) (runs value entries cycles) →
        ¬ (Rose (F.faults files.old) (F.faults files.new)) → ¬ (Rose (O.faults out.old) (O.faults out.new)) →
        ¬ (Rose (E.faults err.old) (E.faults err.new)) → result ≢ Status.NoMemory →
        (Took O.taken O.faults O.sure out.old out.new (trace value entries cycles) × (err.new ≡ err.old)
        × (result ≡ run_status (is_some (at value entries cycles).stop)))
        × IsImage value
        × ((other : ImageValue) (m : ℕ) → Peers value other m →
        Took O.taken O.faults O.sure out.old out.new (trace other entries cycles)
        × ((k : ℕ) → k ≤ cycles →
        view_of (at value entries k) (Only m) ≡ view_of (at other entries k) (Only m))) }

    // The same of a script: `out` takes exactly what it writes on the written machine from the start of the image, with
    // room for 16 marks, and the same from the start of every image that differs so.
    ensures scripts { (value : ImageValue) (entries : List EntryValue) (script : List ScriptLineValue) →
        IsInput (texts words.now) (F.content files.old) (gives (script_answer value entries script)) →
        ¬ (Rose (F.faults files.old) (F.faults files.new)) → ¬ (Rose (O.faults out.old) (O.faults out.new)) →
        ¬ (Rose (E.faults err.old) (E.faults err.new)) → result ≢ Status.NoMemory →
        (Took O.taken O.faults O.sure out.old out.new (play (script_start value entries) script) × (err.new ≡ err.old)
        × (result ≡ (script_answer value entries script).status))
        × ((other : ImageValue) (m : ℕ) → Peers value other m →
        Took O.taken O.faults O.sure out.old out.new (play (script_start other entries) script)) }

    // A module by itself: where its check is answered yes, with certificates or none, every image that has its text and
    // differs in its data alone is a peer.
    ensures checked { result ≡ Status.Done →
        (value other : ImageValue) (id : ℕ) (owner : ModuleValue) (arms : List ArmValue) →
        IsInput (texts words.now) (F.content files.old)
        (judges no_terms owner (section owner.text value.memory) arms) →
        DifferInData value other id owner → Peers value other id }

    // An answer: the words are a command that its files serve; `out` took its output, and `err` nothing.
    ensures done { result ≡ Status.Done →
        let call = call_of (texts words.now) (F.content files.old) (F.faults files.old) (F.faults files.new) in
        Serves call Status.Done (Took O.taken O.faults O.sure out.old out.new) × (err.new ≡ err.old) }
    ensures stopped { result ≡ Status.Stopped →
        let call = call_of (texts words.now) (F.content files.old) (F.faults files.old) (F.faults files.new) in
        Serves call Status.Stopped (Took O.taken O.faults O.sure out.old out.new) × (err.new ≡ err.old) }
    ensures check_no { result ≡ Status.CheckNo →
        let call = call_of (texts words.now) (F.content files.old) (F.faults files.old) (F.faults files.new) in
        Serves call Status.CheckNo (Took O.taken O.faults O.sure out.old out.new) × (err.new ≡ err.old) }

    // A refusal: it has its cause; `err` took its line, and `out` nothing.
    ensures usage { result ≡ Status.Usage →
        let call = call_of (texts words.now) (F.content files.old) (F.faults files.old) (F.faults files.new) in
        Refuses call Status.Usage (Took E.taken E.faults E.sure err.old err.new) × (out.new ≡ out.old) }
    ensures bad_file { result ≡ Status.BadFile →
        let call = call_of (texts words.now) (F.content files.old) (F.faults files.old) (F.faults files.new) in
        Refuses call Status.BadFile (Took E.taken E.faults E.sure err.old err.new) × (out.new ≡ out.old) }
    ensures link_refused { result ≡ Status.LinkRefused →
        let call = call_of (texts words.now) (F.content files.old) (F.faults files.old) (F.faults files.new) in
        Refuses call Status.LinkRefused (Took E.taken E.faults E.sure err.old err.new) × (out.new ≡ out.old) }
    ensures read_fault { result ≡ Status.ReadFault →
        let call = call_of (texts words.now) (F.content files.old) (F.faults files.old) (F.faults files.new) in
        Refuses call Status.ReadFault (Took E.taken E.faults E.sure err.old err.new) × (out.new ≡ out.old) }
    ensures no_memory { result ≡ Status.NoMemory →
        let call = call_of (texts words.now) (F.content files.old) (F.faults files.old) (F.faults files.new) in
        Refuses call Status.NoMemory (Took E.taken E.faults E.sure err.old err.new) × (out.new ≡ out.old) }

    // A sink failed: `out` took a prefix of the output, or `err` one of the line of a refusal that has its cause.
    ensures write_fault { result ≡ Status.WriteFault →
        let call = call_of (texts words.now) (F.content files.old) (F.faults files.old) (F.faults files.new) in
        ((ended : Statuses) × Serves call ended (CutOff O.taken O.faults O.sure out.old out.new)
        × (err.new ≡ err.old))
        ⊎ ((ended : Statuses) × Refuses call ended (CutOff E.taken E.faults E.sure err.old err.new)
        × (out.new ≡ out.old)) }

    // Completeness: what the words and the files call for is answered, unless the system fails or memory runs out.
    ensures complete_usage { command_of sancus_commands (texts words.now) ≡ None → IsOrOutside Status.Usage result }
    ensures complete_bad_file { (map : FileMap) (command : Command) (name : List ℕ) (fault : FileFaults) →
        F.content files.old ≡ Some map → command_of sancus_commands (texts words.now) ≡ Some command →
        IsFirstFault (Some map) command.needs name fault → IsOrOutside Status.BadFile result }
    ensures complete_link_refused { (map : FileMap) (command : Command) (fault : LinkFaults) (name : List ℕ) →
        F.content files.old ≡ Some map → command_of sancus_commands (texts words.now) ≡ Some command →
        Comes (Some map) command (refuses fault name) → IsOrOutside Status.LinkRefused result }
    ensures complete { (map : FileMap) (command : Command) (outcome : Outcome) →
        F.content files.old ≡ Some map → command_of sancus_commands (texts words.now) ≡ Some command →
        Comes (Some map) command outcome →
        let call = call_of (texts words.now) (F.content files.old) (F.faults files.old) (F.faults files.new) in
        IfAnswered outcome (λ answer. Completes result answer
        (Took O.taken O.faults O.sure out.old out.new) (CutOff O.taken O.faults O.sure out.old out.new)
        ((ended : Statuses) × Refuses call ended (CutOff E.taken E.faults E.sure err.old err.new))) }

    // Files that are sound are read without a fault.
    ensures sound { IsTrue (F.sound files.old) →
        (result ≢ Status.ReadFault) × (F.faults files.new ≡ F.faults files.old) }
    ensures same_sound { F.sound files.new ≡ F.sound files.old }
    ensures same_files { F.content files.new ≡ F.content files.old }
    ensures unread { result ≡ Status.Usage → files.new ≡ files.old }
{
    // Lemma calls, no effect at run time: the laws of two runs and of peers, for the headline and for checks.
    isolation::two_runs();
    isolation::texts();
    peer_rows::accepted_are_peers();
    let read = read_command(alloc, words);
    end_call(alloc, b"sancus", read, files, out, err)
}
