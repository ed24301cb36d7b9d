//! The program's whole call.
ghost use Rattle.std.specs.Prelude.{◌≡◌, ◌≢◌, ℕ, List, Some, None, IsTrue, codes};
ghost use Rattle.sm_io.specs.Files.{FileMap};
ghost use Rattle.sm_io.specs.Sink.{Took, CutOff};
ghost use Rattle.link_symbols.specs.declared.fault.LinkFault.{LinkFault as LinkFaults};
ghost use Rattle.cli_files.specs.declared.answers.FileFault.{FileFault as FileFaults};
ghost use Rattle.cli_files.specs.declared.answers.Status.{Status as Statuses};
ghost use Rattle.cli_files.specs.Files.{IsFirstFault};
ghost use Rattle.cli_calls.specs.Calls.{Completes, Ended, IsOrOutside, Refuses, called};
ghost use Rattle.cli_calls.specs.Command.{Command, Comes, IfAnswered, Outcome, refuses};
ghost use Rattle.cli_calls.specs.Offers.{terms_by};
ghost use Rattle.cli_calls.specs.Words.{texts};
ghost use Rattle.image_text.specs.Image.{Image};
ghost use Rattle.mod_layout.specs.declared.Module.{Module};
ghost use Rattle.flow_laws.specs.Laws.{AgreeOn};
ghost use Rattle.terms_file.specs.declared.Term.{Term};
ghost use Rattle.written_machine.specs.Peers.{DifferInData, Peers, PeersBut, section};
ghost use Rattle.cli_calls.specs.CommandNames.{command_of};
ghost use Rattle.lab_cli.specs.CommandLine.{lab_commands};
ghost use Rattle.lab_cli.specs.Offerings.{AreAccepted, IsOffering};
ghost use Rattle.lab_cli.specs.Releases.{IsRelease};
ghost use Rattle.lab_cli.specs.Sweeps.{IsSweep};

use crate::commands::read_command;
use cli_calls::end_call;
use cli_files::Status;
use sm_io::{Files, Sink};
use std::alloc::Global;

/// Does all that the program does: the command that the words are, on files and two sinks.
pub fn serve<F: Files, O: Sink, E: Sink>(
    alloc: Global,
    words: &[String],
    files: &mut F,
    out: &mut O,
    err: &mut E,
) -> Status
    // An answer, or the line of a refusal, as words and files call for.
    ensures ended { Ended (called (codes "sancus-lab") (command_of lab_commands (texts words.now)) (F.content files.old)
        (F.faults files.old) (F.faults files.new)) result
        (Took O.taken O.faults O.sure out.old out.new) (CutOff O.taken O.faults O.sure out.old out.new)
        (Took E.taken E.faults E.sure err.old err.new) (CutOff E.taken E.faults E.sure err.old err.new)
        (err.new ≡ err.old) (out.new ≡ out.old) }

    // Completeness: what the words and the files call for is answered, unless the system fails or memory runs out.
    ensures complete_usage { command_of lab_commands (texts words.now) ≡ None → IsOrOutside Status.Usage result }
    ensures complete_bad_file { (map : FileMap) (command : Command) (name : List ℕ) (fault : FileFaults) →
        F.content files.old ≡ Some map → command_of lab_commands (texts words.now) ≡ Some command →
        IsFirstFault (Some map) command.needs name fault → IsOrOutside Status.BadFile result }
    ensures complete_link_refused { (map : FileMap) (command : Command) (fault : LinkFaults) (name : List ℕ) →
        F.content files.old ≡ Some map → command_of lab_commands (texts words.now) ≡ Some command →
        Comes (Some map) command (refuses fault name) → IsOrOutside Status.LinkRefused result }
    ensures complete { (map : FileMap) (command : Command) (outcome : Outcome) →
        F.content files.old ≡ Some map → command_of lab_commands (texts words.now) ≡ Some command →
        Comes (Some map) command outcome →
        let call = called (codes "sancus-lab") (command_of lab_commands (texts words.now)) (F.content files.old)
        (F.faults files.old) (F.faults files.new) in
        IfAnswered outcome (λ answer. Completes result answer
        (Took O.taken O.faults O.sure out.old out.new) (CutOff O.taken O.faults O.sure out.old out.new)
        ((ended : Statuses) × Refuses call ended (CutOff E.taken E.faults E.sure err.old err.new))) }

    // Of images that differ in one confined module's data alone, whose calls by itself are the same with both, no row differs.
    ensures peers { (first second : Image) (id : ℕ) → IsSweep (texts words.now) (F.content files.old) first second →
        Peers first second id → result ≢ Status.CheckNo }

    // A module judged yes under terms: every image that differs in its data alone, and in no public word, is a peer but for the answers.
    ensures released { result ≡ Status.Done → (value other : Image) (id : ℕ) (owner : Module) (terms : List Term) →
        IsRelease (texts words.now) (F.content files.old) value id terms → DifferInData value other id owner →
        AgreeOn owner (terms_by terms).public (section owner.ram value.memory) (section owner.ram other.memory) →
        PeersBut value other id (terms_by terms).answers }

    // Terms that are offered are some of the granted ones, and the module is judged yes under them.
    ensures offered { result ≡ Status.Done → (value : Image) (owner : Module) (granted : List Term) →
        IsOffering (texts words.now) (F.content files.old) value owner granted →
        AreAccepted value owner granted (Took O.taken O.faults O.sure out.old out.new) }

    // Files that are sound are read without a fault.
    ensures sound { IsTrue (F.sound files.old) →
        (result ≢ Status.ReadFault) × (F.faults files.new ≡ F.faults files.old) }
    ensures same_sound { F.sound files.new ≡ F.sound files.old }
    ensures same_files { F.content files.new ≡ F.content files.old }
    ensures unread { result ≡ Status.Usage → files.new ≡ files.old }
{
    pulse_sweep::laws::peers();
    peer_rows::accepted_are_peers();
    terms_file::laws::terms_name_answers();
    let read = read_command(alloc, words);
    end_call(alloc, b"sancus-lab", read, files, out, err)
}
