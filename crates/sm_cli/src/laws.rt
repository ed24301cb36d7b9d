//! The laws of commands and of workloads, each the contract of a function with an empty body.
ghost use Rattle.sm_cli.specs.Joins.{LinkWritesImages, CommandsJoin, VendorTells};
ghost use Rattle.sm_cli.specs.Laws.{AnswersAreTaken, HasOneAnswer, IsAnswered, IsDecided, LinesAreTaken, RunsAreAlike, RunsStop};

use sm_io::Sink;

/// Whatever the files are that are told, a command has one answer, or one of its files is refused, or objects do not link.
pub fn every_command()
    ensures decided { IsDecided }
    ensures answered { IsAnswered }
    ensures one { HasOneAnswer }
{}

/// What `link` writes is an image; where it is checked, every image that differs in the module's data alone runs as the
/// objects do.
pub fn commands_join()
    ensures images { LinkWritesImages }
    ensures joined { CommandsJoin }
{
    // Lemma calls, no effect at run time: linked images, accepted texts, and the laws of two runs.
    linker::laws::linked_is_image();
    peer_rows::accepted_are_peers();
    isolation::two_runs();
    isolation::texts();
}

/// A vendor is told Done exactly of a machine that sent the tags under the key of the module's identity.
pub fn vendor_tells()
    ensures tagged { VendorTells }
{
    // Lemma calls, no effect at run time: what is read off a machine's trace, and what is genuine.
    machine_replies::machine_replies();
    vendor_tool::laws::genuine_is_tagged();
}

/// A run is answered Stopped, and its trace tells a stop, exactly where a check is refused in some cycle below its bound.
pub fn runs_stop()
    ensures stopped { RunsStop }
{
    // Lemma call, no effect at run time: a machine stops, and tells it, by the first check that is refused.
    run_laws::tells();
}

/// A sink that is sure of as many bytes as an answer, or a refusal's line, may have is not cut off within one, so `serve` on two
/// such sinks does not answer `WriteFault`.
pub fn sure_sinks_take_all<S: Sink>()
    ensures answers { AnswersAreTaken S.taken S.faults S.sure }
    ensures lines { LinesAreTaken S.taken S.faults S.sure }
{}

/// The runs of a seed are told alike, whatever their module's data, and so both runs of `make`.
pub fn runs_are_alike()
    ensures alike { RunsAreAlike }
{
    // Lemma calls, no effect at run time: the laws of two runs, and that the runs' images are peers.
    isolation::two_runs();
    isolation::texts();
    workload_peers::workloads_are_peers();
}
