//! One call, instruction by instruction.

ghost use Rattle.std.specs.Prelude.{◌≡◌, ◌≤◌, ◌^◌, length, replicate};
ghost use Rattle.sm_words.specs.Words.{reg};
ghost use Rattle.mod_layout.specs.Table.{holds, size_of};
ghost use Rattle.mod_layout.specs.Tables.{IsSection};
ghost use Rattle.cpu_step.specs.Lone.{job_of, outcome, lone_after};
ghost use Rattle.lone_run.specs.Ends.{call_answer, data_left};
ghost use Rattle.lone_run.specs.Jobs.{lone_between};
ghost use Rattle.lone_run.specs.internal.Jobs.{lone_call};

use crate::acting::do_insn;
use crate::job::Job;
use crate::next::next_insn;
use crate::{Entry, Outcome};
use mod_layout::Module;
use sm_words::{Core, PC};

/// Sets all bytes to 0.
fn clear(bytes: &mut [u8])
    ensures { bytes.new ≡ replicate (length bytes.old) 0 }
{
    for byte in bytes.iter_mut() {
        *byte = 0;
    }
}

/// Runs the module by itself from its entry, for at most `limit` cycles.
///
/// The data are then those that it left; all 0 where it closed, and as before the instruction where it is broken.
pub fn call(
    node_key: &[u8; 16],
    module: &Module,
    text: &[u8],
    ram: &mut [u8],
    entry: &Entry,
    limit: u64,
) -> Outcome
    requires ram { IsSection «module».now.ram }
    requires text_size { length text.now ≡ size_of «module».now.text }
    requires limit { limit ≤ 2 ^ 62 }
    ensures outcome { result ≡ call_answer (outcome (job_of node_key.now «module».now text.now entry.now.caller) limit
        (lone_between entry.now.core ram.old)) }
    ensures ram { ram.new ≡ data_left (outcome (job_of node_key.now «module».now text.now entry.now.caller) limit
        (lone_between entry.now.core ram.old)) (lone_after
        (job_of node_key.now «module».now text.now entry.now.caller)
        (lone_between entry.now.core ram.old) limit).data_bytes }
{
    let job = Job {
        node_key,
        owner: module,
        text,
        caller: entry.caller,
    };
    run(&job, ram, entry.core, limit)
}

/// Whether PC is in the text.
fn is_in_text(job: &Job<'_>, core: &Core) -> bool
    ensures { result ≡ holds job.now.owner.now.text (reg core.now PC) }
{
    job.owner.text.holds(usize::from(core.get(PC)))
}

/// Runs the module from these registers, for at most `limit` cycles.
fn run(job: &Job<'_>, ram: &mut [u8], entry: Core, limit: u64) -> Outcome
    requires ram { IsSection job.now.owner.now.ram }
    requires text { length job.now.text.now ≡ size_of job.now.owner.now.text }
    requires limit { limit ≤ 2 ^ 62 }
    ensures outcome { result ≡ call_answer (outcome (lone_call job.now) limit (lone_between entry ram.old)) }
    ensures ram { ram.new ≡ data_left (outcome (lone_call job.now) limit (lone_between entry ram.old))
        (lone_after (lone_call job.now) (lone_between entry ram.old) limit).data_bytes }
{
    let mut core = entry;
    let mut cycles: u64 = 0;
    loop {
        if !is_in_text(job, &core) {
            return Outcome::Exit { core, cycles };
        }
        if cycles == limit {
            return Outcome::Running;
        }
        let insn = match next_insn(job, ram, &core) {
            Some(insn) => insn,
            None => return Outcome::Broken { cycles },
        };
        let lasts = do_insn(job, ram, &mut core, &insn);
        if u64::from(lasts.cycles) > limit - cycles {
            return Outcome::Running;
        }
        cycles += u64::from(lasts.cycles);
        if lasts.closing {
            clear(ram);
            return Outcome::Closed { core, cycles };
        }
    }
}
