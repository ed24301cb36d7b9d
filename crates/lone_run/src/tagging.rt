//! The tag that a module makes of a message.

ghost use Rattle.std.specs.Prelude.{◌≡◌, ◌≤◌, ◌+◌, ◌++◌, ℕ, List, length, map};
ghost use Rattle.mod_layout.specs.Table.{size_of};
ghost use Rattle.mod_keys.specs.Fed.{IsFed};
ghost use Rattle.mod_keys.specs.Keys.{tag_of};
ghost use Rattle.pc_access.specs.declared.Kind.TheVariants.{Read, Write};
ghost use Rattle.attest.specs.Units.{each_byte};
ghost use Rattle.cpu_step.specs.Lone.{lone_read, lone_writes};
ghost use Rattle.lone_run.specs.internal.Jobs.{lone_call};

use crate::job::{Job, byte, write};
use cpu_step::{Access, Kind};
use mod_keys::{Hmac, module_key};
use mod_layout::Module;
use sm_words::Width;

/// Feeds so many bytes from `start` on.
#[tactic(auto, using(crate::proofs::Tags::fed_more, crate::proofs::Tags::fed_none))]
fn feed(hmac: &mut Hmac, job: &Job<'_>, ram: &[u8], start: u16, count: u16)
    requires { start + count ≤ 65536 }
    ensures { (key message : List ℕ) → IsFed hmac.old key message
        → IsFed hmac.new key (message ++ map (lone_read (lone_call job.now) ram.now) (each_byte Read start count)) }
{
    for k in 0..count {
        let value = byte(job, ram, usize::from(start + k)) as u8;
        hmac.update(&[value]);
    }
}

/// The tag of so many bytes from `start` on, under the module's key.
pub fn tag_of(job: &Job<'_>, ram: &[u8], start: u16, count: u16) -> [u8; 16]
    requires text { length job.now.text.now ≡ size_of job.now.owner.now.text }
    requires fits { start + count ≤ 65536 }
    ensures { result ≡ tag_of job.now.node_key.now job.now.owner.now job.now.text.now
        (map (lone_read (lone_call job.now) ram.now) (each_byte Read start count)) }
{
    let key = module_key(job.node_key, job.owner, job.text);
    let mut hmac = Hmac::new(&key);
    feed(&mut hmac, job, ram, start, count);
    hmac.tag()
}

/// Writes 16 bytes from `start` on.
#[tactic(auto, using(crate::proofs::Tags::stored_more, crate::proofs::Tags::stored_all))]
pub fn store(owner: &Module, ram: &mut [u8], start: u16, tag: &[u8; 16])
    requires { start + 16 ≤ 65536 }
    ensures { ram.new ≡ lone_writes owner.now ram.old (each_byte Write start 16) tag.now }
{
    for k in 0..16u16 {
        let access = Access {
            kind: Kind::Write,
            addr: start + k,
            width: Width::Byte,
        };
        write(owner, ram, access, u16::from(tag[usize::from(k)]));
    }
}
