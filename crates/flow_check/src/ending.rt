//! What is wrong where a call ends.

ghost use Rattle.std.specs.Prelude.{◌≡◌, ◌∷◌, List, ℕ, slice_set};
ghost use Rattle.flow_rule.specs.declared.Val.{Val};
ghost use Rattle.flow_rule.specs.Values.{set_each};
ghost use Rattle.flow_rule.specs.Violations.{exit_violations, word_violations};
ghost use Rattle.flow_rule.specs.Going.{closes, exit_step};
ghost use Rattle.flow_check.specs.internal.Violations.{noted};
ghost use Rattle.flow_check.specs.internal.Terms.{terms_in};

use crate::domain::{Core, get, is_secret};
use crate::memory::{known, word_number};
use crate::program::Program;
use crate::violation::{Violation, note, note_if};
use flow_rule::{Reason, Val};
use mod_layout::Module;

/// What is wrong with these registers: the lowest that is Secret.
fn check_registers(pc: u16, core: &Core, least: &mut Option<Violation>)
    ensures { least.new ≡ noted (exit_violations 16 0 pc core.now) least.old }
{
    for n in 0..16u8 {
        if is_secret(get(core, n)) {
            note(least, pc, Reason::SecretAtExit, u16::from(n));
            return;
        }
    }
}

/// One register is as if it were Public.
fn set_public(core: &mut Core, n: u8)
    ensures { core.new ≡ slice_set core.old n Val.Public }
{
    if n < 16 {
        core[usize::from(n)] = Val::Public;
    }
}

/// One answer is as if it were Public, before others.
fn bare_one(core: &mut Core, answer: u8)
    ensures { (rest : List ℕ) → set_each (answer ∷ rest) Val.Public core.old ≡ set_each rest Val.Public core.new }
{
    set_public(core, answer);
}

/// The registers with the answers as if they were Public.
fn bare(core: &Core, answers: &[u8]) -> Core
    ensures { result ≡ set_each answers.now Val.Public core.now }
{
    let mut bare = *core;
    for answer in answers {
        bare_one(&mut bare, *answer);
    }
    bare
}

/// What is wrong with a public word, before others.
#[tactic(auto, using(crate::proofs::Violations::word_more))]
fn check_word(module: &Module, pc: u16, words: &[Val], addr: u16, least: &mut Option<Violation>)
    ensures { (rest : List ℕ) → noted (word_violations module.now pc words.now (addr ∷ rest)) least.old
        ≡ noted (word_violations module.now pc words.now rest) least.new }
{
    let secret = is_secret(known(words, word_number(module, addr)));
    note_if(secret, least, pc, Reason::DataAtExit, addr);
}

/// What is wrong with these public words.
fn check_words(
    module: &Module,
    pc: u16,
    words: &[Val],
    public: &[u16],
    least: &mut Option<Violation>,
)
    ensures { least.new ≡ noted (word_violations module.now pc words.now public.now) least.old }
{
    for addr in public {
        check_word(module, pc, words, *addr, least);
    }
}

/// Closes the module with these registers.
pub fn close(program: &Program<'_>, pc: u16, core: &Core, least: &mut Option<Violation>)
    ensures { least.new ≡ noted (closes (terms_in program.now) pc core.now).violations least.old }
{
    let bare = bare(core, program.answers);
    check_registers(pc, &bare, least);
}

/// Leaves the module with this state.
#[tactic(auto, using(crate::proofs::Violations::noted_append))]
pub fn leave(
    program: &Program<'_>,
    pc: u16,
    core: &Core,
    words: &[Val],
    least: &mut Option<Violation>,
)
    ensures { least.new ≡ noted
        (exit_step (terms_in program.now) program.now.module.now pc core.now words.now).violations
        least.old }
{
    check_words(program.module, pc, words, program.public, least);
    close(program, pc, core, least);
}
