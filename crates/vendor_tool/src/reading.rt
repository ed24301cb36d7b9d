//! The text of challenges, line by line.

ghost use Rattle.std.specs.Prelude.{◌≡◌, ◌≢◌, Ok, Err, IfOk, IfErr, IfSome};
ghost use Rattle.vendor_tool.specs.ChallengeText as spec;
ghost use Rattle.vendor_tool.specs.Challenges.{IsChallenge};

use crate::{Challenge, ChallengeFault, Challenges, MAX_CHALLENGES, MAX_CYCLE, NONCE_CYCLES};
use std::alloc::Global;
use texts::{first_space, next_line, read_decimal, read_hex_key};

/// The challenges that a text writes, in lines `CYCLE NONCE`; the last line may lack its LF.
///
/// CYCLE is a decimal of at most 17 digits, NONCE 32 lower-case hexadecimal digits. Line by line from 1, a line 4,097
/// is `TooMany`, a line of another form is `Line`, and one whose cycle is below that of the line before plus 1,600 is
/// `NotRising`. The first of these is answered, unless memory runs out before.
#[tactic(auto, unfolding(crate::specs::ChallengeText::challenges_of))]
pub fn read_challenges(alloc: Global, bytes: &[u8]) -> Result<Challenges, ChallengeFault>
    ensures read { IfOk result (λ challenges. spec.challenges_of bytes.now ≡ Ok challenges.list.items) }
    ensures refused { IfErr result (λ fault. fault ≢ ChallengeFault.NoMemory
        → spec.challenges_of bytes.now ≡ Err fault) }
{
    let mut list = Vec::new(alloc);
    let mut rest = bytes;
    let mut n = 1;
    let mut low = 0;
    while let Some((line, after)) = next_line(rest) {
        if n > MAX_CHALLENGES {
            return Err(ChallengeFault::TooMany);
        }
        let Some(challenge) = challenge_of(line) else {
            return Err(ChallengeFault::Line { n });
        };
        if challenge.cycle < low {
            return Err(ChallengeFault::NotRising { n });
        }
        if list.push(challenge).is_err() {
            return Err(ChallengeFault::NoMemory);
        }
        low = challenge.cycle + NONCE_CYCLES;
        rest = after;
        n += 1;
    }
    Ok(Challenges { list })
}

// The challenge that a line writes.
#[tactic(auto, unfolding(crate::specs::ChallengeText::challenge_of), using(crate::proofs::LineLemmas::no_nonce))]
fn challenge_of(line: &[u8]) -> Option<Challenge>
    ensures challenge { result ≡ spec.challenge_of line.now }
    ensures sound { IfSome result IsChallenge }
{
    let space = first_space(line)?;
    let cycle = read_decimal(&line[..space], MAX_CYCLE)?;
    let nonce = read_hex_key(&line[space + 1..])?;
    Some(Challenge { cycle, nonce })
}
