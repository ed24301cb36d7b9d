//! Judging replies.

ghost use Rattle.std.specs.Prelude.{◌≡◌, ◌<◌, ◌++◌, codes, IfOk, MatchResult};
ghost use Rattle.sm_io.specs.Sink.{Took, CutOff, Puts};
ghost use Rattle.mod_keys.specs.Mac.{short_hmac};
ghost use Rattle.vendor_tool.specs.Report as spec;

use crate::{Challenges, Judgement, NONCE_LENGTH};
use mod_keys::{Hmac, TAG_LENGTH};
use sm_io::{Failed, Sink, put_all};
use texts::decimal;

/// Puts a line for each challenge, with its number from 0: `genuine` where the sixteen bytes in its place are the tag
/// of its nonce under `key`, `wrong` where they are not, and `missing` where the replies end before. Says whether all
/// are genuine. After `Failed` the sink has taken a front of the lines that is shorter, and its count of faults rose.
pub fn report<S: Sink>(
    key: &[u8; TAG_LENGTH],
    challenges: &Challenges,
    replies: &[u8],
    sink: &mut S,
) -> Result<bool, Failed>
    ensures genuine { IfOk result (λ all. all ≡ spec.all_genuine key.now challenges.now.list.items replies.now) }
    ensures lines { MatchResult result
        (λ _. Took S.taken S.faults S.sure sink.old sink.new
        (spec.report_text key.now challenges.now.list.items replies.now))
        (λ _. CutOff S.taken S.faults S.sure sink.old sink.new
        (spec.report_text key.now challenges.now.list.items replies.now)) }
{
    let mut all_genuine = true;
    let mut place = 0;
    for challenge in &challenges.list {
        let judgement = judge(key, &challenge.nonce, replies, place);
        match put_judgement(sink, place, judgement) {
            Ok(()) => {}
            Err(Failed) => return Err(Failed),
        }
        all_genuine = all_genuine && is_genuine(judgement);
        place += 1;
    }
    Ok(all_genuine)
}

// What the replies say of the challenge of this number.
fn judge(
    key: &[u8; TAG_LENGTH],
    nonce: &[u8; NONCE_LENGTH],
    replies: &[u8],
    place: usize,
) -> Judgement
    requires { place < 4096 }
    ensures { result ≡ spec.judgement key.now nonce.now replies.now place }
{
    let start = TAG_LENGTH * place;
    if replies.len() < start + TAG_LENGTH {
        return Judgement::Missing;
    }
    let tag = tag_of(key, nonce);
    if &replies[start..start + TAG_LENGTH] == tag.as_slice() {
        Judgement::Genuine
    } else {
        Judgement::Wrong
    }
}

// The tag of a nonce.
fn tag_of(key: &[u8; TAG_LENGTH], nonce: &[u8; NONCE_LENGTH]) -> [u8; TAG_LENGTH]
    ensures { result ≡ short_hmac key.now nonce.now }
{
    let mut hmac = Hmac::new(key);
    hmac.update(nonce);
    hmac.tag()
}

fn is_genuine(judgement: Judgement) -> bool
    ensures { result ≡ spec.is_genuine judgement }
{
    match judgement {
        Judgement::Genuine => true,
        Judgement::Wrong | Judgement::Missing => false,
    }
}

// Puts the line of the challenge of this number.
fn put_judgement<S: Sink>(sink: &mut S, place: usize, judgement: Judgement) -> Result<(), Failed>
    ensures { Puts S.taken S.faults S.sure sink.old sink.new (spec.judgement_line place judgement) result }
{
    let number = decimal(place as u64);
    put_line(
        sink,
        number.as_str().as_bytes(),
        name_of(judgement).as_bytes(),
    )
}

// Puts a line of two words.
fn put_line<S: Sink>(sink: &mut S, number: &[u8], name: &[u8]) -> Result<(), Failed>
    ensures { Puts S.taken S.faults S.sure sink.old sink.new
        (number.now ++ (codes " " ++ (name.now ++ codes "\n"))) result }
{
    match put_all(sink, number) {
        Ok(()) => {}
        Err(Failed) => return Err(Failed),
    }
    match put_all(sink, b" ") {
        Ok(()) => {}
        Err(Failed) => return Err(Failed),
    }
    match put_all(sink, name) {
        Ok(()) => {}
        Err(Failed) => return Err(Failed),
    }
    put_all(sink, b"\n")
}

fn name_of(judgement: Judgement) -> &'static str
    ensures { result.now ≡ spec.judgement_name judgement }
{
    match judgement {
        Judgement::Genuine => "genuine",
        Judgement::Wrong => "wrong",
        Judgement::Missing => "missing",
    }
}
