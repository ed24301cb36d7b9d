//! What a machine sent, by its trace.

ghost use Rattle.std.specs.Prelude.{◌≡◌, ◌≢◌, ◌++◌, Ok, Err, IfOk, IfErr, OnOk, option_to_list};
ghost use Rattle.vendor_tool.specs.Replies as spec;

use crate::TraceFault;
use crate::trace_line::{Kind, ends, kind_of, tells_byte};
use std::alloc::{AllocError, Global};
use texts::{read_hex_byte, split_line};

/// The bytes that a trace says were sent, in their order.
///
/// Line by line from 1, a line is refused as `Line` that has none of the forms of a trace's lines, lacks its LF, or
/// follows the end line. Where every line serves and the last is no end line, the refusal is `NoEnd`. Numbers of a
/// trace have no leading zeros, and may be of any size.
pub fn read_replies(alloc: Global, trace: &[u8]) -> Result<Vec<u8>, TraceFault>
    ensures read { IfOk result (λ replies. spec.replies_of trace.now ≡ Ok replies.items) }
    ensures refused { IfErr result (λ fault. fault ≢ TraceFault.NoMemory
        → spec.replies_of trace.now ≡ Err fault) }
{
    let mut replies = Vec::new(alloc);
    let mut rest = trace;
    let mut before = 0;
    while let Some((line, after)) = split_line(rest) {
        let Some((kind, sent)) = told_by(line) else {
            return Err(TraceFault::Line { n: before + 1 });
        };
        if ends(kind) {
            return if after.is_empty() {
                Ok(replies)
            } else {
                Err(TraceFault::Line { n: before + 2 })
            };
        }
        if push_byte(sent, &mut replies).is_err() {
            return Err(TraceFault::NoMemory);
        }
        rest = after;
        before += 1;
    }
    if rest.is_empty() {
        Err(TraceFault::NoEnd)
    } else {
        Err(TraceFault::Line { n: before + 1 })
    }
}

// The kind of a line, and the byte that it says was sent, if it says so.
#[tactic(auto, unfolding(crate::specs::Replies::told_by))]
fn told_by(line: &[u8]) -> Option<(Kind, Option<u8>)>
    ensures { result ≡ spec.told_by line.now }
{
    let kind = kind_of(line)?;
    if !tells_byte(kind) {
        return Some((kind, None));
    }
    let byte = last_byte(line)?;
    Some((kind, Some(byte)))
}

// Appends the byte that was sent, if one was.
fn push_byte(sent: Option<u8>, replies: &mut Vec<u8>) -> Result<(), AllocError>
    ensures { OnOk result (replies.new.items ≡ replies.old.items ++ option_to_list sent) }
{
    if let Some(byte) = sent {
        replies.push(byte)?;
    }
    Ok(())
}

// The byte that the last two digits of a line write.
fn last_byte(line: &[u8]) -> Option<u8>
    ensures { result ≡ spec.last_byte line.now }
{
    read_hex_byte(&line[line.len().saturating_sub(2)..])
}
