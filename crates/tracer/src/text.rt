//! The lines as text.
ghost use Rattle.std.specs.Prelude.{◌≡◌, ◌+◌, ◌≤◌, ◌<◌, ◌++◌, ◌∷◌, [], length};
ghost use Rattle.arrayvec.specs.ArrayString.{array_string_len};
ghost use Rattle.tracer.specs.Lines.{rule_name, registers_from, event_text, event_line, end_text, end_line_at};

use crate::{EndState, Event};
use arrayvec::ArrayString;
use itoa::Integer;
use pc_access::{Rule, Stop};
use sm_words::Core;
use texts::{push_decimal, push_hex_byte, push_hex_word};

/// Sets `out` to the line of an event of this cycle, with its LF.
///
/// Numbers of modules and vectors are shown in decimal, words as four and bytes as two hexadecimal
/// digits. No line is longer than 71 bytes.
#[tactic(auto, unfolding(crate::specs::Lines::event_line))]
pub fn line(cycle: u64, event: &Event, out: &mut ArrayString<80>)
    ensures text { out.new.bytes ≡ event_line cycle event.now }
    ensures fits { array_string_len out.new ≤ 71 }
{
    out.clear();
    push_decimal(cycle, out);
    out.push_str(" ");
    push_event(event, out);
    out.push_str("\n");
}

/// Sets `out` to the last line of a run, after `cycle` cycles, with its LF.
///
/// The registers are shown where no module is active, and nowhere else. No line is longer than 113 bytes.
#[tactic(auto, unfolding(crate::specs::Lines::end_line_at))]
pub fn end_line(cycle: u64, state: &EndState, out: &mut ArrayString<160>)
    ensures text { out.new.bytes ≡ end_line_at cycle state.now }
    ensures fits { array_string_len out.new ≤ 113 }
{
    out.clear();
    push_labelled("end ", cycle, out);
    out.push_str(" ");
    push_end(state, out);
    out.push_str("\n");
}

/// Appends what a line says of its event.
fn push_event(event: &Event, out: &mut ArrayString<80>)
    requires room { array_string_len out.old ≤ 21 }
    ensures text { out.new.bytes ≡ out.old.bytes ++ event_text event.now }
    ensures most { array_string_len out.new ≤ array_string_len out.old + 49 }
{
    match *event {
        Event::Resume { module } => push_labelled("resume ", module, out),
        Event::Close { module } => push_labelled("close ", module, out),
        Event::Handler { pc } => {
            out.push_str("handler pc ");
            push_hex_word(pc, out);
        }
        Event::Leave { module, pc } => {
            push_labelled("leave ", module, out);
            out.push_str(" pc ");
            push_hex_word(pc, out);
        }
        Event::Hide { module, vector } => {
            push_labelled("hide ", module, out);
            push_labelled(" vector ", vector, out);
        }
        Event::Irq { vector } => push_labelled("irq ", vector, out),
        Event::Enter { module, from } => {
            push_labelled("enter ", module, out);
            push_labelled(" from ", from, out);
        }
        Event::Reti => out.push_str("reti"),
        Event::Protect { module } => push_labelled("protect ", module, out),
        Event::Out { byte } => {
            out.push_str("out ");
            push_hex_byte(byte, out);
        }
        Event::Stop(stop) => push_stop(stop, out),
    }
}

/// Appends why and where the machine stopped.
fn push_stop(stop: Stop, out: &mut ArrayString<80>)
    requires room { array_string_len out.old ≤ 31 }
    ensures text { out.new.bytes ≡ out.old.bytes ++ event_text (Event.Stop stop) }
    ensures most { array_string_len out.new ≤ array_string_len out.old + 49 }
{
    out.push_str("stop ");
    out.push_str(rule_name(stop.rule));
    out.push_str(" pc ");
    push_hex_word(stop.pc, out);
    out.push_str(" addr ");
    push_hex_word(stop.addr, out);
    push_labelled(" module ", stop.module, out);
}

fn rule_name(rule: Rule) -> &'static str
    ensures name { result.now ≡ rule_name rule }
    ensures most { length result.now ≤ 13 }
{
    match rule {
        Rule::FetchNotEntry => "FetchNotEntry",
        Rule::FetchData => "FetchData",
        Rule::ReadData => "ReadData",
        Rule::WriteData => "WriteData",
        Rule::WriteText => "WriteText",
        Rule::Reenter => "Reenter",
        Rule::RetiInside => "RetiInside",
        Rule::Straddle => "Straddle",
        Rule::Misaligned => "Misaligned",
        Rule::Illegal => "Illegal",
        Rule::FetchDevice => "FetchDevice",
    }
}

/// Appends how a run stands at its end.
fn push_end(state: &EndState, out: &mut ArrayString<160>)
    requires room { array_string_len out.old ≤ 25 }
    ensures text { out.new.bytes ≡ out.old.bytes ++ end_text state.now }
    ensures most { array_string_len out.new ≤ array_string_len out.old + 87 }
{
    match state {
        EndState::Stopped => out.push_str("stopped"),
        EndState::Inside(module) => push_labelled("inside ", *module, out),
        EndState::Outside(core) => {
            out.push_str("outside");
            push_registers(core, out);
        }
    }
}

/// Appends the sixteen registers, each after a space.
fn push_registers(core: &Core, out: &mut ArrayString<160>)
    requires room { array_string_len out.old ≤ 80 }
    ensures text { out.new.bytes ≡ out.old.bytes ++ registers_from core.now 0 16 }
    ensures most { array_string_len out.new ≡ array_string_len out.old + 80 }
{
    for n in 0..16u8 {
        out.push_str(" ");
        push_hex_word(core.get(n), out);
    }
}

/// Appends a label and a number in decimal.
fn push_labelled<I: Integer, const N: usize>(label: &str, number: I, out: &mut ArrayString<N>)
    requires room { array_string_len out.old + length label.now + I.MAX_STR_LEN ≤ N }
    ensures text { out.new.bytes ≡ out.old.bytes ++ label.now ++ I.text number }
    ensures most { array_string_len out.new ≤ array_string_len out.old + length label.now + I.MAX_STR_LEN }
{
    out.push_str(label);
    push_decimal(number, out);
}
