// Lines of text, put to a sink.
ghost use Rattle.std.specs.Prelude.{◌++◌, codes};
ghost use Rattle.std.specs.Fmt.{decimal};
ghost use Rattle.sm_io.specs.Sink.{Puts};
ghost use Rattle.cli_files.specs.Faults.{challenge_fault_text, fault_text, image_fault_text, schedule_fault_text, table_fault_text, trace_fault_text, arms_fault_text, terms_fault_text, script_fault_text};
ghost use Rattle.cli_files.specs.Refusal.{refusal_line, refusal_text, link_end};
ghost use Rattle.cli_files.specs.NameText.{name_text};
ghost use Rattle.cli_files.specs.LinkFaults.{link_fault_text};

use crate::answers::Refused;
use crate::faults::{
    put_both, put_layout_fault, put_link_fault, put_object_fault, put_source_fault,
};
use crate::{FileFault, Refusal};
use arm_balance::ArmsFault;
use image_text::ImageFault;
use linker::LinkFault;
use mod_layout::TableFault;
use schedule_file::ScheduleFault;
use script_file::ScriptFault;
use sm_io::{Failed, Sink, put_all};
use terms_file::TermsFault;
use vendor_tool::{ChallengeFault, TraceFault};

/// Puts a name and a number.
pub fn put_field<S: Sink>(sink: &mut S, name: &[u8], number: u64) -> Result<(), Failed>
    ensures { Puts S.taken S.faults S.sure sink.old sink.new (name.now ++ decimal number) result }
{
    match put_all(sink, name) {
        Ok(()) => {}
        Err(Failed) => return Err(Failed),
    }
    put_all(sink, texts::decimal(number).as_str().as_bytes())
}

fn put_table_fault<S: Sink>(sink: &mut S, fault: TableFault) -> Result<(), Failed>
    ensures { Puts S.taken S.faults S.sure sink.old sink.new (table_fault_text fault) result }
{
    match fault {
        TableFault::Empty => put_all(sink, b"Empty"),
        TableFault::Odd => put_all(sink, b"Odd"),
        TableFault::Overlap { with } => put_field(sink, b"Overlap ", u64::from(with)),
        TableFault::Reserved => put_all(sink, b"Reserved"),
        TableFault::Full => put_all(sink, b"Full"),
        TableFault::Spent => put_all(sink, b"Spent"),
    }
}

fn put_refused_module<S: Sink>(sink: &mut S, id: u64, fault: TableFault) -> Result<(), Failed>
    ensures { Puts S.taken S.faults S.sure sink.old sink.new ((codes "Table " ++ decimal id)
        ++ (codes " " ++ table_fault_text fault)) result }
{
    match put_field(sink, b"Table ", id) {
        Ok(()) => {}
        Err(Failed) => return Err(Failed),
    }
    match put_all(sink, b" ") {
        Ok(()) => {}
        Err(Failed) => return Err(Failed),
    }
    put_table_fault(sink, fault)
}

fn put_image_fault<S: Sink>(sink: &mut S, fault: ImageFault) -> Result<(), Failed>
    ensures { Puts S.taken S.faults S.sure sink.old sink.new (image_fault_text fault) result }
{
    match fault {
        ImageFault::Line { n } => put_field(sink, b"Line ", n),
        ImageFault::Digit { at } => put_field(sink, b"Digit ", at),
        ImageFault::Twice { addr } => put_field(sink, b"Twice ", u64::from(addr)),
        ImageFault::Table { module, fault } => put_refused_module(sink, module, fault),
        ImageFault::Version { n } => put_field(sink, b"Version ", n),
        ImageFault::NoMemory => put_all(sink, b"NoMemory"),
    }
}

fn put_schedule_fault<S: Sink>(sink: &mut S, fault: ScheduleFault) -> Result<(), Failed>
    ensures { Puts S.taken S.faults S.sure sink.old sink.new (schedule_fault_text fault) result }
{
    match fault {
        ScheduleFault::Line { n } => put_field(sink, b"Line ", n),
        ScheduleFault::NotRising { n } => put_field(sink, b"NotRising ", n),
        ScheduleFault::TooMany => put_all(sink, b"TooMany"),
        ScheduleFault::NoMemory => put_all(sink, b"NoMemory"),
    }
}

fn put_challenge_fault<S: Sink>(sink: &mut S, fault: ChallengeFault) -> Result<(), Failed>
    ensures { Puts S.taken S.faults S.sure sink.old sink.new (challenge_fault_text fault) result }
{
    match fault {
        ChallengeFault::TooMany => put_all(sink, b"TooMany"),
        ChallengeFault::Line { n } => put_field(sink, b"Line ", n),
        ChallengeFault::NotRising { n } => put_field(sink, b"NotRising ", n),
        ChallengeFault::NoMemory => put_all(sink, b"NoMemory"),
    }
}

fn put_trace_fault<S: Sink>(sink: &mut S, fault: TraceFault) -> Result<(), Failed>
    ensures { Puts S.taken S.faults S.sure sink.old sink.new (trace_fault_text fault) result }
{
    match fault {
        TraceFault::Line { n } => put_field(sink, b"Line ", n),
        TraceFault::NoEnd => put_all(sink, b"NoEnd"),
        TraceFault::NoMemory => put_all(sink, b"NoMemory"),
    }
}

fn put_arms_fault<S: Sink>(sink: &mut S, fault: ArmsFault) -> Result<(), Failed>
    ensures { Puts S.taken S.faults S.sure sink.old sink.new (arms_fault_text fault) result }
{
    match fault {
        ArmsFault::TooMany => put_all(sink, b"TooMany"),
        ArmsFault::Line { n } => put_field(sink, b"Line ", n),
        ArmsFault::NotRising { n } => put_field(sink, b"NotRising ", n),
        ArmsFault::NoMemory => put_all(sink, b"NoMemory"),
    }
}

fn put_terms_fault<S: Sink>(sink: &mut S, fault: TermsFault) -> Result<(), Failed>
    ensures { Puts S.taken S.faults S.sure sink.old sink.new (terms_fault_text fault) result }
{
    match fault {
        TermsFault::TooMany => put_all(sink, b"TooMany"),
        TermsFault::Line { n } => put_field(sink, b"Line ", n),
        TermsFault::NotRising { n } => put_field(sink, b"NotRising ", n),
        TermsFault::NoMemory => put_all(sink, b"NoMemory"),
    }
}

fn put_script_fault<S: Sink>(sink: &mut S, fault: ScriptFault) -> Result<(), Failed>
    ensures { Puts S.taken S.faults S.sure sink.old sink.new (script_fault_text fault) result }
{
    match fault {
        ScriptFault::Line { n } => put_field(sink, b"Line ", n),
        ScriptFault::Number { n } => put_field(sink, b"Number ", n),
        ScriptFault::NoMemory => put_all(sink, b"NoMemory"),
    }
}

fn put_fault<S: Sink>(sink: &mut S, fault: FileFault) -> Result<(), Failed>
    ensures { Puts S.taken S.faults S.sure sink.old sink.new (fault_text fault) result }
{
    match fault {
        FileFault::Absent => put_all(sink, b"Absent"),
        FileFault::TooLong => put_all(sink, b"TooLong"),
        FileFault::Image(fault) => put_image_fault(sink, fault),
        FileFault::NoModule { id } => put_field(sink, b"NoModule ", u64::from(id)),
        FileFault::Schedule(fault) => put_schedule_fault(sink, fault),
        FileFault::Challenges(fault) => put_challenge_fault(sink, fault),
        FileFault::Trace(fault) => put_trace_fault(sink, fault),
        FileFault::Arms(fault) => put_arms_fault(sink, fault),
        FileFault::Terms(fault) => put_terms_fault(sink, fault),
        FileFault::Layout(fault) => put_layout_fault(sink, fault),
        FileFault::Object(fault) => put_object_fault(sink, fault),
        FileFault::Script(fault) => put_script_fault(sink, fault),
        FileFault::Source(fault) => put_source_fault(sink, fault),
    }
}

/// Puts a text, a name and another text.
pub fn put_named<S: Sink>(
    sink: &mut S,
    before: &[u8],
    name: &[u8],
    after: &[u8],
) -> Result<(), Failed>
    ensures { Puts S.taken S.faults S.sure sink.old sink.new (before.now ++ (name.now ++ after.now)) result }
{
    match put_all(sink, before) {
        Ok(()) => {}
        Err(Failed) => return Err(Failed),
    }
    match put_all(sink, name) {
        Ok(()) => {}
        Err(Failed) => return Err(Failed),
    }
    put_all(sink, after)
}

fn put_bad_file<S: Sink>(sink: &mut S, name: &[u8], fault: FileFault) -> Result<(), Failed>
    ensures { Puts S.taken S.faults S.sure sink.old sink.new ((codes "bad file " ++ (name.now ++ codes ": "))
        ++ (fault_text fault ++ codes "\n")) result }
{
    match put_named(sink, b"bad file ", name, b": ") {
        Ok(()) => {}
        Err(Failed) => return Err(Failed),
    }
    match put_fault(sink, fault) {
        Ok(()) => {}
        Err(Failed) => return Err(Failed),
    }
    put_all(sink, b"\n")
}

// Puts the name of a symbol where the fault has one, and the end of the line.
fn put_symbol<S: Sink>(sink: &mut S, fault: LinkFault, name: &[u8]) -> Result<(), Failed>
    ensures { Puts S.taken S.faults S.sure sink.old sink.new (link_end fault name.now) result }
{
    match fault {
        LinkFault::Duplicate { .. }
        | LinkFault::Undefined { .. }
        | LinkFault::NoVector { .. }
        | LinkFault::NoEntry { .. }
        | LinkFault::EntryElsewhere { .. } => put_named(sink, b" name ", name, b"\n"),
        _ => put_all(sink, b"\n"),
    }
}

fn put_link_refusal<S: Sink>(sink: &mut S, fault: LinkFault, name: &[u8]) -> Result<(), Failed>
    ensures { Puts S.taken S.faults S.sure sink.old sink.new (codes "link "
        ++ (link_fault_text fault ++ link_end fault name.now)) result }
{
    match put_all(sink, b"link ") {
        Ok(()) => {}
        Err(Failed) => return Err(Failed),
    }
    match put_link_fault(sink, fault) {
        Ok(()) => put_symbol(sink, fault, name),
        Err(Failed) => Err(Failed),
    }
}

// Puts what the line of a refusal says after the program's name.
fn put_refusal_text<S: Sink>(sink: &mut S, refused: &Refused<'_>) -> Result<(), Failed>
    ensures { Puts S.taken S.faults S.sure sink.old sink.new
        (refusal_text refused.now.refusal (name_text refused.now.name)) result }
{
    let name = refused.name.as_str().as_bytes();
    match refused.refusal {
        Refusal::Usage => put_all(sink, b"usage\n"),
        Refusal::BadFile(fault) => put_bad_file(sink, name, fault),
        Refusal::CannotRead => put_named(sink, b"cannot read ", name, b"\n"),
        Refusal::Link(fault) => put_link_refusal(sink, fault, name),
        Refusal::NoMemory => put_all(sink, b"no memory\n"),
    }
}

/// Puts the line of a refusal of the program of this name.
pub fn put_refusal<S: Sink>(
    sink: &mut S,
    program: &[u8],
    refused: &Refused<'_>,
) -> Result<(), Failed>
    ensures { Puts S.taken S.faults S.sure sink.old sink.new
        (refusal_line program.now refused.now.refusal (name_text refused.now.name)) result }
{
    match put_both(sink, program, b": ") {
        Ok(()) => put_refusal_text(sink, refused),
        Err(Failed) => Err(Failed),
    }
}
