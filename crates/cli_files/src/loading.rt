// The files of a command, read whole and examined.
ghost use Rattle.std.specs.Prelude.{◌≡◌, ◌≢◌, ◌≤◌, ◌^◌, ◌∷◌, [], IsTrue, IfOk, IfErr, IfSome, Some, All, false, length, map};
ghost use Rattle.std.specs.Option.{option_copied};
ghost use Rattle.sm_io.specs.Faults.{HasCause};
ghost use Rattle.asm_text.specs.Unit.{unit_of};
ghost use Rattle.layout_file.specs.Layout.{layout_of};
ghost use Rattle.linker.specs.Room.{IsSmall};
ghost use Rattle.mod_layout.specs.Table.{module_of};
ghost use Rattle.mod_layout.specs.Tables.{IsModule};
ghost use Rattle.script_file.specs.Bounds.{all_cycles};
ghost use Rattle.cli_files.specs.Content.{IsContentRefusal};
ghost use Rattle.cli_files.specs.Files.{Kind, Held, an_image, a_schedule, the_challenges, the_replies, image_file, image_with, schedule_file, challenges_file, trace_file, need, schedule_needs, IsHeld, Holds, IsScheduleOf, most_bytes, certificates, arms_file, the_terms, terms_file, a_layout, an_object, layout_file, object_file, object_needs, HoldAll, a_script, script_file, a_unit, source_file};
ghost use Rattle.cli_files.specs.NameText.{name_text};
ghost use Rattle.cli_files.specs.Causes.{IsNeedCause};

use crate::answers::{NO_MEMORY, Name, Refused};
use crate::{FileFault, Refusal};
use arm_balance::{Arms, ArmsFault, read_arms};
use asm_text::{AsmFault, AsmUnit, assemble};
use elf_objects::{ElfFault, Object};
use image_text::{Image, ImageFault};
use layout_file::{Layout, LayoutFault};
use mod_layout::Module;
use schedule_file::{Schedule, ScheduleFault};
use script_file::{Script, ScriptFault, read_script};
use sm_io::{Files, ReadFault, read_whole};
use std::alloc::Global;
use terms_file::{Terms, TermsFault, read_terms};
use vendor_tool::{ChallengeFault, Challenges, TraceFault, read_challenges, read_replies};

/// What a file of one kind holds.
pub trait Content: Drop {
    /// The kind.
    ghost kind: { Kind };

    /// What contracts see of it.
    ghost held: { Self → Held };

    /// What these bytes hold.
    fn examine(alloc: Global, bytes: Vec<u8>) -> Result<Self, Refusal>
        requires short { length bytes.items ≤ most_bytes }
        ensures holds { IfOk result (λ value. IsHeld kind bytes.items (held value)) }
        ensures refused { IfErr result (λ refusal. IsContentRefusal kind bytes.items refusal) };
}

impl Content for Image {
    ghost kind = { image_file };

    ghost held = { λ image. an_image image };

    fn examine(alloc: Global, bytes: Vec<u8>) -> Result<Self, Refusal> {
        match image_text::read(alloc, &bytes) {
            Ok(image) => Ok(image),
            Err(ImageFault::NoMemory) => Err(Refusal::NoMemory),
            Err(fault) => Err(Refusal::BadFile(FileFault::Image(fault))),
        }
    }
}

impl Content for Schedule {
    ghost kind = { schedule_file };

    ghost held = { λ schedule. a_schedule schedule.entries.items };

    fn examine(alloc: Global, bytes: Vec<u8>) -> Result<Self, Refusal> {
        match schedule_file::read_schedule(alloc, &bytes) {
            Ok(schedule) => Ok(schedule),
            Err(ScheduleFault::NoMemory) => Err(Refusal::NoMemory),
            Err(fault) => Err(Refusal::BadFile(FileFault::Schedule(fault))),
        }
    }
}

impl Content for Layout {
    ghost kind = { layout_file };

    ghost held = { λ layout. a_layout (layout_of layout) };

    fn examine(alloc: Global, bytes: Vec<u8>) -> Result<Self, Refusal> {
        match layout_file::read_layout(alloc, &bytes) {
            Ok(layout) => Ok(layout),
            Err(LayoutFault::NoMemory) => Err(Refusal::NoMemory),
            Err(fault) => Err(Refusal::BadFile(FileFault::Layout(fault))),
        }
    }
}

impl Content for Challenges {
    ghost kind = { challenges_file };

    ghost held = { λ challenges. the_challenges challenges.list.items };

    fn examine(alloc: Global, bytes: Vec<u8>) -> Result<Self, Refusal> {
        match read_challenges(alloc, &bytes) {
            Ok(challenges) => Ok(challenges),
            Err(ChallengeFault::NoMemory) => Err(Refusal::NoMemory),
            Err(fault) => Err(Refusal::BadFile(FileFault::Challenges(fault))),
        }
    }
}

/// The bytes that a trace says were sent.
#[derive(Drop)]
pub struct Replies {
    pub sent: Vec<u8>,
}

impl Content for Replies {
    ghost kind = { trace_file };

    ghost held = { λ replies. the_replies replies.sent.items };

    fn examine(alloc: Global, bytes: Vec<u8>) -> Result<Self, Refusal> {
        match read_replies(alloc, &bytes) {
            Ok(sent) => Ok(Replies { sent }),
            Err(TraceFault::NoMemory) => Err(Refusal::NoMemory),
            Err(fault) => Err(Refusal::BadFile(FileFault::Trace(fault))),
        }
    }
}

impl Content for Arms {
    ghost kind = { arms_file };

    ghost held = { λ arms. certificates arms.list.items };

    fn examine(alloc: Global, bytes: Vec<u8>) -> Result<Self, Refusal> {
        match read_arms(alloc, &bytes) {
            Ok(arms) => Ok(arms),
            Err(ArmsFault::NoMemory) => Err(Refusal::NoMemory),
            Err(fault) => Err(Refusal::BadFile(FileFault::Arms(fault))),
        }
    }
}

impl Content for Terms {
    ghost kind = { terms_file };

    ghost held = { λ terms. the_terms terms.list.items };

    fn examine(alloc: Global, bytes: Vec<u8>) -> Result<Self, Refusal> {
        match read_terms(alloc, &bytes) {
            Ok(terms) => Ok(terms),
            Err(TermsFault::NoMemory) => Err(Refusal::NoMemory),
            Err(fault) => Err(Refusal::BadFile(FileFault::Terms(fault))),
        }
    }
}

impl Content for Object {
    ghost kind = { object_file };

    ghost held = { λ object. an_object object };

    fn examine(alloc: Global, bytes: Vec<u8>) -> Result<Self, Refusal> {
        match elf_objects::parse(alloc, bytes) {
            Ok(object) => Ok(object),
            Err(ElfFault::NoMemory) => Err(Refusal::NoMemory),
            Err(fault) => Err(Refusal::BadFile(FileFault::Object(fault))),
        }
    }
}

/// A script of a file, with no more cycles than a board can count.
#[derive(Drop)]
pub struct Playable {
    pub script: Script,
    ghost few: { all_cycles script.lines.items ≤ 2 ^ 62 },
}

impl Content for Playable {
    ghost kind = { script_file };

    ghost held = { λ playable. a_script playable.script.lines.items };

    fn examine(alloc: Global, bytes: Vec<u8>) -> Result<Self, Refusal> {
        match read_script(alloc, &bytes) {
            Ok(script) => Ok(Playable { script }),
            Err(ScriptFault::NoMemory) => Err(Refusal::NoMemory),
            Err(fault) => Err(Refusal::BadFile(FileFault::Script(fault))),
        }
    }
}

impl Content for AsmUnit {
    ghost kind = { source_file };

    ghost held = { λ unit. a_unit (unit_of unit) };

    fn examine(alloc: Global, bytes: Vec<u8>) -> Result<Self, Refusal> {
        match assemble(alloc, &bytes) {
            Ok(unit) => Ok(unit),
            Err(AsmFault::NoMemory) => Err(Refusal::NoMemory),
            Err(fault) => Err(Refusal::BadFile(FileFault::Source(fault))),
        }
    }
}

/// What the file of that name holds.
pub fn load<'a, C: Content, F: Files>(
    alloc: Global,
    name: &'a str,
    files: &mut F,
) -> Result<C, Refused<'a>>
    ensures holds { IfOk result (λ value. Holds (F.content files.old) (need name.now C.kind) (C.held value)) }
    ensures quiet { IfOk result (λ _. HasCause (F.faults files.old) (F.faults files.new) false) }
    ensures refused { IfErr result (λ refused. IsNeedCause (F.content files.old) (F.faults files.old)
        (F.faults files.new) (need name.now C.kind ∷ []) refused.refusal (name_text refused.name)) }
    ensures sound { IsTrue (F.sound files.old) → F.faults files.new ≡ F.faults files.old }
    ensures sound_read { IsTrue (F.sound files.old) →
        IfErr result (λ refused. refused.refusal ≢ Refusal.CannotRead) }
    ensures same_sound { F.sound files.new ≡ F.sound files.old }
    ensures same_files { F.content files.new ≡ F.content files.old }
{
    let bytes = match read_file(alloc, name, files) {
        Ok(bytes) => bytes,
        Err(refused) => return Err(refused),
    };
    match C::examine(alloc, bytes) {
        Ok(value) => Ok(value),
        Err(refusal) => Err(Refused {
            refusal,
            name: Name::Word(name),
        }),
    }
}

/// An image, and one of its modules.
#[derive(Drop)]
pub struct Chosen {
    pub image: Image,
    pub module: Module,
}

/// The image of the file of that name, which holds a module with this id.
pub fn load_with<'a, F: Files>(
    alloc: Global,
    name: &'a str,
    id: u16,
    files: &mut F,
) -> Result<Chosen, Refused<'a>>
    ensures holds { IfOk result (λ chosen. Holds (F.content files.old) (need name.now (image_with id))
        (an_image chosen.image)) }
    ensures chosen { IfOk result (λ chosen. module_of id chosen.image.table ≡ Some chosen.«module») }
    ensures sections { IfOk result (λ chosen. IsModule chosen.image.table.given chosen.«module») }
    ensures quiet { IfOk result (λ _. HasCause (F.faults files.old) (F.faults files.new) false) }
    ensures refused { IfErr result (λ refused. IsNeedCause (F.content files.old) (F.faults files.old)
        (F.faults files.new) (need name.now (image_with id) ∷ []) refused.refusal (name_text refused.name)) }
    ensures sound { IsTrue (F.sound files.old) → F.faults files.new ≡ F.faults files.old }
    ensures sound_read { IsTrue (F.sound files.old) →
        IfErr result (λ refused. refused.refusal ≢ Refusal.CannotRead) }
    ensures same_sound { F.sound files.new ≡ F.sound files.old }
    ensures same_files { F.content files.new ≡ F.content files.old }
{
    let image = match load::<Image, F>(alloc, name, files) {
        Ok(image) => image,
        Err(refused) => return Err(refused),
    };
    match image.table.own(Some(id)) {
        Some(module) => Ok(Chosen { image, module }),
        None => Err(Refused {
            refusal: Refusal::BadFile(FileFault::NoModule { id }),
            name: Name::Word(name),
        }),
    }
}

/// The schedule of the file of that name, or the empty one.
pub fn load_schedule<'a, F: Files>(
    alloc: Global,
    schedule: Option<&'a str>,
    files: &mut F,
) -> Result<Schedule, Refused<'a>>
    ensures entries { IfOk result (λ read. IsScheduleOf (F.content files.old)
        (option_copied schedule.entry) read.entries.items) }
    ensures quiet { IfOk result (λ _. HasCause (F.faults files.old) (F.faults files.new) false) }
    ensures refused { IfErr result (λ refused. IsNeedCause (F.content files.old) (F.faults files.old)
        (F.faults files.new) (schedule_needs (option_copied schedule.entry)) refused.refusal (name_text refused.name)) }
    ensures sound { IsTrue (F.sound files.old) → F.faults files.new ≡ F.faults files.old }
    ensures sound_read { IsTrue (F.sound files.old) →
        IfErr result (λ refused. refused.refusal ≢ Refusal.CannotRead) }
    ensures same_sound { F.sound files.new ≡ F.sound files.old }
    ensures same_files { F.content files.new ≡ F.content files.old }
{
    match schedule {
        Some(name) => load::<Schedule, F>(alloc, name, files),
        None => Ok(Schedule {
            entries: Vec::new(alloc),
        }),
    }
}

/// The objects of the files of those names, each read and examined before the next.
pub fn load_objects<'a, F: Files>(
    alloc: Global,
    names: &[&'a str],
    files: &mut F,
) -> Result<Vec<Object>, Refused<'a>>
    ensures hold { IfOk result (λ objects. HoldAll (F.content files.old) (object_needs (map (λ n. n.now) names.now))
        (map an_object objects.items)) }
    ensures small { IfOk result (λ objects. All IsSmall objects.items) }
    ensures count { IfOk result (λ objects. length objects.items ≡ length names.now) }
    ensures quiet { IfOk result (λ _. HasCause (F.faults files.old) (F.faults files.new) false) }
    ensures refused { IfErr result (λ refused. IsNeedCause (F.content files.old) (F.faults files.old)
        (F.faults files.new) (object_needs (map (λ n. n.now) names.now)) refused.refusal (name_text refused.name)) }
    ensures sound { IsTrue (F.sound files.old) → F.faults files.new ≡ F.faults files.old }
    ensures sound_read { IsTrue (F.sound files.old) →
        IfErr result (λ refused. refused.refusal ≢ Refusal.CannotRead) }
    ensures same_sound { F.sound files.new ≡ F.sound files.old }
    ensures same_files { F.content files.new ≡ F.content files.old }
{
    let mut objects = Vec::new(alloc);
    for name in names {
        let object = match load::<Object, F>(alloc, name, files) {
            Ok(object) => object,
            Err(refused) => return Err(refused),
        };
        if objects.push(object).is_err() {
            return Err(NO_MEMORY);
        }
    }
    Ok(objects)
}

// The bytes of that file, whatever it is needed as.
fn read_file<'a, F: Files>(
    alloc: Global,
    name: &'a str,
    files: &mut F,
) -> Result<Vec<u8>, Refused<'a>>
    ensures bytes { IfOk result (λ bytes. IfSome (F.content files.old) (λ map. map name.now ≡ Some bytes.items)) }
    ensures short { IfOk result (λ bytes. length bytes.items ≤ most_bytes) }
    ensures quiet { IfOk result (λ _. HasCause (F.faults files.old) (F.faults files.new) false) }
    ensures refused { IfErr result (λ refused. (kind : Kind) →
        IsNeedCause (F.content files.old) (F.faults files.old) (F.faults files.new)
        (need name.now kind ∷ []) refused.refusal (name_text refused.name)) }
    ensures sound { IsTrue (F.sound files.old) → F.faults files.new ≡ F.faults files.old }
    ensures sound_read { IsTrue (F.sound files.old) →
        IfErr result (λ refused. refused.refusal ≢ Refusal.CannotRead) }
    ensures same_sound { F.sound files.new ≡ F.sound files.old }
    ensures same_files { F.content files.new ≡ F.content files.old }
{
    let refusal = match read_whole(alloc, files, name) {
        Ok(bytes) => return Ok(bytes),
        Err(ReadFault::Failed) => Refusal::CannotRead,
        Err(ReadFault::Absent) => Refusal::BadFile(FileFault::Absent),
        Err(ReadFault::TooLong) => Refusal::BadFile(FileFault::TooLong),
        Err(ReadFault::NoMemory) => Refusal::NoMemory,
    };
    Err(Refused {
        refusal,
        name: Name::Word(name),
    })
}
