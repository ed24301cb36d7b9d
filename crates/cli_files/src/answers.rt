// How a call ends.
ghost use Rattle.std.specs.Prelude.{◌≡◌};
ghost use Rattle.cli_files.specs.NameText.{name_text};
ghost use Rattle.cli_files.specs.Refusal.{status_of};
ghost use Rattle.cli_files.specs.StatusNumbers.{status_number};
ghost use Rattle.cli_files.specs.StatusNumbers.{status_after};

use arm_balance::ArmsFault;
use asm_text::AsmFault;
use elf_objects::ElfFault;
use image_text::ImageFault;
use layout_file::LayoutFault;
use linker::LinkFault;
use schedule_file::ScheduleFault;
use script_file::ScriptFault;
use sm_io::Failed;
use terms_file::TermsFault;
use vendor_tool::{ChallengeFault, TraceFault};

/// The status of a call.
#[derive(Clone, Copy, Debug, PartialEq, Eq)]
pub enum Status {
    Done = 0,
    Usage = 2,
    Stopped = 3,
    BadFile = 4,
    LinkRefused = 5,
    ReadFault = 6,
    WriteFault = 7,
    NoMemory = 8,
    CheckNo = 9,
}

impl Status {
    /// The number with which the program ends.
    pub fn number(self) -> u8
        ensures { result ≡ status_number self }
    {
        self as u8
    }
}

/// What is wrong with a file.
#[derive(Clone, Copy, Debug, PartialEq, Eq)]
pub enum FileFault {
    /// There is no such file.
    Absent,
    /// It has more than 1,048,576 bytes.
    TooLong,
    /// It is no image's text.
    Image(ImageFault),
    /// The image holds no module with this id.
    NoModule { id: u16 },
    /// It is no schedule's text.
    Schedule(ScheduleFault),
    /// It is no text of challenges.
    Challenges(ChallengeFault),
    /// It is no whole trace.
    Trace(TraceFault),
    /// It is no certificates' text.
    Arms(ArmsFault),
    /// It is no text of terms.
    Terms(TermsFault),
    /// It is no layout.
    Layout(LayoutFault),
    /// It is no object.
    Object(ElfFault),
    /// It is no script.
    Script(ScriptFault),
    /// It is no program for the assembler.
    Source(AsmFault),
}

/// Why a command gave no output.
#[derive(Clone, Copy, Debug, PartialEq, Eq)]
pub enum Refusal {
    Usage,
    BadFile(FileFault),
    CannotRead,
    /// The files serve, and do not link.
    Link(LinkFault),
    NoMemory,
}

impl Refusal {
    /// The status of a call that ends with it.
    pub fn status(self) -> Status
        ensures { result ≡ status_of self }
    {
        match self {
            Refusal::Usage => Status::Usage,
            Refusal::BadFile(_) => Status::BadFile,
            Refusal::CannotRead => Status::ReadFault,
            Refusal::Link(_) => Status::LinkRefused,
            Refusal::NoMemory => Status::NoMemory,
        }
    }
}

/// What a refusal names.
#[derive(Drop)]
pub enum Name<'a> {
    /// A file, by its word.
    Word(&'a str),
    /// A symbol, as it is shown.
    Symbol(String),
}

impl Name<'_> {
    /// The name's text.
    pub fn as_str(&self) -> &str
        ensures { result.now ≡ name_text self.now }
    {
        match self {
            Name::Word(word) => word,
            Name::Symbol(name) => name.as_str(),
        }
    }
}

/// A refusal, with a name that may be empty.
#[derive(Drop)]
pub struct Refused<'a> {
    pub refusal: Refusal,
    pub name: Name<'a>,
}

/// Out of memory, which needs no name.
pub const NO_MEMORY: Refused<'static> = Refused {
    refusal: Refusal::NoMemory,
    name: Name::Word(""),
};

/// Words that are no command.
pub const USAGE: Refused<'static> = Refused {
    refusal: Refusal::Usage,
    name: Name::Word(""),
};

/// How a command whose output is put ends.
pub fn status_after(put: Result<(), Failed>) -> Status
    ensures { result ≡ status_after put }
{
    match put {
        Ok(()) => Status::Done,
        Err(Failed) => Status::WriteFault,
    }
}
