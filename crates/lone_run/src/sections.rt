//! The two sections as an instruction reads and writes them.

ghost use Rattle.std.specs.Prelude.{◌≡◌};
ghost use Rattle.lone_run.specs.internal.Sections.{after_put};

use crate::job::{Job, read, write};
use cpu_step::{Access, Kind, Port};
use mod_layout::Module;
use sm_words::Width;

/// A write that an instruction makes.
#[derive(Clone, Copy)]
pub struct Put {
    pub access: Access,
    pub value: u16,
}

/// The text and the data before an instruction. Its write, of which it makes one at most and no read after it, is kept
/// here until the instruction is done.
#[derive(Drop)]
pub struct Sections<'a> {
    pub job: Job<'a>,
    pub ram: &'a [u8],
    pub put: Option<Put>,
}

impl<'a> Port for Sections<'a> {
    ghost use Rattle.std.specs.Prelude.{Some};
    ghost use Rattle.cpu_step.specs.Lone.{lone_byte, value_at};
    ghost use Rattle.lone_run.specs.internal.Jobs.{lone_call};
    ghost use Rattle.lone_run.specs.internal.Sections.{HeldSections, held, section_answer, after_held};

    ghost State = { HeldSections };

    ghost state = { held };

    ghost answer = { section_answer };

    ghost after_read = { λ s width addr. s };

    ghost after_write = { after_held };

    fn read(&mut self, addr: u16, width: Width) -> u16 {
        let access = Access {
            kind: Kind::Read,
            addr,
            width,
        };
        read(&self.job, self.ram, access)
    }

    fn write(&mut self, addr: u16, width: Width, value: u16) {
        let access = Access {
            kind: Kind::Write,
            addr,
            width,
        };
        self.put = Some(Put { access, value });
    }
}

/// Does the write that was kept, if there is one.
pub fn settle(owner: &Module, ram: &mut [u8], put: Option<Put>)
    ensures { ram.new ≡ after_put owner.now ram.old put }
{
    if let Some(Put { access, value }) = put {
        write(owner, ram, access, value);
    }
}
