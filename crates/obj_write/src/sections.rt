//! The sections of a file after section 0.

ghost use Rattle.std.specs.Prelude.{◌≡◌, ◌++◌, ◌∷◌, List, ℕ, [], IfOk, OnOk};
ghost use Rattle.std.specs.List.{flat_map};
ghost use Rattle.obj_write.specs.Sections.{FileSection, head_bytes, padded_contents, header_table};
ghost use Rattle.obj_write.specs.internal.Sections.{AreSections};

use crate::bytes::{put_padded, put_words};
use std::alloc::{AllocError, Global};

/// The bytes of a file's header.
pub const FILE_HEADER_SIZE: usize = 52;

/// The bytes of a section's header.
pub const SECTION_HEADER_SIZE: usize = 40;

/// The fields of a section's header. The address is 0.
#[derive(Clone, Copy, Drop)]
pub struct Head {
    pub name: usize,
    pub kind: usize,
    pub flags: usize,
    pub offset: usize,
    pub size: usize,
    pub link: usize,
    pub info: usize,
    pub align: usize,
    pub entry_size: usize,
}

/// The contents of sections, one after the other, and their headers.
#[derive(Drop)]
pub struct Sections {
    pub contents: Vec<u8>,
    pub heads: Vec<Head>,
}

/// Writes a section's header.
#[tactic(auto, unfolding(crate::specs::Sections::head_bytes))]
pub fn put_head(out: &mut Vec<u8>, head: &Head) -> Result<(), AllocError>
    ensures { OnOk result (out.new.items ≡ out.old.items ++ head_bytes head.now) }
{
    put_words(
        out,
        &[
            head.name,
            head.kind,
            head.flags,
            0,
            head.offset,
            head.size,
            head.link,
            head.info,
            head.align,
            head.entry_size,
        ],
    )
}

/// Writes the headers.
pub fn put_heads(out: &mut Vec<u8>, heads: &[Head]) -> Result<(), AllocError>
    ensures { OnOk result (out.new.items ≡ out.old.items ++ flat_map head_bytes heads.now) }
{
    for head in heads {
        put_head(out, head)?;
    }
    Ok(())
}

impl Sections {
    /// No sections.
    #[tactic(auto, unfolding(crate::specs::Sections::padded_contents, crate::specs::Sections::heads_of))]
    pub fn new(alloc: Global) -> Sections
        ensures { AreSections [] result }
    {
        Sections {
            contents: Vec::new(alloc),
            heads: Vec::new(alloc),
        }
    }

    /// Adds a section with this content at the place that comes next.
    pub fn add(&mut self, head: Head, content: &[u8]) -> Result<(), AllocError>
        ensures { OnOk result ((sections : List FileSection) → AreSections sections self.old →
            AreSections (sections ++ record { head = head; content = content.now } ∷ []) self.new) }
    {
        let offset = FILE_HEADER_SIZE + self.contents.len();
        put_padded(&mut self.contents, content)?;
        self.heads.push(Head { offset, ..head })?;
        Ok(())
    }

    /// Writes the contents and then the table of headers.
    pub fn put(&self, out: &mut Vec<u8>) -> Result<(), AllocError>
        ensures { OnOk result ((sections : List FileSection) → AreSections sections self.now →
            out.new.items ≡ out.old.items ++ (padded_contents sections ++ header_table sections)) }
    {
        out.extend_from_slice(&self.contents)?;
        out.extend_from_slice(&[0; SECTION_HEADER_SIZE])?;
        put_heads(out, &self.heads)?;
        Ok(())
    }
}
