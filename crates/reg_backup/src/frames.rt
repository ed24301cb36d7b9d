//! The frames that stand while modules are interrupted.

ghost use Rattle.std.specs.Prelude.{◌≡◌, ◌↔◌, ◌≤◌, ℕ, List, [], ◌∷◌, length, slice_get, reverse, OnOk, OnErr, IsErr, IsTrue, IsNone, IfSome, IfNone};
ghost use Rattle.reg_backup.specs.Held.{held_ids, kinds, newest_kind, Differ, IsNew};

use crate::backup::Backup;
use arrayvec::ArrayVec;
use std::alloc::AllocError;
use std::marker::Model;

/// The most frames that can stand.
pub const MOST_FRAMES: usize = 8;

// What the rules say of them: a changed number is refused here.
const _: () = prove!(MOST_FRAMES == 8);

/// One interruption.
#[derive(Clone, Copy, Debug, Default, PartialEq, Eq)]
pub enum Frame {
    /// Code outside all modules was interrupted, while frames stood.
    #[default]
    Plain,
    /// A module was interrupted.
    Module(Backup),
}

impl Frame {
    ghost use Rattle.reg_backup.specs.Held.{frame_kind};

    fn kind(&self) -> FrameKind
        ensures { result ≡ frame_kind self.now }
    {
        match self {
            Frame::Plain => FrameKind::Plain,
            Frame::Module(backup) => FrameKind::Module(backup.module),
        }
    }
}

/// Whose interruption a frame is.
#[derive(Clone, Copy, Debug, PartialEq, Eq)]
pub enum FrameKind {
    /// That of code outside all modules.
    Plain,
    /// That of the module with this id.
    Module(u16),
}

/// Eight frames stand already.
#[derive(Clone, Copy, Debug, PartialEq, Eq)]
pub struct FramesFull;

/// At most eight frames. No module is in two of them.
#[derive(Debug, Drop)]
pub struct Frames {
    list: ArrayVec<Frame, MOST_FRAMES>,
}

impl Model for Frames {
    ghost use Rattle.std.specs.Prelude.{List, reverse};
    ghost use Rattle.reg_backup.specs.declared.frames.Frame.{Frame};
    ghost use Rattle.reg_backup.specs.Held.{held_ids, Differ};

    // The frames, the newest first.
    ghost Value = { List Frame };

    ghost view = { λ f. reverse f.list.items };

    ghost invariant = { λ f. Differ (held_ids (reverse f.list.items)) };
}

impl Clone for Frames {
    ghost is_clone = { λ frames copy. copy ≡ frames };

    ghost is_infallible = { λ _. Unit {0} };

    fn clone(&self) -> Result<Self, AllocError> {
        Ok(Self {
            list: self.list.clone()?,
        })
    }
}

impl Frames {
    /// No frame.
    pub fn new() -> Frames
        ensures empty { result ≡ [] }
    {
        Frames {
            list: ArrayVec::new(),
        }
    }

    /// Whether no frame stands.
    pub fn is_empty(&self) -> bool
        ensures empty { IsTrue result ↔ (self.now ≡ []) }
    {
        self.list.is_empty()
    }

    /// Whether no further frame can stand.
    pub fn is_full(&self) -> bool
        ensures full { IsTrue result ↔ (length self.now ≡ MOST_FRAMES) }
        ensures most { length self.now ≤ MOST_FRAMES }
    {
        self.list.is_full()
    }

    /// Adds a frame as the newest. Refused exactly where eight stand.
    pub fn push(&mut self, frame: Frame) -> Result<(), FramesFull>
        requires new { IsNew frame self.old }
        ensures ok { OnOk result (self.new ≡ frame ∷ self.old) }
        ensures full { IsErr result ↔ (length self.old ≡ MOST_FRAMES) }
        ensures err { OnErr result (self.new ≡ self.old) }
    {
        self.list.try_push(frame).map_err(|_| FramesFull)
    }

    /// Takes the newest frame off; none exactly where none stands.
    pub fn pop(&mut self) -> Option<Frame>
        ensures none { IsNone result ↔ (self.old ≡ []) }
        ensures newest { IfSome result (λ frame. self.old ≡ frame ∷ self.new) }
        ensures unchanged { IfNone result (self.new ≡ self.old) }
    {
        self.list.pop()
    }

    /// The kind of the newest frame; none exactly where none stands.
    pub fn newest(&self) -> Option<FrameKind>
        ensures newest { result ≡ newest_kind self.now }
    {
        match self.list.as_slice() {
            [.., frame] => Some(frame.kind()),
            [] => None,
        }
    }

    /// The kind of frame `n`, counted from the oldest at 0; none exactly where `n` is not below their
    /// number.
    pub fn kind(&self, n: u8) -> Option<FrameKind>
        ensures kind { result ≡ slice_get (kinds self.now) n }
        ensures none { IsNone result ↔ (length self.now ≤ n) }
    {
        Some(self.list.get(usize::from(n))?.kind())
    }

    /// The ids of the modules in frames, the oldest first.
    pub fn ids(&self) -> ArrayVec<u16, MOST_FRAMES>
        ensures ids { result.items ≡ reverse (held_ids self.now) }
        ensures differ { Differ (held_ids self.now) }
        ensures room { length self.now ≤ MOST_FRAMES }
    {
        let mut ids = ArrayVec::new();
        for frame in self.list.as_slice() {
            if let Frame::Module(backup) = frame {
                ids.push(backup.module);
            }
        }
        ids
    }
}
