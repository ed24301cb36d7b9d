//! A backup restored, and frames up to eight.

ghost use Rattle.std.specs.Prelude.{◌≡◌};

use reg_backup::{After, Backup, Frame, FrameKind, Frames, FramesFull, Phase, resume, save};
use sm_words::Core;
use std::test::Fail;

fn backup(id: u16) -> Backup
    ensures { result.module ≡ id }
{
    save(id, 7, &Core::new([9; 16]), 3, After::Next)
}

#[test]
fn restored(rt: HostRuntime) {
    let core = Core::new([1, 2, 3, 4, 5, 6, 7, 8, 9, 10, 11, 12, 13, 14, 15, 16]);
    for (after, next) in [(After::Next, After::Next), (After::Close, After::Close)] {
        let saved = save(2, 1, &core, 5, after);
        assert_eq!(rt; (saved.module, saved.caller), (2, 1));
        assert_eq!(rt; resume(&saved), (core, Phase::Run { rest: 5 }, next));
    }
}

#[test]
fn eight_frames(rt: HostRuntime) -> Result<(), Fail> {
    let mut frames = Frames::new();
    assert_eq!(rt; frames.pop(), None);
    frames.push(Frame::Module(backup(5)))?;
    frames.push(Frame::Plain)?;
    frames.push(Frame::Module(backup(2)))?;
    for _ in 0..5 {
        frames.push(Frame::Plain)?;
    }
    assert!(rt; frames.is_full() && !frames.is_empty());
    assert_eq!(rt; frames.push(Frame::Plain), Err(FramesFull));
    assert_eq!(rt; frames.ids().as_slice(), [5, 2].as_slice());
    let kinds = [
        FrameKind::Module(5),
        FrameKind::Plain,
        FrameKind::Module(2),
        FrameKind::Plain,
    ];
    for (n, kind) in kinds.into_iter().enumerate() {
        assert_eq!(rt; frames.kind(n as u8), Some(kind), "frame {n}");
    }
    assert_eq!(rt; frames.kind(7), Some(FrameKind::Plain));
    assert_eq!(rt; frames.kind(8), None);
    for _ in 0..5 {
        assert_eq!(rt; frames.pop(), Some(Frame::Plain));
    }
    assert_eq!(rt; frames.pop(), Some(Frame::Module(backup(2))));
    assert_eq!(rt; frames.pop(), Some(Frame::Plain));
    assert_eq!(rt; frames.pop(), Some(Frame::Module(backup(5))));
    assert_eq!(rt; frames.pop(), None);
    Ok(())
}
