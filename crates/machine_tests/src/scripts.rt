//! Scripts whose lines are refused, and the bounds of a script.

ghost use Rattle.std.specs.Prelude.{◌≡◌, ◌≤◌, IfOk, length};

use board::{Board, Hidden, Ran};
use monitor::play;
use schedule_file::read_schedule;
use script_file::read_script;
use sm_io::MemSink;
use std::alloc::Global;
use std::test::Fail;

// Sets R7 and calls module 1, which goes back there; at 0x0208 it loops.
const CALLER: &str = "\
sancus-image 1
key 00000000000000000000000000000000
handler 0000
module 0007 0300 0302 0400 0402
at 0200 3740080230400003ff3f000000000000
at 0300 00470000000000000000000000000000
at 0400 00ab0000000000000000000000000000
at fff0 00000000000000000000000000000002
end
";

fn board_of(alloc: Global, image: &str) -> Result<Board, Fail>
    ensures { IfOk result (λ board. board.present.cycle ≡ 0) }
{
    let image = image_text::read(alloc, image.as_bytes())?;
    let schedule = read_schedule(alloc, b"")?;
    Ok(Board::with_marks(alloc, &image, &schedule, 16)?)
}

#[tactic(auto, unfolding(written_machine::specs::View::view_of))]
fn number(board: &Board) -> u64
    ensures { result ≡ board.now.present.cycle }
{
    board.view(Hidden::All).cycle()
}

/// A script on `CALLER`, the call of the sink that is refused, what was taken, and another script on the board that is
/// left, with its text.
type Refused = (&'static str, u64, &'static str, &'static str, &'static str);

// A line that is refused is lost, and what it tells of is done: the cycle, the mark, the way back.
fn refused() -> &'static [Refused] {
    &[
        (
            "mark\ngo 12\nmem 0402 1\n",
            0,
            "",
            "back 0\nregs\n",
            "\
            back 0 at 0\n\
            regs 0 outside 0200 0000 0000 0000 0000 0000 0000 0000 0000 0000 0000 0000 0000 0000 0000 0000\n\
            end 0 outside 0200 0000 0000 0000 0000 0000 0000 0000 0000 0000 0000 0000 0000 0000 0000 0000\n",
        ),
        (
            "mark\ngo 12\nmem 0402 1\n",
            1,
            "mark 0 at 0\n",
            "go 6\n",
            "\
            7 leave 1 pc 0208\n\
            end 12 outside 0208 0000 0000 0000 0000 0000 0000 0208 0000 0000 0000 0000 0000 0000 0000 0000\n",
        ),
        (
            "mark\ngo 12\nmem 0402 1\n",
            2,
            "mark 0 at 0\n5 enter 1 from 0\n",
            "",
            "\
            end 8 outside 0208 0000 0000 0000 0000 0000 0000 0208 0000 0000 0000 0000 0000 0000 0000 0000\n",
        ),
        (
            "mark\ngo 12\nmem 0402 1\n",
            3,
            "mark 0 at 0\n5 enter 1 from 0\n7 leave 1 pc 0208\n",
            "back 0\ngo 6\n",
            "back 0 at 0\n5 enter 1 from 0\nend 6 inside 1\n",
        ),
        (
            "mark\ngo 12\nmem 0402 1\n",
            4,
            "mark 0 at 0\n5 enter 1 from 0\n7 leave 1 pc 0208\n0402: 00\n",
            "",
            "\
            end 12 outside 0208 0000 0000 0000 0000 0000 0000 0208 0000 0000 0000 0000 0000 0000 0000 0000\n",
        ),
        (
            "mark\nmark\ngo 6\nback 0\ngo 9\n",
            3,
            "mark 0 at 0\nmark 1 at 0\n5 enter 1 from 0\n",
            "back 1\ngo 6\n",
            "refused NoMark 1\n5 enter 1 from 0\nend 6 inside 1\n",
        ),
        (
            "mark\ngo 12\nlast 0208 0\ngo 9\n",
            3,
            "mark 0 at 0\n5 enter 1 from 0\n7 leave 1 pc 0208\n",
            "",
            "\
            end 11 outside 0208 0000 0000 0000 0000 0000 0000 0208 0000 0000 0000 0000 0000 0000 0000 0000\n",
        ),
    ]
}

#[test]
fn refused_puts(rt: HostRuntime) -> Result<(), Fail> {
    for (script, call, taken, next, text) in refused() {
        assert!(rt; script.len() < 200 && next.len() < 200);
        let script = read_script(rt.alloc(), script.as_bytes())?;
        let next = read_script(rt.alloc(), next.as_bytes())?;
        let mut board = board_of(rt.alloc(), CALLER)?;
        let mut sink = MemSink::new(rt.alloc(), 512)?;
        let mut other = MemSink::new(rt.alloc(), 512)?;
        sink.fail_at(*call)?;
        assert_eq!(rt; play(&mut board, &script, &mut sink), Ran::SinkFailed);
        assert_eq!(rt; sink.taken(), taken.as_bytes());
        assert!(rt; number(&board) < 1000);
        assert_eq!(rt; play(&mut board, &next, &mut other), Ran::Done);
        assert_eq!(rt; other.taken(), text.as_bytes());
    }
    Ok(())
}

// Each text with the number of its lines.
#[test]
fn bounds_are_taken(rt: HostRuntime) -> Result<(), Fail> {
    for (text, lines) in [
        (b"".as_slice(), 0),
        (b"go 0\ngo 1000000000", 2),
        (b"until 0000 0\nuntil ffff 1000000000\n", 2),
        (b"mem 0200 256\nmem ff00 256\nmem ffff 1\n", 3),
        (b"back 0\nback 15\nlast ffff 15\nregs\nmark\n", 5),
    ] {
        let script = read_script(rt.alloc(), text)?;
        assert_eq!(rt; script.lines.len(), lines);
    }
    Ok(())
}
