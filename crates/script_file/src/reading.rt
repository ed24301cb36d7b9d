//! The text of a script, line by line.

ghost use Rattle.std.specs.Prelude.{◌≡◌, ◌≢◌, ◌*◌, ◌≤◌, Ok, Err, IfOk, IfErr, length};
ghost use Rattle.script_file.specs.Bounds.{all_cycles};
ghost use Rattle.script_file.specs.declared.TheConstants.{MAX_CYCLES};
ghost use Rattle.script_file.specs.Reading.{script_of};

use crate::line::{LineFault, line_of};
use crate::{Script, ScriptFault};
use std::alloc::Global;
use texts::next_line;

/// Reads a script.
///
/// Line by line from 1, a line of no form is `Line`, and one with a number out of bounds is `Number`. The first of
/// these is answered, unless memory runs out before.
/// The lines ask for no more cycles than [`MAX_CYCLES`](crate::MAX_CYCLES) a byte of the text.
pub fn read_script(alloc: Global, bytes: &[u8]) -> Result<Script, ScriptFault>
    ensures read { IfOk result (λ script. script_of bytes.now ≡ Ok script.lines.items) }
    ensures cycles { IfOk result (λ script. all_cycles script.lines.items ≤ MAX_CYCLES * length bytes.now) }
    ensures refused { IfErr result (λ fault. fault ≢ ScriptFault.NoMemory → script_of bytes.now ≡ Err fault) }
{
    let mut lines = Vec::new(alloc);
    let mut rest = bytes;
    let mut n = 1;
    while let Some((text, after)) = next_line(rest) {
        let line = match line_of(text) {
            Ok(line) => line,
            Err(LineFault::Form) => return Err(ScriptFault::Line { n }),
            Err(LineFault::Bounds) => return Err(ScriptFault::Number { n }),
        };
        if lines.push(line).is_err() {
            return Err(ScriptFault::NoMemory);
        }
        rest = after;
        n += 1;
    }
    Ok(Script { lines })
}
