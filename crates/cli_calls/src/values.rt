// Values of a command's words.
ghost use Rattle.std.specs.Prelude.{◌≡◌, ◌≤◌, IfSome};
ghost use Rattle.std.specs.Option.{option_copied};
ghost use Rattle.cli_calls.specs.Values.{read_cycles, file_named};

use texts::read_decimal;

/// A run is at most so long.
pub const MAX_CYCLES: u64 = 1_000_000_000;

// What the rules say of it: a changed number is refused here.
const _: () = prove!(MAX_CYCLES == 1_000_000_000);

/// The name of a file, or nothing for `-`.
pub fn file_named(word: &str) -> Option<&str>
    ensures { option_copied result ≡ file_named word.now }
{
    if word == "-" { None } else { Some(word) }
}

/// A number of cycles.
pub fn read_cycles(word: &str) -> Option<u64>
    ensures exact { result ≡ read_cycles word.now }
    ensures limit { IfSome result (λ cycles. cycles ≤ MAX_CYCLES) }
{
    read_decimal(word.as_bytes(), MAX_CYCLES)
}
