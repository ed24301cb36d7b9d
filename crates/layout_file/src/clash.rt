//! The first two of a list that may not stand together.
ghost use Rattle.std.specs.Prelude.{◌≡◌, ◌<◌, Bool, IfSome, length};
ghost use Rattle.layout_file.specs.Clashes as clashes;

use mod_layout::Section;

/// A type of which two values may not stand together.
pub trait Clash {
    ghost clash: { Self → Self → Bool };

    /// The two may not stand together.
    fn clashes(&self, later: &Self) -> bool
        ensures { result ≡ clash self.now later.now };
}

impl Clash for Section {
    ghost use Rattle.mod_layout.specs.Table.{share_byte};

    ghost clash = { share_byte };

    fn clashes(&self, later: &Section) -> bool {
        self.shares_byte(*later)
    }
}

impl Clash for &str {
    ghost use Rattle.std.specs.Str.{bytes_eq};

    ghost clash = { λ a b. bytes_eq a.now b.now };

    fn clashes(&self, later: &&str) -> bool {
        *self == *later
    }
}

impl Clash for u16 {
    ghost use Rattle.std.specs.Prelude.{◌==◌};

    ghost clash = { λ a b. a == b };

    fn clashes(&self, later: &u16) -> bool {
        *self == *later
    }
}

/// The lowest of the earlier items that may not stand with this one.
fn first_with<T: Clash>(earlier: &[T], later: &T) -> Option<usize>
    ensures { result ≡ clashes.first_with T.clash earlier.now later.now }
{
    earlier.iter().position(|item| item.clashes(later))
}

/// The lowest item that may not stand with an earlier one, after the lowest such.
pub fn first_clash<T: Clash>(items: &[T]) -> Option<(usize, usize)>
    ensures first { result ≡ clashes.first_clash T.clash items.now }
    ensures within { IfSome result (λ p. (p.0 < length items.now) × (p.1 < length items.now)) }
{
    for (second, later) in items.iter().enumerate() {
        if let Some(first) = first_with(&items[..second], later) {
            return Some((first, second));
        }
    }
    None
}
