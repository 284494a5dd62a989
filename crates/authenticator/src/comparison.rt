//! Comparing tags.

ghost use Rattle.std.specs.Prelude.{◌≡◌, true};

/// Whether two tags are the same bytes. Of tags of one length every byte is looked at, whatever was found before, so that
/// the time it takes tells nothing of where they differ.
pub fn same(a: &[u8], b: &[u8]) -> bool
    ensures yes { result ≡ true → a.now ≡ b.now }
    ensures no { a.now ≡ b.now → result ≡ true }
{
    if a.len() != b.len() {
        return false;
    }
    let differ = a.iter().zip(b).fold(0, |differ, (x, y)| differ | (*x ^ *y));
    differ == 0
}
