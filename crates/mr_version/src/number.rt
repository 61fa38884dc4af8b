//! Numbers in decimal, each written in one way.
ghost use Rattle.std.specs.Prelude.{◌≡◌, ◌<◌, ◌^◌, ◌↔◌, ℕ, Some, IsTrue, IfSome};
ghost use Rattle.std.specs.Fmt.{decimal};
ghost use Rattle.mr_version.specs.inner.Number.{IsPlain};

fn is_plain(text: &str) -> bool
    ensures { IsTrue result ↔ IsPlain text.now }
{
    let bytes = text.as_bytes();
    bytes.is_empty() || (bytes[0] != b'+' && (bytes[0] != b'0' || bytes.len() == 1))
}

/// The number below 2^64 that the text is in decimal, with no sign and no leading zeros, if it is one.
pub fn read_decimal(text: &str) -> Option<u64>
    ensures spelled { IfSome result (λ n. text.now ≡ decimal n) }
    ensures whole { (n : ℕ) → n < 2 ^ 64 → text.now ≡ decimal n → result ≡ Some n }
{
    if is_plain(text) {
        text.parse().ok()
    } else {
        None
    }
}
