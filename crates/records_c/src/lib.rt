// The comparison of texts for C and Rust, so that it can be timed by itself.
#![tactic(auto)]

ghost use Rattle.std.specs.Prelude.{◌≡◌};
ghost use Rattle.records.specs.Words.{text_at, same_text};

use records::texts::same_text;

// Whether two texts of the buffer, each an offset and a length, are the same.
#[unsafe(no_mangle)]
pub extern "C" fn records_c_same_text(text: &[u8], a: u32, n: u32, b: u32, m: u32) -> bool
    ensures { result ≡ same_text (text_at text.now a n) (text_at text.now b m) }
{
    same_text(text, a, n, b, m)
}
