// Parts of the text: the fixed texts, and whether a text is Latin.
ghost use Rattle.std.specs.Prelude.{◌≡◌, ◌+◌, ◌*◌, ◌≤◌, length};
ghost use Rattle.records.specs.Words.{record_bytes, text_at, word_of};
ghost use Rattle.conversion.specs.Ir.{same_text};
ghost use Rattle.conversion.specs.Expressions.{cast_verb, main_name, variadic_mark};
ghost use Rattle.conversion.specs.Functions.{is_ascii};

use records::texts::same_run;
use records::words::reference;

// An offset and a length.
#[derive(Clone, Copy)]
pub struct Part {
    pub offset: usize,
    pub len: usize,
}

// The text that words k and k + 1 of record r say.
pub fn text_part(tree: &[u8], r: usize, k: usize) -> Part
    requires record_bytes_in_bounds { r * record_bytes + record_bytes ≤ length tree.now }
    requires k_bound { k ≤ 3 }
    ensures { (result.offset ≡ word_of tree.now r k) × (result.len ≡ word_of tree.now r (k + 1)) }
{
    Part {
        offset: reference(tree, r, k),
        len: reference(tree, r, k + 1),
    }
}

// Whether a part is these bytes.
fn same_bytes(text: &[u8], p: Part, bytes: &[u8]) -> bool
    requires { p.offset + p.len ≤ length text.now }
    ensures { result ≡ same_text (text_at text.now p.offset p.len) bytes.now }
{
    p.len == bytes.len() && same_run(text, p.offset, bytes, 0, p.len)
}

pub fn is_main(text: &[u8], p: Part) -> bool
    requires { p.offset + p.len ≤ length text.now }
    ensures { result ≡ same_text (text_at text.now p.offset p.len) main_name }
{
    same_bytes(text, p, b"main")
}

// The verb of a cast: its nine bytes.
pub fn is_cast_verb(text: &[u8], p: Part) -> bool
    requires { p.offset + p.len ≤ length text.now }
    ensures { result ≡ same_text (text_at text.now p.offset p.len) cast_verb }
{
    same_bytes(text, p, b"\xEB\xB0\x94\xEA\xBE\xB8\xEB\x8B\xA4")
}

// What ends the key of a variadic function.
pub fn is_variadic_mark(text: &[u8], p: Part) -> bool
    requires { p.offset + p.len ≤ length text.now }
    ensures { result ≡ same_text (text_at text.now p.offset p.len) variadic_mark }
{
    same_bytes(text, p, b"$...")
}

// Whether a part is Latin. The library asks this of many bytes at once; most names are Hangul, and told by their first byte.
pub fn is_ascii(text: &[u8], p: Part) -> bool
    requires { p.offset + p.len ≤ length text.now }
    ensures { result ≡ is_ascii (text_at text.now p.offset p.len) }
{
    if 0 < p.len && text[p.offset] >= 128 {
        return false;
    }
    text[p.offset..p.offset + p.len].is_ascii()
}
