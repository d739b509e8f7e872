//! Names as bytes: whether two are the same, and where one is looked for.

ghost use Rattle.std.specs.Prelude.{◌≡◌, ◌-◌, ◌<◌, ℕ, get_or};
ghost use lib.Text.{eqt};
ghost use Rattle.verilog_tree.specs.Names.{text_of};
ghost use Rattle.verilog_run.specs.Entries.{slot, slot_of};

/// Whether two lists of bytes are the same text.
fn same_bytes(a: &[u8], b: &[u8]) -> bool
    requires first { (i : ℕ) → get_or a.now i 0 < 256 }
    requires second { (i : ℕ) → get_or b.now i 0 < 256 }
    ensures { result ≡ eqt (text_of a.now) (text_of b.now) }
{
    a == b
}

/// Whether two names are the same.
pub fn same_name(a: &[u8], b: &[u8]) -> bool
    ensures { result ≡ eqt (text_of a.now) (text_of b.now) }
{
    same_bytes(a, b)
}

/// The byte at a place, or 0 past the end.
fn byte(name: &[u8], at: usize) -> usize
    ensures value { result ≡ get_or name.now at 0 }
    ensures small { result < 256 }
{
    if at < name.len() {
        name[at] as usize
    } else {
        0
    }
}

/// The place before the last, or the first where there is none.
fn before(n: usize) -> usize
    ensures { result ≡ n - 1 }
{
    if n == 0 { 0 } else { n - 1 }
}

/// Which of 256 lists has the cell of a name.
fn slot_of_bytes(name: &[u8]) -> usize
    ensures { result ≡ slot_of name.now }
{
    let n = name.len();
    let first = byte(name, 0);
    let middle = byte(name, n / 2);
    let last = byte(name, before(n));
    (13 * (n % 256) + 31 * first + 9 * middle + 11 * last) % 256
}

/// The same, by the name's text.
pub(crate) fn slot_of_name(name: &[u8]) -> usize
    ensures { result ≡ slot (text_of name.now) }
{
    slot_of_bytes(name)
}
