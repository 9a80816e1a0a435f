//! The characters of a name that are not shown as they are: control characters, and those that turn the direction of a
//! text or end its line.
ghost use Rattle.std.specs.Prelude.{◌≡◌, ◌<◌, ◌==◌, ◌&&◌, ◌||◌, get_or, length, nat_lt, not};
ghost use Rattle.jb_commands.specs.Lines.{hidden_from, hidden_length as length_hidden, is_control as is_control_byte};
ghost use Rattle.jb_commands.specs.Lines.{is_control_pair as is_pair_of_control};
ghost use Rattle.jb_commands.specs.Lines.{is_control_triple as is_triple_of_control};
ghost use Rattle.jb_commands.specs.Lines.{is_hidden_after as is_after_hidden, is_hidden_at as is_at_hidden};

/// Whether the byte at a place of a name belongs to a character that is not shown.
pub(crate) fn is_hidden(name: &[u8], at: usize) -> bool
    requires { at < length name.now }
    ensures { result ≡ is_at_hidden name.now at }
{
    is_hidden_after(name, at, 0) || is_hidden_after(name, at, 1) || is_hidden_after(name, at, 2)
}

/// The same of a character that begins so many bytes before that place.
fn is_hidden_after(name: &[u8], at: usize, before: usize) -> bool
    requires { at < length name.now }
    ensures { result ≡ is_after_hidden name.now at before }
{
    before <= at && before < hidden_at(name, at - before)
}

/// How many bytes the character at a place of a name has, where it is not shown; 0 where it is.
fn hidden_at(name: &[u8], at: usize) -> usize
    requires { at < length name.now }
    ensures { result ≡ hidden_from name.now at }
{
    hidden_length(name[at], byte_at(name, at + 1), byte_at(name, at + 2))
}

/// The byte at a place of a name; 0 past its end.
fn byte_at(name: &[u8], at: usize) -> u8
    ensures { result ≡ get_or name.now at 0 }
{
    match name.get(at) {
        Some(byte) => *byte,
        None => 0,
    }
}

/// How many bytes the character has that begins with these three, where it is not shown; 0 where it is.
fn hidden_length(a: u8, b: u8, c: u8) -> usize
    ensures { result ≡ length_hidden a b c }
{
    if is_control(a) {
        1
    } else if is_control_pair(a, b) {
        2
    } else if is_control_triple(a, b, c) {
        3
    } else {
        0
    }
}

/// Whether a byte is a control character.
fn is_control(a: u8) -> bool
    ensures { result ≡ is_control_byte a }
{
    a < 32 || a == 127
}

/// Whether two bytes are a character that is not shown.
fn is_control_pair(a: u8, b: u8) -> bool
    ensures { result ≡ is_pair_of_control a b }
{
    (a == 194 && b >= 128 && b < 160) || (a == 216 && b == 156)
}

/// Whether three bytes are a character that is not shown.
fn is_control_triple(a: u8, b: u8, c: u8) -> bool
    ensures { result ≡ is_triple_of_control a b c }
{
    a == 226 && ((b == 128 && turns(c)) || (b == 129 && c >= 166 && c < 170))
}

/// Whether the third byte of a character of U+2000 to U+203F makes it one that is not shown.
fn turns(c: u8) -> bool
    ensures { result ≡ ((c == 142 || c == 143) || (not (nat_lt c 168) && nat_lt c 175)) }
{
    c == 142 || c == 143 || (c >= 168 && c < 175)
}
