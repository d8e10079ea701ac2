// What the program answers to a line, as text.
ghost use Rattle.std.specs.Prelude.{◌≡◌, ◌<◌, true, Some};
ghost use Rattle.std.specs.Fmt.{WritesOnOk, digit_glyph};
ghost use Rattle.script.specs.Texts.{hex_text, answer_text};

use model::Refusal;
use std::fmt;

#[derive(Clone, Copy, Debug)]
pub enum Answer {
    Done,
    Number(u64),
    // the bytes of a block
    Block([u8; 512]),
    Refused(Refusal),
    // a call that the store's state does not offer
    NotNow,
    // a line that is no command
    Unknown,
}

// The capital hexadecimal digits.
const DIGITS: [u8; 16] = *b"0123456789ABCDEF";

// A capital hexadecimal digit.
fn digit(d: u8) -> char
    requires { d < 16 }
    ensures { result ≡ digit_glyph true d }
{
    char::from(DIGITS[usize::from(d)])
}

// Two digits for each byte. By characters: `{:02X}` takes more than half as many instructions again, and a block has 512
// bytes.
fn write_hex<W: fmt::Write>(bytes: &[u8], f: &mut fmt::Formatter<W>) -> fmt::Result
    ensures { WritesOnOk W.write_str_gives f.old result (hex_text bytes.now) f.new }
{
    for b in bytes {
        f.write_char(digit(b / 16))?;
        f.write_char(digit(b % 16))?;
    }
    Ok(())
}

impl fmt::Display for Answer {
    ghost output = { λ a. Some (answer_text a) };

    fn fmt<W: fmt::Write>(&self, f: &mut fmt::Formatter<W>) -> fmt::Result {
        match self {
            Answer::Done => f.write_str("ok"),
            Answer::Number(n) => write!(f, "{n}"),
            Answer::Block(bytes) => write_hex(bytes, f),
            Answer::Refused(refusal) => write!(f, "refused {}", refusal.number()),
            Answer::NotNow => f.write_str("not now"),
            Answer::Unknown => f.write_str("unknown"),
        }
    }
}
