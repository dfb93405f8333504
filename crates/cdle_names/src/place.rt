//! Where a byte of a text stands for a reader.
ghost use Rattle.std.specs.Prelude.{◌≡◌, ◌<◌, length};
ghost use Rattle.std.specs.Fmt.{is_char_start};
ghost use Rattle.cdle_model.specs.Places.{column_of, line_of};

/// A line, and a column in characters, both counted from 1.
#[derive(Clone, Copy, Debug, PartialEq, Eq)]
pub struct Place {
    pub line: u32,
    pub column: u32,
}

/// The place of the byte `at`. Past the end of the text it is the place of the end.
pub fn place_of(text: &str, at: u32) -> Place
    requires { length text.now < 4294967295 }
    ensures line { result.line ≡ line_of text.now at }
    ensures column { result.column ≡ column_of text.now at }
{
    let bytes = text.as_bytes();
    let end = bytes.len().min(at as usize);
    let mut line = 1;
    let mut column = 1;
    for byte in &bytes[..end] {
        if *byte == b'\n' {
            line += 1;
            column = 1;
        } else if begins_character(*byte) {
            column += 1;
        }
    }
    Place { line, column }
}

// The other bytes of a character have the form 10xxxxxx.
fn begins_character(byte: u8) -> bool
    ensures { result ≡ is_char_start byte }
{
    byte < 0x80 || 0xC0 <= byte
}
