// Text that is put together by the byte, with no heap.
ghost use Rattle.std.specs.Prelude.{◌≤◌, take, IsAscii};

const CAPACITY: usize = 256;

// At most 256 ASCII bytes.
#[derive(Drop)]
pub(crate) struct AsciiText {
    // the text is the first `len` of these
    bytes: [u8; CAPACITY],
    len: usize,
    ghost few: { len ≤ 256 },
    ghost ascii: { IsAscii (take len bytes) },
}

impl AsciiText {
    ghost use Rattle.std.specs.Prelude.{◌≡◌, ◌<◌, [], ◌∷◌, ◌++◌, length};
    ghost use Rattle.line_parts.specs.AsciiTexts.{text_of};

    pub(crate) fn new() -> AsciiText
        ensures { text_of result ≡ [] }
    {
        AsciiText {
            bytes: [0; CAPACITY],
            len: 0,
        }
    }

    pub(crate) fn push(&mut self, b: u8)
        requires room { length (text_of self.old) < 256 }
        requires ascii { b < 128 }
        ensures { text_of self.new ≡ text_of self.old ++ b ∷ [] }
    {
        self.bytes[self.len] = b;
        self.len += 1;
    }

    pub(crate) fn as_str(&self) -> &str
        ensures { result.now ≡ text_of self.now }
    {
        str::from_utf8(&self.bytes[..self.len]).unwrap()
    }
}
