//! The lines between the chunks of a body, read on from where they broke off: what was looked at is kept as a state,
//! and no byte is looked at twice.
ghost use Rattle.std.specs.Prelude.{◌≡◌, ◌≤◌, ◌<◌, ℕ, List, [], ◌∷◌, ◌++◌, IsTrue, ◌↔◌, false};
ghost use Rattle.std.specs.Char.{is_ascii_hexdigit};
ghost use Rattle.http_frames.specs.Chunks.{IsEmptyLine};
ghost use Rattle.http_frames.specs.Lines.{AreDigits, AreBlanks, StopsDigits, IsSizeFront, GrownIs, SizeLineIs};
ghost use Rattle.http_frames.specs.Lines.{IsLineFront};

use httparse::parse_hex_digit;

/// Digits of a size line. More could pass 64 bits.
const SIZE_DIGITS: u32 = 16;

/// What of a size line has come, and the size that its digits say so far.
#[derive(Clone, Copy)]
pub enum SizeLine {
    /// So many digits.
    Digits { count: u32, size: u64 },
    /// The digits and some blanks.
    Blanks { size: u64 },
    /// The front up to somewhere in the extension.
    Extension { size: u64 },
    /// All but the LF.
    Return { size: u64 },
}

/// What a size line is with one byte more.
#[derive(Clone, Copy)]
enum Grown {
    /// One that goes on.
    Open(SizeLine),
    /// A whole one that says this size.
    Whole(u64),
    /// None, whatever follows.
    Broken,
}

/// What came of reading on in a size line.
#[derive(Clone, Copy)]
pub enum SizeRead {
    /// The bytes end within it.
    More(SizeLine),
    /// It ends behind the first `len` bytes, and says this size.
    Whole { len: usize, size: u64 },
    /// No size line goes on like this.
    Malformed,
}

impl SizeLine {
    /// A size line of which nothing has come.
    pub fn new() -> SizeLine
        ensures { IsSizeFront [] result }
    {
        SizeLine::Digits { count: 0, size: 0 }
    }

    /// Reads on in the line, up to its end.
    ///
    /// Source: RFC 9112 7.1, Chunked Transfer Coding, as `httparse` has it.
    pub fn read(self, bytes: &[u8]) -> SizeRead
        requires { (front : List ℕ) × IsSizeFront front self }
        ensures { (front : List ℕ) → IsSizeFront front self → SizeLineIs front bytes.now result }
    {
        let mut line = self;
        for place in 0..bytes.len() {
            match line.with(bytes[place]) {
                Grown::Open(longer) => line = longer,
                Grown::Whole(size) => return SizeRead::Whole {
                    len: place + 1,
                    size,
                },
                Grown::Broken => return SizeRead::Malformed,
            }
        }
        SizeRead::More(line)
    }

    /// The line with this byte more.
    fn with(self, byte: u8) -> Grown
        requires { (front : List ℕ) × IsSizeFront front self }
        ensures { (front : List ℕ) → IsSizeFront front self → GrownIs (front ++ byte ∷ []) result }
    {
        match self {
            SizeLine::Digits { count, size } => after_digits(count, size, byte),
            SizeLine::Blanks { size } => after_blanks(size, byte),
            SizeLine::Extension { size } => match byte {
                b'\r' => Grown::Open(SizeLine::Return { size }),
                b'\n' => Grown::Broken,
                _ => Grown::Open(SizeLine::Extension { size }),
            },
            SizeLine::Return { size } => match byte {
                b'\n' => Grown::Whole(size),
                _ => Grown::Broken,
            },
        }
    }
}

/// A line of so many digits, which say this size, with this byte more.
fn after_digits(count: u32, size: u64, byte: u8) -> Grown
    requires { (digits : List ℕ) × AreDigits digits count size }
    ensures { (digits : List ℕ) → AreDigits digits count size → GrownIs (digits ++ byte ∷ []) result }
{
    match parse_hex_digit(byte) {
        Some(_) if count == SIZE_DIGITS => Grown::Broken,
        Some(digit) => Grown::Open(SizeLine::Digits {
            count: count + 1,
            size: size * 16 + digit,
        }),
        None if count == 0 => Grown::Broken,
        None => after_blanks(size, byte),
    }
}

/// A line of digits, which say this size, and blanks, with this byte more, which is no digit where there are no blanks.
fn after_blanks(size: u64, byte: u8) -> Grown
    ensures { (digits blanks : List ℕ) → AreBlanks digits blanks size → StopsDigits (blanks ++ byte ∷ [])
        → GrownIs ((digits ++ blanks) ++ byte ∷ []) result }
{
    match byte {
        b' ' | b'\t' => Grown::Open(SizeLine::Blanks { size }),
        b';' => Grown::Open(SizeLine::Extension { size }),
        b'\r' => Grown::Open(SizeLine::Return { size }),
        _ => Grown::Broken,
    }
}

/// What of a trailer's line has come, without a line feed.
#[derive(Clone, Copy)]
pub enum TrailerLine {
    /// No byte.
    Nothing,
    /// One CR, and nothing else.
    Return,
    /// Something else.
    Something,
}

impl TrailerLine {
    /// The line with these bytes more.
    pub fn with(self, bytes: &[u8]) -> TrailerLine
        ensures { (front : List ℕ) → IsLineFront front self → IsLineFront (front ++ bytes.now) result }
    {
        match (self, bytes) {
            (_, []) => self,
            (TrailerLine::Nothing, [b'\r']) => TrailerLine::Return,
            _ => TrailerLine::Something,
        }
    }

    /// Whether a line feed behind it ends an empty line.
    pub fn is_empty(self) -> bool
        ensures { (line : List ℕ) → IsLineFront line self → (IsTrue result ↔ IsEmptyLine line) }
    {
        match self {
            TrailerLine::Nothing | TrailerLine::Return => true,
            TrailerLine::Something => false,
        }
    }
}
