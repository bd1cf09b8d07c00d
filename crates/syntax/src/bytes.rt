// What single bytes are.
ghost use Rattle.std.specs.Prelude.{◌≡◌};
ghost use Rattle.syntax.specs.Bytes.{allowed, line_break};
ghost use Rattle.syntax.specs.Marks.{markable};
ghost use Rattle.syntax.specs.Split.{releases as releases_in};

// Whether `b` may stand in a segment.
pub fn is_allowed(b: u8) -> bool
    ensures { result ≡ allowed b }
{
    matches!(b, b' '..=b'~')
}

// Whether `b` is CR or LF.
pub fn is_line_break(b: u8) -> bool
    ensures { result ≡ line_break b }
{
    matches!(b, b'\r' | b'\n')
}

// Whether `b` may be a mark.
pub fn is_markable(b: u8) -> bool
    ensures { result ≡ markable b }
{
    b.is_ascii_punctuation() && b != b'-'
}

// Whether `b` is a release mark that protects the next byte.
pub fn is_release(b: u8, release: u8, protected: bool) -> bool
    ensures { result ≡ releases_in release protected b }
{
    !protected && b == release
}
