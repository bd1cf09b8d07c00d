// The header that may begin a text and carry its marks.
ghost use Rattle.std.specs.Prelude.{◌≡◌, Some, None, MatchResult};
ghost use Rattle.syntax.specs.Marks.{body, marks_of, has_header};
ghost use Rattle.syntax.specs.declared.fault.CutFault.TheVariants.{BadHeader};

use crate::fault::CutFault;
use crate::marks::Marks;

// Whether the text begins with a header.
pub fn has_header(text: &[u8]) -> bool
    ensures { result ≡ has_header text.now }
{
    text.starts_with(b"UNA")
}

// The marks of a text, and what follows its header.
pub fn read_header(text: &[u8]) -> Result<(Marks, &[u8]), CutFault>
    ensures { MatchResult result
        (λ h. (marks_of text.now ≡ Some h.0) × (h.1.now ≡ body text.now))
        (λ f. (marks_of text.now ≡ None) × (f ≡ BadHeader)) }
{
    match text {
        [
            b'U',
            b'N',
            b'A',
            component,
            element,
            decimal,
            release,
            b' ',
            terminator,
            rest @ ..,
        ] => {
            let marks = Marks::try_from([*component, *element, *decimal, *release, *terminator])?;
            Ok((marks, rest))
        }
        _ if has_header(text) => Err(CutFault::BadHeader),
        _ => Ok((Marks::usual(), text)),
    }
}
