// The cutter: where it stands in the text.
ghost use Rattle.std.specs.Prelude.{◌≡◌, ◌+◌, ◌^◌, ◌<◌, ◌≤◌, true, length};
ghost use Rattle.syntax.specs.Marks.{lawful};

use syntax::fault::CutFault;
use syntax::marks::Marks;

pub mod methods;

// What is left of a text to cut: where it begins in the text, and the number of its first segment.
#[derive(Clone, Copy, Drop)]
struct Rest<'t> {
    bytes: &'t [u8],
    position: usize,
    number: usize,
    ghost counted: { number ≤ position + 1 },
    ghost counting: { position + length bytes.now < 2 ^ 63 },
}

// A text that is cut segment by segment. It stays at its end or at its first fault.
#[derive(Clone, Copy, Drop)]
pub struct Cutter<'t> {
    marks: Marks,
    rest: Result<Rest<'t>, CutFault>,
    ghost sound: { lawful marks ≡ true },
}
