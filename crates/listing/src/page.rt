// A page: the bytes that are to be printed.
ghost use Rattle.std.specs.Prelude.{◌≡◌, ℕ, List, [], ◌∷◌, ◌++◌, OnOk};
ghost use Rattle.std.specs.Fmt.{AppendsText};

use std::alloc::{AllocError, Global};
use std::fmt::Display;
use std::marker::Model;

// The bytes that are printed so far. Contracts see it as their list.
#[derive(Drop)]
pub struct Page {
    bytes: Vec<u8>,
}

impl Model for Page {
    ghost Value = { List ℕ };

    ghost view = { λ page. page.bytes.items };
}

// A page that begins with these bytes.
impl From<Vec<u8>> for Page {
    ghost from_gives = { λ bytes page. page ≡ bytes.items };

    fn from(bytes: Vec<u8>) -> Page {
        Page { bytes }
    }
}

// Its bytes, for whoever goes on with them.
impl From<Page> for Vec<u8> {
    ghost from_gives = { λ page bytes. bytes.items ≡ page };

    fn from(full: Page) -> Vec<u8> {
        full.bytes
    }
}

impl Page {
    pub fn new(heap: Global) -> Page
        ensures { result ≡ [] }
    {
        Page {
            bytes: Vec::new(heap),
        }
    }

    pub fn as_slice(&self) -> &[u8]
        ensures { result.now ≡ self.now }
    {
        self.bytes.as_slice()
    }

    pub fn push(&mut self, byte: u8) -> Result<(), AllocError>
        ensures { OnOk result (self.new ≡ self.old ++ byte ∷ []) }
    {
        self.bytes.push(byte)?;
        Ok(())
    }

    pub fn push_bytes(&mut self, bytes: &[u8]) -> Result<(), AllocError>
        ensures { OnOk result (self.new ≡ self.old ++ bytes.now) }
    {
        self.bytes.extend_from_slice(bytes)
    }

    // What `write!` and `writeln!` call.
    pub fn write_fmt<D: Display + Drop>(&mut self, text: D) -> Result<(), AllocError>
        ensures { OnOk result (AppendsText self.old self.new (D.output text)) }
    {
        let text = String::format(*self.bytes.allocator(), text)?;
        self.push_bytes(text.as_bytes())
    }
}
