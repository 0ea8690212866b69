// Parts of texts: the bytes of one, whether two have the same, and a number for each, by which a table finds it.
#![tactic(auto)]

ghost use Rattle.std.specs.Prelude.{◌≡◌, ◌+◌, ◌<◌, ◌≤◌, length};
ghost use Rattle.bench_text.specs.Text.{bytes_of, same};
ghost use Rattle.parts.specs.Hash.{hash_of};
ghost use Rattle.parts.specs.Place.{text_part};

// A part of a text: where it begins, and how many bytes it has.
#[derive(Clone, Copy)]
pub struct Part {
    pub at: usize,
    pub size: usize,
}

// The empty part.
pub const NO_PART: Part = Part { at: 0, size: 0 };

impl Part {
    // Its bytes, as the part of the text that they are.
    pub fn bytes(self, text: &[u8]) -> &[u8]
        requires { self.at + self.size ≤ length text.now }
        ensures bytes { result.now ≡ bytes_of text.now (text_part self) }
        ensures place { (result.ref_ptr.0 ≡ text.entry.ref_ptr.0) × (result.ref_ptr.1 ≡ self.at + text.entry.ref_ptr.1) }
    {
        let end = self.at + self.size;
        &text[self.at..end]
    }
}

// Whether two parts of texts have the same bytes.
pub fn same(a: &[u8], b: &[u8]) -> bool
    ensures { result ≡ same a.now b.now }
{
    a == b
}

// A number below 4,096 for a name, the same for the same bytes.
pub fn hash(name: &[u8]) -> usize
    ensures { (result ≡ hash_of name.now) × (result < 4096) }
{
    let mut h: usize = 0;
    for b in name {
        h = (25173 * h + usize::from(*b)) % 65536;
    }
    h % 4096
}
