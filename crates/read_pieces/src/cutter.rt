// The cut of a text at every `/`, and what stands at its components.
ghost use Rattle.std.specs.Prelude.{◌≡◌, ◌<◌};
ghost use Rattle.text.specs.Part.{same};
ghost use Rattle.text.specs.Stands.{Stands};
ghost use Rattle.path.specs.Text.{place_at, component};
ghost use Rattle.path.specs.Cut.{cut_of};

use path::{Cut, Place};

// Cuts a text.
pub fn cut_text(text: &[u8]) -> Cut
    ensures { result ≡ cut_of text.now }
{
    let mut starts = [0usize; 8];
    let mut count: usize = 1;
    for (i, &b) in text.iter().enumerate() {
        if b == b'/' && count < 8 {
            starts[count] = i + 1;
            count += 1;
        }
    }
    Cut { starts, count }
}

// A text with the places of its components.
#[derive(Clone, Copy)]
pub struct CutText<'a> {
    pub text: &'a [u8],
    pub cut: Cut,
    pub ghost is_cut: { cut ≡ cut_of text.now },
}

impl<'a> CutText<'a> {
    // Cuts a text.
    pub fn new(text: &'a [u8]) -> Self
        ensures { result.text ≡ text.entry }
    {
        CutText {
            text,
            cut: cut_text(text),
        }
    }

    // The place of component k of a text of at most seven components.
    pub fn place(self, k: usize) -> Place
        requires { (k < self.cut.count) × (self.cut.count < 8) }
        ensures { result ≡ place_at self.entry.text.now k }
    {
        let Cut { starts, count } = self.cut;
        let start = starts[k];
        if k + 1 < count {
            let next = starts[k + 1];
            Place {
                start,
                len: next - 1 - start,
            }
        } else {
            Place {
                start,
                len: self.text.len() - start,
            }
        }
    }

    // Component k of a text of at most seven components.
    pub fn component(self, k: usize) -> &'a [u8]
        requires { (k < self.cut.count) × (self.cut.count < 8) }
        ensures { Stands result self.entry.text (place_at self.entry.text.now k).start (component self.entry.text.now k) }
    {
        let p = self.place(k);
        let start = p.start;
        let end = start + p.len;
        &self.text[start..end]
    }

    // Whether component k is the word w.
    pub fn is_word(self, k: usize, w: &[u8]) -> bool
        requires { (k < self.cut.count) × (self.cut.count < 8) }
        ensures { result ≡ same (component self.entry.text.now k) w.now }
    {
        text::part::equal(self.component(k), w)
    }
}
