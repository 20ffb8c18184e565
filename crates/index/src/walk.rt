// The elements of an index, one after the other.
ghost use Rattle.byteops.specs.Width.{Width};
ghost use Rattle.index.specs.Elements.{Inside, inside_prop};

use crate::element_end;
use byteops::read_number;

// An element: the number of its run's first block, and its headword.
#[derive(Clone, Copy)]
pub struct Element<'a> {
    pub number: usize,
    pub headword: &'a [u8],
}

// Elements of an index, from a place of it on.
#[derive(Drop)]
pub struct Elements<'a> {
    pub index: &'a [u8],
    pub width: usize,
    pub at: usize,
    pub left: usize,
    ghost width_taken: { Width width },
    ghost inside: { Inside width index.now at left } by { inside_prop width index.now at left },
}

impl<'a> Elements<'a> {
    ghost use Rattle.std.specs.Prelude.{◌≡◌};
    ghost use Rattle.index.specs.Elements.{elements_at};
    ghost use Rattle.index.specs.Walk.{elements};

    // So many elements of an index, from one that starts at `at` on.
    pub fn new(index: &'a [u8], width: usize, at: usize, left: usize) -> Elements<'a>
        requires width { Width width }
        requires inside { Inside width index.now at left }
        ensures given { elements result ≡ elements_at width index.now at left }
        ensures width_kept { result.width ≡ width }
        ensures place_kept { (result.index ≡ index.entry) × (result.at ≡ at) × (result.left ≡ left) }
    {
        Elements {
            index,
            width,
            at,
            left,
        }
    }
}

impl<'a> Iterator for Elements<'a> {
    ghost use Rattle.std.specs.Iterator.{YieldsFirstBy, item_count};
    ghost use Rattle.index.specs.Walk.{stored, elements};

    type Item = Element<'a>;

    ghost next_gives = { YieldsFirstBy stored elements };

    ghost remaining = { item_count elements };

    fn next(&mut self) -> Option<Element<'a>> {
        if self.left == 0 {
            return None;
        }
        let end = element_end(self.width, self.index, self.at);
        let number = read_number(self.index, self.at, self.width);
        let headword = &self.index[self.at + self.width..end];
        self.at = end + 1;
        self.left -= 1;
        Some(Element { number, headword })
    }
}
