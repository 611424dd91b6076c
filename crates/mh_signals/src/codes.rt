// The codes of the items of enums.
ghost use Rattle.std.specs.Prelude.{◌≡◌, ◌≤◌, pos};
ghost use Rattle.mh_design.specs.Assignments as spec;
ghost use Rattle.mh_design.specs.Enums.{encoding_width, item_code};

use mh_design::{Encoding, item_code};

/// The items of an enum.
#[derive(Clone, Copy)]
pub struct Codes {
    pub encoding: Encoding,
    pub count: usize,
    ghost narrow: { encoding_width encoding count ≤ 127 },
}

/// What the rule of codes gives where an enum has no items.
fn code_of_none(encoding: Encoding) -> i128
    ensures { result ≡ pos (item_code encoding 0 0) }
{
    match encoding {
        Encoding::Binary => 0,
        Encoding::OneHot => 1,
        Encoding::OneCold => 0,
    }
}

impl Codes {
    /// The least of the codes.
    pub fn least(&self) -> i128
        ensures { result ≡ spec.least_code self.now.encoding self.now.count }
    {
        if self.count == 0 {
            return code_of_none(self.encoding);
        }
        match self.encoding {
            Encoding::Binary => item_code(Encoding::Binary, self.count, 0),
            Encoding::OneHot => item_code(Encoding::OneHot, self.count, 0),
            Encoding::OneCold => item_code(Encoding::OneCold, self.count, self.count - 1),
        }
    }

    /// The greatest of the codes.
    pub fn greatest(&self) -> i128
        ensures { result ≡ spec.greatest_code self.now.encoding self.now.count }
    {
        if self.count == 0 {
            return code_of_none(self.encoding);
        }
        match self.encoding {
            Encoding::Binary => item_code(Encoding::Binary, self.count, self.count - 1),
            Encoding::OneHot => item_code(Encoding::OneHot, self.count, self.count - 1),
            Encoding::OneCold => item_code(Encoding::OneCold, self.count, 0),
        }
    }
}
