// What signals may hold.
ghost use Rattle.std.specs.Prelude.{◌≡◌};
ghost use Rattle.mh_design.specs.Assignments as spec;
ghost use Rattle.mh_signals.specs.Seen.{limits_seen};

use crate::codes::Codes;
use mh_design::is_item_code;
use mh_num::{Bounds, OutOfBounds, fit};

/// What a signal may hold.
#[derive(Clone, Copy)]
pub enum Limits {
    /// Any integer.
    Unlimited,
    /// 0 and 1.
    Truth,
    /// The numbers within bounds.
    Within(Bounds),
    /// The codes of items.
    Items(Codes),
}

const TRUTH: Bounds = Bounds {
    lo: 0,
    top: 1,
    wraps: false,
};

impl Limits {
    /// What becomes of a number that is given to a signal with these limits.
    pub fn take(&self, z: i128) -> Result<i128, OutOfBounds>
        ensures { result ≡ spec.taken (limits_seen self.now) z }
    {
        match self {
            Limits::Unlimited => Ok(z),
            Limits::Truth => fit(z, &TRUTH),
            Limits::Within(b) => fit(z, b),
            Limits::Items(codes) => {
                if is_item_code(codes.encoding, codes.count, z) {
                    Ok(z)
                } else {
                    Err(OutOfBounds {
                        value: z,
                        low: codes.least(),
                        high: codes.greatest(),
                    })
                }
            }
        }
    }
}
