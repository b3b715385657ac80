//! The segments that lenient reading or salvage passed over: how many, and why the first one failed.
ghost use Rattle.std.specs.Prelude.{◌≡◌, ◌<◌};
ghost use Rattle.jbig2_page.specs.PassedOver.{nothing_passed, with_passed};

use jbig2_base::error::DecodeError;

/// A segment that lenient reading or salvage passed over.
#[derive(Debug, Drop, PartialEq, Eq)]
pub struct PassedSegment {
    /// Its number, if the bytes have it.
    pub segment_number: Option<u32>,
    /// Why it was not drawn.
    pub error: DecodeError,
}

/// What the reading passed over in a page or in globals. In lenient reading these are the immediate regions that failed
/// (T.88, 8.2), in salvage all segments that failed: they left everything as it was. In both it is also each segment that
/// was drawn or kept though strict reading refuses it, and the segment at which the list of segments ended early.
#[derive(Debug, Drop, PartialEq, Eq)]
pub struct PassedOver {
    /// How many segments were passed over; 0 if none was.
    pub count: usize,
    /// The first of them, in the order of drawing.
    pub first: Option<PassedSegment>,
}

impl PassedOver {
    pub(crate) fn nothing() -> PassedOver
        ensures { result ≡ nothing_passed }
    {
        PassedOver {
            count: 0,
            first: None,
        }
    }

    /// Counts one more segment.
    pub(crate) fn add(&mut self, segment_number: Option<u32>, error: DecodeError)
        requires { self.old.count < usize.MAX }
        ensures { self.new ≡ with_passed segment_number error self.old }
    {
        self.count += 1;
        if self.first.is_none() {
            self.first = Some(PassedSegment {
                segment_number,
                error,
            });
        }
    }
}
