//! How strictly data is read.
ghost use Rattle.std.specs.Prelude.{◌≡◌, false};
ghost use Rattle.jbig2_framing.specs.Reading.{reading_of};

use jbig2_framing::reading::Reading;

/// How strictly data is read. The default is lenient.
#[derive(Clone, Copy, Debug)]
pub struct DecodeSettings {
    /// Whether every fault is an error, also one that a lenient decoder passes over.
    pub strict: bool,
}

impl Default for DecodeSettings {
    ghost is_default = { λ settings. settings.strict ≡ false };

    fn default() -> DecodeSettings {
        DecodeSettings { strict: false }
    }
}

impl DecodeSettings {
    pub(crate) fn reading(&self) -> Reading
        ensures { result ≡ reading_of self.now.strict }
    {
        Reading::of(self.strict)
    }
}
