//! How a PDF reader calls the library.
ghost use Rattle.std.specs.Prelude.{◌-◌, ◌^◌, ◌<◌, option_map};
ghost use Rattle.jbig2_page.specs.Calls.{Decodes, IsCountable};
ghost use Rattle.jbig2_callers.specs.Callers.{grid_of_stream};

use hayro_jbig2::{DecodeSettings, Decoder, DecoderContext, Globals, Page, Result};
use std::alloc::Allocator;

const LENIENT: DecodeSettings = DecodeSettings { strict: false };

/// A PDF reader: makes the calls that draw the image of a /JBIG2Decode stream. Other images may
/// share its /JBIG2Globals stream. Other pages may have used the context before.
pub fn decode_stream<A: Allocator + Clone, D: Decoder>(
    alloc: A,
    stream: &[u8],
    globals: Option<&[u8]>,
    decoder: &mut D,
    context: &mut DecoderContext<A>,
) -> Result<()>
    requires { IsCountable D.conduct decoder.old }
    ensures { Decodes D.conduct (grid_of_stream (option_map (λ bytes. bytes.now) globals.entry)
        stream.now) result decoder.old decoder.new }
{
    match globals {
        None => {
            let page = Page::new_embedded(alloc, stream, None, &LENIENT)?;
            page.decode_with(decoder, context)
        }
        Some(bytes) => {
            let globals = Globals::new(alloc.clone()?, bytes, &LENIENT)?;
            let page = Page::new_embedded(alloc, stream, Some(&globals), &LENIENT)?;
            page.decode_with(decoder, context)
        }
    }
}
