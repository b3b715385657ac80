//! Tests for each call that takes a limit of work that it holds to the limit: the call is made within exactly the units
//! that it takes, and is refused within one unit less.
use crate::bytes::bytes_of;
use hayro_jbig2::{
    DecodeError, DecodeSettings, DecoderContext, File, Globals, Jbig2Decoder, Jbig2Error, Page,
    Result, WorkLimit,
};
use jbig2_rows::watcher::Watcher;
use std::alloc::Global;
use std::io::Cursor;

/// A file whose pages share a dictionary.
const FILE: &str = "H 01 00000001 P S@6=00 00000002 31 00 01 00000000";

const PAGE: &str = "P G8";

const GLOBALS: &str = "S";

const LENIENT: DecodeSettings = DecodeSettings { strict: false };

/// More units than any call here takes.
const MANY: u64 = 1 << 30;

/// A call that takes a limit of work, on a page of 8 by 1 pixels, on globals or on a file.
#[derive(Clone, Copy, Debug)]
enum Limited {
    Draw,
    DrawIn,
    DecodeWith,
    ReadImage,
    ReadPacked,
    Globals,
    SalvagedGlobals,
    File,
    SalvagedFile,
    Decoder,
}

const ALL: &[Limited] = &[
    Limited::Draw,
    Limited::DrawIn,
    Limited::DecodeWith,
    Limited::ReadImage,
    Limited::ReadPacked,
    Limited::Globals,
    Limited::SalvagedGlobals,
    Limited::File,
    Limited::SalvagedFile,
    Limited::Decoder,
];

/// Draws a page in a context with this limit, and returns how much is left.
fn draw_within(alloc: Global, limited: Limited, units: u64) -> Result<(Result<()>, Option<u64>)> {
    let bytes = bytes_of(alloc, PAGE)?;
    let page = Page::new_embedded(alloc, &bytes, None, &LENIENT)?;
    let mut context = DecoderContext::new(alloc)?;
    context.set_work_limit(Some(units));
    let drawn = match limited {
        Limited::Draw => match page.draw(&mut context) {
            Ok(_) => Ok(()),
            Err(error) => Err(error),
        },
        Limited::DecodeWith => page.decode_with(&mut Watcher::new(&[]), &mut context),
        _ => page.draw_in(&mut context),
    };
    Ok((drawn, context.work_left()))
}

/// Writes a page within this limit.
fn read_within(alloc: Global, limited: Limited, limit: &mut WorkLimit) -> Result<()> {
    let bytes = bytes_of(alloc, PAGE)?;
    let page = Page::new_embedded(alloc, &bytes, None, &LENIENT)?;
    if page.dimensions() != (8, 1) {
        return Err(DecodeError::Unsupported);
    }
    match limited {
        Limited::ReadImage => page.read_image_within(&mut [0; 8], limit),
        _ => page.read_packed_within(&mut [0], limit),
    }
}

fn read_globals(alloc: Global, limited: Limited, limit: &mut WorkLimit) -> Result<()> {
    let bytes = bytes_of(alloc, GLOBALS)?;
    match limited {
        Limited::Globals => Globals::new_within(alloc, &bytes, &LENIENT, limit)?,
        _ => Globals::salvaged(alloc, &bytes, limit)?,
    };
    Ok(())
}

fn read_file(alloc: Global, limited: Limited, limit: &mut WorkLimit) -> Result<()> {
    let bytes = bytes_of(alloc, FILE)?;
    let file = match limited {
        Limited::File => File::new_within(alloc, &bytes, &LENIENT, limit)?,
        _ => File::salvaged(alloc, &bytes, limit)?,
    };
    // Want of work is an error of what the pages share.
    file.shared()?;
    Ok(())
}

fn open_decoder(alloc: Global, limit: &mut WorkLimit) -> Result<()> {
    let bytes = bytes_of(alloc, FILE)?;
    match Jbig2Decoder::new_within(alloc, Cursor::new(bytes.as_slice()), limit) {
        Ok(_) => Ok(()),
        Err(Jbig2Error::Decode(error)) => Err(error),
        Err(Jbig2Error::Io(_)) => Err(DecodeError::Unsupported),
    }
}

/// Makes a call within this limit, and returns how much is left.
fn call_within(alloc: Global, limited: Limited, units: u64) -> Result<(Result<()>, Option<u64>)> {
    let mut limit = WorkLimit::new(Some(units));
    let answer = match limited {
        Limited::Draw | Limited::DrawIn | Limited::DecodeWith => {
            return draw_within(alloc, limited, units);
        }
        Limited::ReadImage | Limited::ReadPacked => read_within(alloc, limited, &mut limit),
        Limited::Globals | Limited::SalvagedGlobals => read_globals(alloc, limited, &mut limit),
        Limited::File | Limited::SalvagedFile => read_file(alloc, limited, &mut limit),
        Limited::Decoder => open_decoder(alloc, &mut limit),
    };
    Ok((answer, limit.left()))
}

/// Whether a call takes more than 1024 units, is made within exactly what it takes, and refused within one unit less.
fn holds(alloc: Global, limited: Limited) -> Result<bool> {
    let (answer, left) = call_within(alloc, limited, MANY)?;
    answer?;
    let taken = MANY - left.unwrap_or(MANY).min(MANY);
    if taken <= 1_024 {
        return Ok(false);
    }
    let made = call_within(alloc, limited, taken)?;
    let refused = call_within(alloc, limited, taken - 1)?;
    Ok(made == (Ok(()), Some(0)) && refused == (Err(DecodeError::OutOfMemory), Some(0)))
}

#[test]
fn each_call_holds_to_its_limit(rt: HostRuntime) {
    for limited in ALL {
        let mut answer = holds(rt.alloc(), *limited);
        if answer != Ok(true) {
            answer = holds(rt.alloc(), *limited);
        }
        assert!(rt; answer == Ok(true), "{limited:?}");
    }
}

/// A page of 8 by 1 takes 1280 units: its segment, and two bitmaps. Reading it takes as many from a limit of its own.
const PAGE_ALONE: &str = "H 01 00000001 P 00000001 31 00 01 00000000";

/// How a decoder that was opened within this limit reads its page as bytes and as packed rows.
fn read_decoder(
    alloc: Global,
    units: u64,
) -> std::result::Result<[std::result::Result<(), Jbig2Error>; 2], Jbig2Error> {
    let bytes = bytes_of(alloc, PAGE_ALONE)?;
    let limit = &mut WorkLimit::new(Some(units));
    let decoder = Jbig2Decoder::new_within(alloc, Cursor::new(bytes.as_slice()), limit)?;
    if decoder.dimensions() != (8, 1) {
        return Err(Jbig2Error::Decode(DecodeError::Unsupported));
    }
    Ok([
        decoder.read_image(&mut [0; 8]),
        decoder.read_packed(&mut [0]),
    ])
}

fn is_refused(answer: &std::result::Result<(), Jbig2Error>) -> bool {
    matches!(answer, Err(Jbig2Error::Decode(DecodeError::OutOfMemory)))
}

/// Whether both are read within 1280 units, and refused within one unit less.
fn readings_hold(alloc: Global) -> std::result::Result<bool, Jbig2Error> {
    let [image, packed] = read_decoder(alloc, 1_280)?;
    let [no_image, no_packed] = read_decoder(alloc, 1_279)?;
    let are_read = image.is_ok() && packed.is_ok();
    Ok(are_read && is_refused(&no_image) && is_refused(&no_packed))
}

#[test]
fn a_decoder_reads_its_page_within_its_limit(rt: HostRuntime) {
    let mut holds = matches!(readings_hold(rt.alloc()), Ok(true));
    if !holds {
        holds = matches!(readings_hold(rt.alloc()), Ok(true));
    }
    assert!(rt; holds);
}
