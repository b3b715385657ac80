//! Writes a page that was cut out of a PDF file as a picture of the PGM format, as docs/USING.md shows it.
#![tactic(auto)]

use hayro_jbig2::reading::read_all;
use hayro_jbig2::{DecodeSettings, Globals, Jbig2Error, Page};
use std::fs::File;
use std::io::Write;
use std::process::ExitCode;

fn bytes_of(rt: &HostRuntime, name: &str) -> Result<Vec<u8>, Jbig2Error> {
    let mut file = File::open(rt, name).map_err(Jbig2Error::Io)?;
    read_all(rt.alloc(), &mut file)
}

fn write_page(rt: &HostRuntime) -> Result<(), Jbig2Error> {
    let alloc = rt.alloc();
    let settings = DecodeSettings::default();
    let stream = bytes_of(rt, "page.jb2e")?;
    let globals = Globals::new(alloc, &bytes_of(rt, "page.jb2g")?, &settings)?;
    let page = Page::new_embedded(alloc, &stream, Some(&globals), &settings)?;
    let (width, height) = page.dimensions();
    let mut image = vec![in alloc; 0; width as usize * height as usize]?;
    page.read_image(&mut image)?;
    let mut out = rt.stdout();
    write!(out, "P5\n{width} {height}\n255\n").map_err(Jbig2Error::Io)?;
    out.write_all(&image).map_err(Jbig2Error::Io)
}

fn main(rt: HostRuntime) -> ExitCode {
    match write_page(&rt) {
        Ok(()) => ExitCode::SUCCESS,
        Err(error) => {
            let _ = writeln!(rt.stderr(), "error: {error}");
            ExitCode::FAILURE
        }
    }
}
