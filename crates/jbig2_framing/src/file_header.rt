//! Reads the header of a file (T.88, D.4).
ghost use Rattle.std.specs.Prelude.{◌≡◌, ◌+◌, ◌%◌, ◌==◌, if◌then◌else◌, length, OnOk, ◌≤◌};
ghost use Rattle.std.specs.Str.{bytes_eq};
ghost use Rattle.jbig2_base.specs.Results.{Returns};
ghost use Rattle.jbig2_base.specs.Causes.{HasCause};
ghost use Rattle.jbig2_framing.specs.Causes.{BreaksFileHeader};
ghost use Rattle.jbig2_framing.specs.File.{identification, page_count_at, file_header_at};
ghost use Rattle.jbig2_framing.specs.declared.file_header.FileOrganization.TheVariants.{Sequential, RandomAccess};

use jbig2_base::error::{FormatError, Result};
use jbig2_base::field::{byte_field, bytes_field, u32_field};
use jbig2_base::reader::Reader;

/// The order of the segments' headers and data (T.88, D.1 and D.2).
#[derive(Clone, Copy, Debug, PartialEq, Eq)]
pub enum FileOrganization {
    /// The data of each header comes after it.
    Sequential,
    /// All headers come first.
    RandomAccess,
}

/// The header of a file (T.88, D.4).
#[derive(Clone, Copy, Debug, PartialEq, Eq)]
pub struct FileHeader {
    pub organization: FileOrganization,
    /// None if the file does not state it.
    pub number_of_pages: Option<u32>,
    /// Whether a generic region may have twelve adaptive pixels.
    pub uses_extended_templates: bool,
    pub contains_coloured_regions: bool,
}

fn is_identification(bytes: &[u8]) -> bool
    ensures { result ≡ bytes_eq bytes.now identification }
{
    bytes == [0x97, 0x4A, 0x42, 0x32, 0x0D, 0x0A, 0x1A, 0x0A].as_slice()
}

fn organization(flags: u8) -> FileOrganization
    ensures { result ≡ (if flags % 2 == 1 then Sequential else RandomAccess) }
{
    if flags % 2 == 1 {
        FileOrganization::Sequential
    } else {
        FileOrganization::RandomAccess
    }
}

fn page_count(reader: &mut Reader<'_>, unknown: bool) -> Result<Option<u32>>
    ensures value { Returns (λ x. (x, reader.new.bytes)) result
        (page_count_at unknown reader.old.bytes) }
{
    if unknown {
        return Ok(None);
    }
    let number = u32_field(reader)?;
    Ok(Some(number))
}

/// A file header at the reader's place (T.88, D.4).
///
/// Returns `FormatError::InvalidHeader` if the bytes do not begin with the identification string,
/// and `FormatError::ReservedBits` if a reserved bit of the flags is set. Takes no memory.
#[tactic(auto, unfolding(crate::specs::File::file_header_at))]
pub(crate) fn parse_file_header(reader: &mut Reader<'_>) -> Result<FileHeader>
    ensures value { Returns (λ h. (h, reader.new.bytes)) result (file_header_at reader.old.bytes) }
    ensures causes { HasCause result (BreaksFileHeader reader.old.bytes) }
{
    let front = bytes_field(reader, 8)?;
    if !is_identification(front) {
        return Err(FormatError::InvalidHeader.into());
    }
    let flags = byte_field(reader)?;
    if flags / 16 != 0 {
        return Err(FormatError::ReservedBits.into());
    }
    let number_of_pages = page_count(reader, flags / 2 % 2 == 1)?;
    Ok(FileHeader {
        organization: organization(flags),
        number_of_pages,
        uses_extended_templates: flags / 4 % 2 == 1,
        contains_coloured_regions: flags / 8 % 2 == 1,
    })
}
