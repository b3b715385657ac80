//! The inverse of pages and of files of one page (ITU-T T.88, D.1, D.3 and 8): laws over the definitions of writing and
//! reading. The calls here do nothing: their contracts are the laws.
#![tactic(auto)]

ghost use Rattle.jbig2_page_inverse.specs.PageFile.{PageFilesReadBack};
ghost use Rattle.jbig2_page_inverse.specs.PageWriter.{PagesReadBack};

/// Each bitmap with sides of 1 to 65535 is a page: an embedded one, of page information and one immediate generic
/// region, by each template with any adaptive pixels, with typical prediction and without, and by MMR. In each mode,
/// and with any globals, the page that is read from these bytes is drawn as that bitmap. It states the resolution that
/// was written.
pub fn pages_read_back()
    ensures { PagesReadBack }
{}

/// Each such bitmap is a file in sequential organisation: a file header, the same two segments, the end of the page and
/// the end of the file. In each mode these bytes are read as a file of one page. It is drawn as that bitmap, and states
/// the resolution that was written.
pub fn page_files_read_back()
    ensures { PageFilesReadBack }
{}
