//! What the words of the command line ask for, or that they are not those of a run.
ghost use Rattle.std.specs.Prelude.{◌≡◌, map, option_map};
ghost use Rattle.std.specs.List.{list_all};
ghost use Rattle.jbig2_program.specs.inner.RequestViews.{task_view, request_view};
ghost use Rattle.jbig2_program.specs.Words.{is_strict_word, is_pages, is_embedded, is_calls, is_pbm, is_digit, is_index, whole_task, page_task, task_of, request_of};

/// One run of the program.
#[derive(Clone, Copy, Debug, PartialEq, Eq)]
pub struct Request<'w> {
    /// Whether the file is read strictly.
    pub strict: bool,
    pub command: Command<'w>,
    /// The name of the file.
    pub file: &'w str,
}

/// What is done with a file. An index has at least one decimal digit.
#[derive(Clone, Copy, Debug, PartialEq, Eq)]
pub enum Command<'w> {
    /// Print the number, the width and the height of each page.
    Pages,
    /// Print the calls of an embedded page.
    Embedded,
    /// Print the calls of the page at this index.
    Calls(&'w str),
    /// Write the page at this index as a bitmap.
    Pbm(&'w str),
}

#[tactic(auto, unfolding(crate::specs::Words::is_strict_word))]
fn is_strict_word(word: &str) -> bool
    ensures { result ≡ is_strict_word word.now }
{
    word == "--strict"
}

#[tactic(auto, unfolding(crate::specs::Words::is_pages))]
fn is_pages(word: &str) -> bool
    ensures { result ≡ is_pages word.now }
{
    word == "pages"
}

#[tactic(auto, unfolding(crate::specs::Words::is_embedded))]
fn is_embedded(word: &str) -> bool
    ensures { result ≡ is_embedded word.now }
{
    word == "embedded"
}

#[tactic(auto, unfolding(crate::specs::Words::is_calls))]
fn is_calls(word: &str) -> bool
    ensures { result ≡ is_calls word.now }
{
    word == "calls"
}

#[tactic(auto, unfolding(crate::specs::Words::is_pbm))]
fn is_pbm(word: &str) -> bool
    ensures { result ≡ is_pbm word.now }
{
    word == "pbm"
}

fn is_digit(code: u8) -> bool
    ensures { result ≡ is_digit code }
{
    48 <= code && code <= 57
}

fn has_digits(word: &str) -> bool
    ensures { result ≡ list_all is_digit word.now }
{
    word.as_bytes().iter().all(|code| is_digit(*code))
}

fn is_index(word: &str) -> bool
    ensures { result ≡ is_index word.now }
{
    !word.is_empty() && has_digits(word)
}

fn whole_task<'w>(command: &str) -> Option<Command<'w>>
    ensures { option_map task_view result ≡ whole_task command.now }
{
    if is_pages(command) {
        Some(Command::Pages)
    } else if is_embedded(command) {
        Some(Command::Embedded)
    } else {
        None
    }
}

fn page_task<'w>(command: &str, index: &'w str) -> Option<Command<'w>>
    ensures { option_map task_view result ≡ page_task command.now index.now }
{
    if !is_index(index) {
        None
    } else if is_calls(command) {
        Some(Command::Calls(index))
    } else if is_pbm(command) {
        Some(Command::Pbm(index))
    } else {
        None
    }
}

/// What is done with which file.
fn task_of<'w>(words: &[&'w str]) -> Option<(Command<'w>, &'w str)>
    ensures { option_map (λ task. (task_view task.0, task.1.now)) result
        ≡ task_of (map (λ word. word.now) words.now) }
{
    match words {
        [command, file] => Some((whole_task(command)?, *file)),
        [command, file, index] => Some((page_task(command, index)?, *file)),
        _ => None,
    }
}

impl<'w> Request<'w> {
    /// `None` where the words are not those of a run.
    pub fn of_words(words: &[&'w str]) -> Option<Request<'w>>
        ensures { option_map request_view result ≡ request_of (map (λ word. word.now) words.now) }
    {
        let (strict, words) = match words {
            [first, others @ ..] if is_strict_word(first) => (true, others),
            _ => (false, words),
        };
        let (command, file) = task_of(words)?;
        Some(Request {
            strict,
            command,
            file,
        })
    }
}

/// The word that names the file; `None` where the words are not those of a run.
pub fn file_word<'w>(words: &[&'w str]) -> Option<&'w str>
    ensures { let request = request_of (map (λ word. word.now) words.now) in
        option_map (λ file. file.now) result ≡ option_map (λ r. r.2) request }
{
    let request = Request::of_words(words)?;
    Some(request.file)
}
