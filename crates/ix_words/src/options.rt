ghost use Rattle.std.specs.Prelude.{◌≡◌, codes};
ghost use Rattle.ix_words.specs.Words.{no_options, format_at, with_grid, with_only, with_format, with_further, with_word, behind};

use crate::numbers::{grid, number};

/// The options of `convert` that were read so far.
#[derive(Clone, Copy)]
pub(crate) struct Options {
    /// The grid in micrometres.
    pub(crate) grid: Option<u32>,
    /// The number of the one element that is wanted.
    pub(crate) only: Option<u64>,
    /// The place among the words, counted from 1, of the word that names a format; 0 for OBJ text.
    pub(crate) format: Option<usize>,
}

/// The place of the word that names a format, or 0 for OBJ text.
fn format_at(place: usize, name: &str) -> Option<usize>
    ensures { result ≡ format_at place name.now }
{
    match name {
        "" => None,
        "obj" => Some(0),
        _ => Some(place),
    }
}

impl Options {
    /// No option.
    pub(crate) fn new() -> Options
        ensures { result ≡ no_options }
    {
        Options {
            grid: None,
            only: None,
            format: None,
        }
    }

    /// The grid, which is set once.
    fn with_grid(self, text: &str) -> Option<Options>
        ensures { result ≡ with_grid self text.now }
    {
        match self.grid {
            None => Some(Options {
                grid: Some(grid(text)?),
                only: self.only,
                format: self.format,
            }),
            Some(_) => None,
        }
    }

    /// The wanted element, which is set once.
    fn with_only(self, text: &str) -> Option<Options>
        ensures { result ≡ with_only self text.now }
    {
        match self.only {
            None => Some(Options {
                grid: self.grid,
                only: Some(number(text)?),
                format: self.format,
            }),
            Some(_) => None,
        }
    }

    /// The format, which is named once.
    fn with_format(self, place: usize, name: &str) -> Option<Options>
        ensures { result ≡ with_format self place name.now }
    {
        match self.format {
            None => Some(Options {
                grid: self.grid,
                only: self.only,
                format: Some(format_at(place, name)?),
            }),
            Some(_) => None,
        }
    }

    /// The options with what a word says of the wanted element or of the format; `None` where it is no such option.
    fn with_further(self, place: usize, word: &str) -> Option<Options>
        ensures { result ≡ with_further self place (behind (codes "--only=") word.now) (behind (codes "--format=") word.now) }
    {
        if let Some(text) = word.strip_prefix("--only=") {
            return self.with_only(text);
        }
        self.with_format(place, word.strip_prefix("--format=")?)
    }

    /// The options with the word at a place more; `None` where it is no option, or one that was read before.
    pub(crate) fn with_word(self, place: usize, word: &str) -> Option<Options>
        ensures { result ≡ with_word self place word.now }
    {
        if let Some(text) = word.strip_prefix("--grid=") {
            return self.with_grid(text);
        }
        self.with_further(place, word)
    }
}
