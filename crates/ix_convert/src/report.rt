ghost use Rattle.std.specs.Prelude.{◌≡◌, ◌++◌, OnOk};
ghost use Rattle.std.specs.Fmt.{decimal};
ghost use Rattle.ix_convert.specs.Answers.{text_of};

use std::alloc::AllocError;

/// The text of a report.
#[derive(Drop)]
pub enum Report {
    /// A text that takes no memory.
    Fixed(&'static [u8]),
    /// A text with numbers in it.
    Built(Vec<u8>),
}

impl Report {
    /// Its bytes.
    pub fn text(&self) -> &[u8]
        ensures { result.now ≡ text_of self.now }
    {
        match self {
            Report::Fixed(text) => text,
            Report::Built(text) => text,
        }
    }
}

fn put_number(text: &mut Vec<u8>, number: u64) -> Result<(), AllocError>
    ensures { OnOk result (text.new.items ≡ text.old.items ++ decimal number) }
{
    let mut buffer = itoa::Buffer::new();
    text.extend_from_slice(buffer.format(number).as_bytes())
}

/// Appends a word, and a number behind it.
pub(crate) fn put_worded(text: &mut Vec<u8>, word: &[u8], number: u64) -> Result<(), AllocError>
    ensures { OnOk result (text.new.items ≡ text.old.items ++ (word.now ++ decimal number)) }
{
    text.extend_from_slice(word)?;
    put_number(text, number)
}
