use crate::entry::{Frame, Spot};
use spec_step::{Entry, Instance};
use sqlite_items::Items;

/// The one token that is wanted between the parts of a file.
#[derive(Clone, Copy)]
pub enum Fixed {
    /// `ISO-10303-21`
    StartWord,
    /// the semicolon behind it
    StartEnd,
    /// `HEADER`
    Header,
    /// the semicolon behind it
    HeaderStart,
    /// the semicolon behind the header's `ENDSEC`
    HeaderEnd,
    /// `DATA`
    Data,
    /// the semicolon behind it
    DataStart,
    /// the semicolon behind the `ENDSEC` of the instances
    DataEnd,
    /// `END-ISO-10303-21`
    EndWord,
    /// the semicolon behind it
    FileEnd,
    /// no token: the file is whole
    Nothing,
}

/// The number of an instance, and where it begins.
#[derive(Clone, Copy)]
pub struct Key {
    pub number: u64,
    pub from: usize,
}

/// A place in a file.
#[derive(Drop)]
pub enum Place {
    Fixed(Fixed),
    /// where a head entry or the end of the header is wanted
    Head,
    /// in a head entry
    HeadEntry(Spot),
    /// where an instance or the end of the instances is wanted
    Instances,
    /// behind the number of an instance
    Numbered(Key),
    /// behind its `=`
    Equated(Key),
    /// in the entry of a simple instance
    Simple(Key, Spot),
    /// behind the parenthesis that opens a complex instance
    Opened(Key),
    /// in an entry of a complex instance, behind these entries
    Complex(Key, Items<Entry>, Spot),
    /// behind the parenthesis that closes a complex instance
    Closed(Key, Items<Entry>),
}

/// What was read of a file: the parentheses that stand open in the entry that is read, the
/// innermost last, and the head entries and instances that are whole.
#[derive(Drop)]
pub struct Progress {
    pub frames: Vec<Frame>,
    pub head: Items<Entry>,
    pub instances: Items<Instance>,
}
