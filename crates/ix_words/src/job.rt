ghost use Rattle.std.specs.Prelude.{◌≡◌, [], ◌∷◌, map, IfSome, string_bytes};
ghost use Rattle.ix_words.specs.Words.{no_options, with_words, count_in, gen_with, run_of, convert_of, check_of, gen_of, job_of, IsCount, IsInRange};

use crate::numbers::count;
use crate::options::Options;

/// What the words of a command line ask for.
#[derive(Clone, Copy, Debug, PartialEq, Eq)]
pub enum Job {
    /// Convert the input to OBJ text, or to the text of a writer.
    Convert {
        /// The grid in micrometres, from 1 to 10,000; 1000 where no word says another.
        grid: u32,
        /// The number of the one element that is wanted; `None` where all are.
        only: Option<u64>,
        /// The place among the words, counted from 1, of the word `--format=NAME` that names the writer; 0 for OBJ text.
        format: usize,
    },
    /// Check a page of this project's OBJ text.
    Check,
    /// Generate a model file.
    Gen {
        /// How many walls it has, from 1 to 150.
        count: u32,
        /// Whether it is converted, and not printed.
        run: bool,
    },
}

/// The options of the words behind the first, in any order, each at most once.
fn options_of(words: &[String]) -> Option<Options>
    ensures { result ≡ with_words no_options 2 (map string_bytes words.now) }
{
    let mut options = Options::new();
    for (at, word) in words.iter().enumerate() {
        options = options.with_word(at + 2, word.as_str())?;
    }
    Some(options)
}

/// The job of the words behind `convert`.
fn convert_job(words: &[String]) -> Option<Job>
    ensures value { result ≡ convert_of (map string_bytes words.now) }
    ensures range { IfSome result IsInRange }
{
    let options = options_of(words)?;
    Some(Job::Convert {
        grid: options.grid.unwrap_or(1000),
        only: options.only,
        format: options.format.unwrap_or(0),
    })
}

/// The job of the words behind `check`.
fn check_job(words: &[String]) -> Option<Job>
    ensures value { result ≡ check_of (map string_bytes words.now) }
    ensures range { IfSome result IsInRange }
{
    match words {
        [] => Some(Job::Check),
        _ => None,
    }
}

/// The number of walls that a word says.
fn count_in(word: &str) -> Option<u32>
    ensures value { result ≡ count_in word.now }
    ensures range { IfSome result IsCount }
{
    count(word.strip_prefix("--count=")?)
}

/// The job of the word behind `gen` that says the number of walls.
fn count_job(word: &str, run: bool) -> Option<Job>
    ensures value { result ≡ gen_with run word.now }
    ensures range { IfSome result IsInRange }
{
    Some(Job::Gen {
        count: count_in(word)?,
        run,
    })
}

/// The job of the two words behind `gen`.
fn run_job(word: &str, other: &str) -> Option<Job>
    ensures value { result ≡ run_of word.now other.now }
    ensures range { IfSome result IsInRange }
{
    if word == "--run" {
        return count_job(other, true);
    }
    if other == "--run" {
        return count_job(word, true);
    }
    None
}

/// The job of the words behind `gen`.
fn gen_job(words: &[String]) -> Option<Job>
    ensures value { result ≡ gen_of (map string_bytes words.now) }
    ensures range { IfSome result IsInRange }
{
    match words {
        [] => None,
        [word] => count_job(word.as_str(), false),
        [word, other] => run_job(word.as_str(), other.as_str()),
        [_, _, _, ..] => None,
    }
}

/// The job that a first word names, with what follows it.
fn named_job(first: &str, rest: &[String]) -> Option<Job>
    ensures value { result ≡ job_of (first.now ∷ map string_bytes rest.now) }
    ensures range { IfSome result IsInRange }
{
    if first == "convert" {
        return convert_job(rest);
    }
    if first == "check" {
        return check_job(rest);
    }
    if first == "gen" {
        return gen_job(rest);
    }
    None
}

/// The job of the words.
fn read_job(words: &[String]) -> Option<Job>
    ensures value { result ≡ job_of (map string_bytes words.now) }
    ensures range { IfSome result IsInRange }
{
    match words {
        [first, rest @ ..] => named_job(first.as_str(), rest),
        [] => None,
    }
}

impl Job {
    /// The job of the words, the program's name aside: `convert`, and then in any order at most one each of `--grid=N`,
    /// `--only=N` and `--format=NAME`; `check` alone; or `gen --count=N`, with `--run` before or behind it or without. N is a
    /// numeral of 1 to 18 digits whose first is not 0; the grid is from 1 to 10,000, and the count from 1 to 150. NAME has at
    /// least one byte, and `obj` stands for OBJ text. `None` exactly where the words stand for no job (rules of this project).
    pub fn of_words(words: &[String]) -> Option<Job>
        ensures value { result ≡ job_of (map string_bytes words.now) }
        ensures range { IfSome result IsInRange }
    {
        read_job(words)
    }
}
