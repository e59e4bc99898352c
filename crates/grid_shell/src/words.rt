//! The words of the program, read one after the other. Nothing here takes memory.

ghost use Rattle.std.specs.Prelude.{◌≡◌, ◌∷◌, ◌<◌, codes, option_map};
ghost use Rattle.std.specs.Option.{option_copied};
ghost use Rattle.grid_shell.specs.Words.{after_word, asked_by, asked_of, behind, digits_from, first_word, form_of, is_told, is_word};
ghost use Rattle.grid_shell.specs.Words.{named, number_in, number_of, option_word, takes, told_of, untold, value_word};

use crate::asks::{Asked, Form};
use grid_base::Text;

/// The first words: they say which run is asked for.
#[derive(Clone, Copy, Debug)]
pub enum Start {
    Step,
    Live,
    Gen { seed: u32 },
}

/// The options.
#[derive(Clone, Copy, Debug)]
pub enum Name {
    Form,
    Workers,
    Keys,
    Steps,
}

/// The options that were given.
#[derive(Clone, Copy, Debug)]
pub struct Told {
    pub form: Option<Form>,
    pub workers: Option<u32>,
    pub keys: Option<u32>,
    pub steps: Option<u32>,
}

/// What was read so far, and what comes next.
#[derive(Clone, Copy, Debug)]
pub enum Reading {
    /// The first word comes.
    First,
    /// The seed comes.
    Seed,
    /// An option comes, or the end.
    Options {
        start: Start,
        told: Told,
    },
    /// The value of an option comes.
    Given {
        start: Start,
        told: Told,
        name: Name,
    },
}

/// What the words ask for. None comes exactly where they are in none of the forms of the table:
///
/// - `step`, with `--form`;
/// - `live`, with `--form` and `--workers`, which is 1 to 8, and 2 where it isn't given;
/// - `gen` and a seed, with `--form`, `--keys`, which is 1 to 50,000 and 10,000 where it isn't given,
///   and `--steps`, which is 0 to 50,000 and 2,000 where it isn't given.
///
/// Options stand in any order, each once at most, as two words or as one with `=` between the name
/// and the value. A form is `full`, `brief` or `json`; where none is given it is `full`, and `brief`
/// for `gen`. Numbers have one to nine digits, without a leading zero unless they are `0`.
#[tactic(auto, unfolding(crate::specs::Words::asked_of))]
pub fn asked(words: &[Text]) -> Option<Asked>
    ensures { result ≡ asked_of words.now }
{
    let mut reading = Reading::First;
    for word in words {
        match after_word(reading, word.bytes()) {
            Some(next) => reading = next,
            None => return None,
        }
    }
    asked_by(reading)
}

/// What was asked for, once all words are read.
fn asked_by(reading: Reading) -> Option<Asked>
    ensures { result ≡ asked_by reading }
{
    let Reading::Options { start, told } = reading else {
        return None;
    };
    match start {
        Start::Step => Some(Asked::Step {
            form: told.form.unwrap_or(Form::Full),
        }),
        Start::Live => Some(Asked::Live {
            form: told.form.unwrap_or(Form::Full),
            workers: told.workers.unwrap_or(2),
        }),
        Start::Gen { seed } => Some(Asked::Gen {
            form: told.form.unwrap_or(Form::Brief),
            seed,
            keys: told.keys.unwrap_or(10_000),
            steps: told.steps.unwrap_or(2_000),
        }),
    }
}

/// What is read with one more word.
fn after_word(reading: Reading, word: &[u8]) -> Option<Reading>
    ensures { result ≡ after_word reading word.now }
{
    match reading {
        Reading::First => first_word(word),
        Reading::Seed => {
            let seed = number_of(word)?;
            Some(options(Start::Gen { seed }))
        }
        Reading::Options { start, told } => option_word(start, told, word),
        Reading::Given { start, told, name } => value_word(start, told, name, word),
    }
}

/// No option was given yet.
fn options(start: Start) -> Reading
    ensures { result ≡ Reading.Options start untold }
{
    let told = Told {
        form: None,
        workers: None,
        keys: None,
        steps: None,
    };
    Reading::Options { start, told }
}

/// The first word is `step`, `live` or `gen`.
fn first_word(word: &[u8]) -> Option<Reading>
    ensures { result ≡ first_word word.now }
{
    if is_word(word, b"step") {
        return Some(options(Start::Step));
    }
    if is_word(word, b"live") {
        return Some(options(Start::Live));
    }
    if is_word(word, b"gen") {
        return Some(Reading::Seed);
    }
    None
}

/// The word names an option, whose value stands behind `=` or is the next word.
fn option_word(start: Start, told: Told, word: &[u8]) -> Option<Reading>
    ensures { result ≡ option_word start told word.now }
{
    let (name, rest) = named(word)?;
    if !takes(start, name) {
        return None;
    }
    if is_told(&told, name) {
        return None;
    }
    match rest {
        [] => Some(Reading::Given { start, told, name }),
        [sign, value @ ..] => {
            if *sign != b'=' {
                return None;
            }
            value_word(start, told, name, value)
        }
    }
}

/// The option that a word names, and what stands behind its name.
fn named(word: &[u8]) -> Option<(Name, &[u8])>
    ensures { option_map (λ parts. (parts.0, parts.1.now)) result ≡ named word.now }
{
    if let Some(rest) = behind(word, b"--form") {
        return Some((Name::Form, rest));
    }
    if let Some(rest) = behind(word, b"--workers") {
        return Some((Name::Workers, rest));
    }
    if let Some(rest) = behind(word, b"--keys") {
        return Some((Name::Keys, rest));
    }
    if let Some(rest) = behind(word, b"--steps") {
        return Some((Name::Steps, rest));
    }
    None
}

/// What stands behind the front with which a text begins.
fn behind<'a>(text: &'a [u8], front: &[u8]) -> Option<&'a [u8]>
    ensures { option_copied result ≡ behind text.now front.now }
{
    match front {
        [] => Some(text),
        [first, more @ ..] => match text {
            [] => None,
            [byte, rest @ ..] => {
                if *byte != *first {
                    return None;
                }
                behind(rest, more)
            }
        },
    }
}

/// Whether the run takes the option.
fn takes(start: Start, name: Name) -> bool
    ensures { result ≡ takes start name }
{
    match (start, name) {
        (_, Name::Form) => true,
        (Start::Live, Name::Workers) => true,
        (Start::Gen { .. }, Name::Keys) => true,
        (Start::Gen { .. }, Name::Steps) => true,
        _ => false,
    }
}

/// Whether the option was given.
fn is_told(told: &Told, name: Name) -> bool
    ensures { result ≡ is_told told.now name }
{
    match name {
        Name::Form => told.form.is_some(),
        Name::Workers => told.workers.is_some(),
        Name::Keys => told.keys.is_some(),
        Name::Steps => told.steps.is_some(),
    }
}

/// The option has the value that the word spells.
fn value_word(start: Start, told: Told, name: Name, word: &[u8]) -> Option<Reading>
    ensures { result ≡ value_word start told name word.now }
{
    let told = told_of(told, name, word)?;
    Some(Reading::Options { start, told })
}

/// The options that were given, with one more.
fn told_of(told: Told, name: Name, word: &[u8]) -> Option<Told>
    ensures { result ≡ told_of told name word.now }
{
    match name {
        Name::Form => {
            let form = Some(form_of(word)?);
            Some(Told { form, ..told })
        }
        Name::Workers => {
            let workers = Some(number_in(1, 8, word)?);
            Some(Told { workers, ..told })
        }
        Name::Keys => {
            let keys = Some(number_in(1, 50_000, word)?);
            Some(Told { keys, ..told })
        }
        Name::Steps => {
            let steps = Some(number_in(0, 50_000, word)?);
            Some(Told { steps, ..told })
        }
    }
}

/// The form that a word names.
fn form_of(word: &[u8]) -> Option<Form>
    ensures { result ≡ form_of word.now }
{
    if is_word(word, b"full") {
        return Some(Form::Full);
    }
    if is_word(word, b"brief") {
        return Some(Form::Brief);
    }
    if is_word(word, b"json") {
        return Some(Form::Json);
    }
    None
}

/// The number from a least to a greatest one that a word spells.
fn number_in(least: u32, most: u32, word: &[u8]) -> Option<u32>
    ensures { result ≡ number_in least most word.now }
{
    let number = number_of(word)?;
    if number < least {
        return None;
    }
    if most < number {
        return None;
    }
    Some(number)
}

/// The number that a word spells: one to nine digits, without a leading zero unless it is `0`.
fn number_of(word: &[u8]) -> Option<u32>
    ensures { result ≡ number_of word.now }
{
    match word {
        [] => None,
        [b'0'] => Some(0),
        [b'0', ..] => None,
        digits => digits_from(0, digits),
    }
}

/// The number with further digits behind it, nine in all at most.
fn digits_from(number: u32, digits: &[u8]) -> Option<u32>
    ensures { result ≡ digits_from number digits.now }
{
    match digits {
        [] => Some(number),
        [digit, more @ ..] => {
            if !digit.is_ascii_digit() {
                return None;
            }
            if number >= 100_000_000 {
                return None;
            }
            digits_from(number * 10 + (*digit - b'0') as u32, more)
        }
    }
}

/// Whether a word is this text.
fn is_word(word: &[u8], text: &[u8]) -> bool
    ensures { result ≡ is_word word.now text.now }
{
    word == text
}
