//! Readers of words, numbers and values from the front of a text, which other texts share.

ghost use Rattle.std.specs.Prelude.{◌≡◌, ◌≤◌, ◌<◌, ◌+◌, ◌-◌, ◌*◌, ◌^◌, ◌&&◌, if◌then◌else◌, nat_le, nat_lt, drop, length, negsuc, pos, take, IfErr, IfOk};
ghost use Rattle.grid_base.specs.Key.{is_key_byte};
ghost use Rattle.grid_base.specs.Text.{is_text_byte};
ghost use Rattle.pipeline_parse.specs.Grammar.{flag_text};
ghost use Rattle.pipeline_parse.specs.Gives.{Gives, Passes, Reads};
ghost use Rattle.pipeline_parse.specs.Reading as spec;
ghost use Rattle.pipeline_parse.specs.Reading.{begins_plain, digits_at, int_at, literal_at, number_at, plain_at, positive_at, quoted_at, word_at, datum_at, flags, key_at, key_bytes_at};

use crate::halt::{Halt, Unread};
use crate::word::Word;
use grid_base::limits::{LONGEST_KEY, LONGEST_TEXT};
use grid_base::{Datum, Key, Text, TextFault};
use std::alloc::Global;

/// Reads a word, and gives what is left behind it. It takes no memory.
pub fn read_literal<'a>(word: &str, text: &'a [u8]) -> Result<&'a [u8], Unread>
    ensures { Passes result (literal_at word.now text.now) }
{
    let mut rest = text;
    for letter in word.as_bytes() {
        let Some((byte, more)) = rest.split_first() else {
            return Err(Unread { left: 0 });
        };
        if *byte != *letter {
            return Err(Unread { left: rest.len() });
        }
        rest = more;
    }
    Ok(rest)
}

/// Reads the one choice whose word stands in front, and gives what is left behind it. It takes no
/// memory.
pub fn read_word<'a, W: Word>(choices: &[W], text: &'a [u8]) -> Result<(W, &'a [u8]), Unread>
    ensures { Reads result (word_at W.word choices.now text.now) }
{
    let mut left = text.len();
    for choice in choices {
        match read_literal(choice.word(), text) {
            Ok(rest) => return Ok((*choice, rest)),
            Err(unread) => left = left.min(unread.left),
        }
    }
    Err(Unread { left })
}

/// Whether a byte is a decimal digit.
pub fn is_digit(byte: u8) -> bool
    ensures { result ≡ spec.is_digit byte }
{
    byte >= b'0' && byte <= b'9'
}

/// Reads the further digits of a number, as long as it stays within a limit.
fn read_digits(limit: u64, number: u64, text: &[u8]) -> (u64, &[u8])
    requires { number ≤ limit }
    ensures grown { number ≤ result.0 }
    ensures within { result.0 ≤ limit }
    ensures read { (result.0, result.1.now) ≡ digits_at limit number text.now }
{
    let mut number = number;
    let mut rest = text;
    while let Some((byte, more)) = rest.split_first() {
        let Some(longer) = longer_number(limit, number, *byte) else {
            return (number, rest);
        };
        number = longer;
        rest = more;
    }
    (number, rest)
}

/// The number with one more digit behind it, where the byte is a digit and the number stays
/// within the limit.
fn longer_number(limit: u64, number: u64, byte: u8) -> Option<u64>
    ensures { result ≡ (if spec.is_digit byte && nat_le (number * 10 + (byte - 48)) limit then Some (number * 10 + (byte - 48)) else None) }
{
    if !is_digit(byte) {
        return None;
    }
    let digit = u64::from(byte - b'0');
    let longer = number.checked_mul(10)?.checked_add(digit)?;
    if longer <= limit { Some(longer) } else { None }
}

/// Reads a number from 1 to a limit, without a leading zero. It takes no memory.
pub fn read_positive(limit: u64, text: &[u8]) -> Result<(u64, &[u8]), Unread>
    requires { 9 ≤ limit }
    ensures read { Reads result (positive_at limit text.now) }
    ensures above { IfOk result (λ p. 0 < p.0) }
    ensures within { IfOk result (λ p. p.0 ≤ limit) }
{
    let Some((byte, rest)) = text.split_first() else {
        return Err(Unread { left: 0 });
    };
    if !is_digit(*byte) || *byte == b'0' {
        return Err(Unread { left: text.len() });
    }
    Ok(read_digits(limit, u64::from(*byte - b'0'), rest))
}

/// Reads a number from 0 to a limit, without a leading zero unless it is 0. It takes no memory.
pub fn read_number(limit: u64, text: &[u8]) -> Result<(u64, &[u8]), Unread>
    requires { 9 ≤ limit }
    ensures read { Reads result (number_at limit text.now) }
    ensures within { IfOk result (λ p. p.0 ≤ limit) }
{
    match text.split_first() {
        Some((b'0', rest)) => Ok((0, rest)),
        _ => read_positive(limit, text),
    }
}

/// The number below zero of this distance.
fn negated(number: u64) -> i64
    requires above { 0 < number }
    requires within { number ≤ 2 ^ 63 }
    ensures { result ≡ negsuc (number - 1) }
{
    -((number - 1) as i64) - 1
}

/// Reads a whole number of 64 bits with its sign, without a leading zero unless it is 0. It takes
/// no memory.
pub fn read_int(text: &[u8]) -> Result<(i64, &[u8]), Unread>
    ensures { Reads result (int_at text.now) }
{
    let Some((byte, behind)) = text.split_first() else {
        return Err(Unread { left: 0 });
    };
    if *byte == b'-' {
        let (number, rest) = read_positive(1 << 63, behind)?;
        return Ok((negated(number), rest));
    }
    let (number, rest) = read_number((1 << 63) - 1, text)?;
    Ok((number as i64, rest))
}

/// Whether a value that is no flag begins so.
pub fn begins_plain(text: &[u8]) -> bool
    ensures { result ≡ begins_plain text.now }
{
    match text.split_first() {
        None => false,
        Some((byte, _)) => *byte == b'"' || *byte == b'-' || is_digit(*byte),
    }
}

/// How many bytes of a text stand before the closing quote, of which there is room for so many.
fn quoted_length(room: usize, text: &[u8]) -> Result<usize, Unread>
    ensures ok { IfOk result (λ n. (n < length text.now) × (quoted_at room text.now ≡ Ok (take n text.now, drop (n + 1) text.now))) }
    ensures err { IfErr result (λ unread. quoted_at room text.now ≡ Err unread.left) }
{
    for (place, byte) in text.iter().enumerate() {
        if *byte == b'"' {
            return Ok(place);
        }
        if !goes_on(room, place, *byte) {
            return Err(Unread {
                left: text.len() - place,
            });
        }
    }
    Err(Unread { left: 0 })
}

/// Whether a text goes on with a byte at a place, where there is room for so many bytes.
fn goes_on(room: usize, place: usize, byte: u8) -> bool
    ensures { result ≡ (nat_lt 0 (room - place) && is_text_byte byte) }
{
    place < room && is_text_byte(byte)
}

/// Whether a byte may stand in a text.
fn is_text_byte(byte: u8) -> bool
    ensures { result ≡ is_text_byte byte }
{
    byte >= 0x20 && byte <= 0x7E && byte != b'"'
}

/// Reads a value that begins with a quote, a sign or a digit.
pub fn read_plain<'a>(alloc: Global, text: &'a [u8]) -> Result<(Datum, &'a [u8]), Halt>
    ensures { Gives result (plain_at text.now) }
{
    let Some((byte, behind)) = text.split_first() else {
        return Err(Halt::Left(0));
    };
    if *byte == b'"' {
        let (quoted, rest) = read_quoted(alloc, behind)?;
        return Ok((Datum::Text(quoted), rest));
    }
    let (number, rest) = read_int(text)?;
    Ok((Datum::Int(number), rest))
}

/// Reads the bytes of a text and its closing quote.
fn read_quoted<'a>(alloc: Global, text: &'a [u8]) -> Result<(Text, &'a [u8]), Halt>
    ensures { Gives result (quoted_at 64 text.now) }
{
    let length = quoted_length(LONGEST_TEXT, text)?;
    match Text::new(alloc, &text[..length]) {
        Ok(quoted) => Ok((quoted, &text[length + 1..])),
        Err(TextFault::NoMemory) => Err(Halt::NoMemory),
        Err(TextFault::Bad) => Err(Halt::Left(text.len())),
    }
}

/// Reads a flag. It takes no memory.
pub fn read_flag(text: &[u8]) -> Result<(bool, &[u8]), Unread>
    ensures { Reads result (word_at flag_text flags text.now) }
{
    read_word(&[true, false], text)
}

/// Reads a value.
#[tactic(auto, unfolding(crate::specs::Reading::datum_at))]
pub fn read_datum<'a>(alloc: Global, text: &'a [u8]) -> Result<(Datum, &'a [u8]), Halt>
    ensures { Gives result (datum_at text.now) }
{
    if begins_plain(text) {
        return read_plain(alloc, text);
    }
    let (flag, rest) = read_flag(text)?;
    Ok((Datum::Flag(flag), rest))
}

/// How many bytes in front may stand in a key, of which there is room for so many.
fn key_length(room: usize, text: &[u8]) -> usize
    ensures within { result ≤ length text.now }
    ensures front { key_bytes_at room text.now ≡ (take result text.now, drop result text.now) }
{
    for (place, byte) in text.iter().enumerate() {
        if !key_goes_on(room, place, *byte) {
            return place;
        }
    }
    text.len()
}

/// Whether a key goes on with a byte at a place, where there is room for so many bytes.
fn key_goes_on(room: usize, place: usize, byte: u8) -> bool
    ensures { result ≡ (nat_lt 0 (room - place) && is_key_byte byte) }
{
    place < room && byte >= 0x21 && byte <= 0x7E && byte != b'"'
}

/// Reads a key: the longest front that is one. It takes no memory.
pub fn read_key(text: &[u8]) -> Result<(Key, &[u8]), Unread>
    ensures { Reads result (key_at text.now) }
{
    let length = key_length(LONGEST_KEY, text);
    match Key::new(&text[..length]) {
        Ok(key) => Ok((key, &text[length..])),
        Err(_) => Err(Unread { left: text.len() }),
    }
}
