//! What was written beside what was expected.

ghost use Rattle.std.specs.Prelude.{◌≡◌, ◌↔◌, IsNone};

/// The place of the first byte at which two texts differ, counted from 0; a text that is a front of
/// the other ends there. None comes exactly where they are the same.
pub fn first_difference(written: &[u8], wanted: &[u8]) -> Option<usize>
    ensures { IsNone result ↔ (written.now ≡ wanted.now) }
{
    if written == wanted {
        return None;
    }
    let mut pairs = written.iter().zip(wanted.iter());
    match pairs.position(|(byte, expected)| *byte != *expected) {
        Some(place) => Some(place),
        None => Some(written.len().min(wanted.len())),
    }
}

/// The first expected line that no written line fits. Each is looked for behind the one before.
pub fn first_missing<'a>(written: &str, wanted: &'a str) -> Option<&'a str> {
    let mut lines = written.lines();
    for expected in wanted.lines() {
        if !lines.any(|line| fits(line, expected)) {
            return Some(expected);
        }
    }
    None
}

/// Of the written lines those whose second word is that of an expected line are to fit the expected
/// lines one by one. The first written line that doesn't, or else the first expected line that is
/// left.
pub fn first_further<'a>(written: &'a str, wanted: &'a str) -> Option<&'a str> {
    let mut left = wanted.lines();
    for line in written.lines() {
        if is_named(line, wanted) {
            match left.next() {
                None => return Some(line),
                Some(expected) => {
                    if !fits(line, expected) {
                        return Some(line);
                    }
                }
            }
        }
    }
    left.next()
}

/// Whether a line is as expected. Where two dots are expected, any text may stand in their place.
fn fits(line: &str, expected: &str) -> bool {
    let Some((front, back)) = expected.split_once("..") else {
        return line == expected;
    };
    match line.strip_prefix(front) {
        None => false,
        Some(rest) => rest.ends_with(back),
    }
}

/// Whether a line's second word is that of an expected line.
fn is_named(line: &str, wanted: &str) -> bool {
    wanted
        .lines()
        .any(|expected| second_word(expected) == second_word(line))
}

/// The second word of a line.
fn second_word(line: &str) -> Option<&str> {
    let mut words = line.split_whitespace();
    let _first = words.next()?;
    words.next()
}
