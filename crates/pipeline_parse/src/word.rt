//! Choices that are written as words.

ghost use Rattle.std.specs.Prelude.{◌≡◌, List, ℕ};

/// A choice that has a word of its own.
pub trait Word: Copy {
    ghost word: { Self → List ℕ };

    /// The word of the choice.
    fn word(self) -> &'static str
        ensures { result.now ≡ word self };
}

impl Word for bool {
    ghost use Rattle.pipeline_parse.specs.Grammar.{flag_text};

    ghost word = { flag_text };

    fn word(self) -> &'static str {
        if self { "true" } else { "false" }
    }
}
