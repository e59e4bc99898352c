//! The words of the grammar, by the places where they are chosen from.

ghost use Rattle.std.specs.Prelude.{◌≡◌};
ghost use Rattle.pipeline_parse.specs.Grammar.{end_text};

use crate::word::Word;
use pipeline_expr::End;

/// How an expression that is no number and no text begins.
#[derive(Clone, Copy, Debug)]
pub(crate) enum Form {
    Key,
    Value,
    It,
    Flag(bool),
    /// An operation between two expressions.
    Open,
    Not,
    Length,
    Starts,
}

/// What stands between two expressions.
#[derive(Clone, Copy, Debug)]
pub(crate) enum Between {
    Add,
    Sub,
    Mul,
    Same,
    Less,
    And,
    Or,
}

/// What a flatmap's argument begins with.
#[derive(Clone, Copy, Debug)]
pub(crate) enum Opening {
    List,
    Words,
}

/// What stands behind an expression of a list.
#[derive(Clone, Copy, Debug)]
pub(crate) enum Behind {
    Another,
    Close,
}

/// How an operation begins.
#[derive(Clone, Copy, Debug)]
pub(crate) enum Start {
    Filter,
    Map,
    FlatMap,
    Distinct,
}

/// How an operation or an end begins.
#[derive(Clone, Copy, Debug)]
pub(crate) enum Step {
    Op(Start),
    Last(End),
}

impl Word for Form {
    ghost use Rattle.pipeline_parse.specs.Words.{form_word};

    ghost word = { form_word };

    fn word(self) -> &'static str {
        match self {
            Form::Key => "key",
            Form::Value => "value",
            Form::It => "it",
            Form::Flag(flag) => flag.word(),
            Form::Open => "(",
            Form::Not => "not(",
            Form::Length => "length(",
            Form::Starts => "starts(",
        }
    }
}

impl Word for Between {
    ghost use Rattle.pipeline_parse.specs.Words.{between_word};

    ghost word = { between_word };

    fn word(self) -> &'static str {
        match self {
            Between::Add => " + ",
            Between::Sub => " - ",
            Between::Mul => " * ",
            Between::Same => " = ",
            Between::Less => " < ",
            Between::And => " and ",
            Between::Or => " or ",
        }
    }
}

impl Word for Opening {
    ghost use Rattle.pipeline_parse.specs.Words.{opening_word};

    ghost word = { opening_word };

    fn word(self) -> &'static str {
        match self {
            Opening::List => "[",
            Opening::Words => "words(",
        }
    }
}

impl Word for Behind {
    ghost use Rattle.pipeline_parse.specs.Words.{behind_word};

    ghost word = { behind_word };

    fn word(self) -> &'static str {
        match self {
            Behind::Another => ", ",
            Behind::Close => "]",
        }
    }
}

impl Word for Step {
    ghost use Rattle.pipeline_parse.specs.Words.{step_word};

    ghost word = { step_word };

    fn word(self) -> &'static str {
        match self {
            Step::Op(Start::Filter) => "filter ",
            Step::Op(Start::Map) => "map ",
            Step::Op(Start::FlatMap) => "flatmap ",
            Step::Op(Start::Distinct) => "distinct",
            Step::Last(end) => end_word(end),
        }
    }
}

/// The word of an end.
pub(crate) fn end_word(end: End) -> &'static str
    ensures { result.now ≡ end_text end }
{
    match end {
        End::Count => "count",
        End::Sum => "sum",
        End::Min => "min",
        End::Max => "max",
        End::Collect => "collect",
        End::Each => "each",
    }
}
