//! The first words of the lines of a script, and the words of guarantees.

ghost use Rattle.std.specs.Prelude.{◌≡◌};
ghost use Rattle.pipeline_parse.specs.Gives.{Reads};
ghost use Rattle.grid_script.specs.Words.{bare_word, call_word, copy_word, guarantee_at, guarantee_word, live_word_at, step_word_at, unit_word};

use grid_event::Guarantee;
use pipeline_parse::reading::read_word;
use pipeline_parse::{Unread, Word};

/// What a transfer of a segment does.
#[derive(Clone, Copy, Debug)]
pub(crate) enum CopyWord {
    Copy,
    Land,
}

/// What is asked of a call.
#[derive(Clone, Copy, Debug)]
pub(crate) enum CallWord {
    Round,
    Answer,
    Drive,
    Finish,
}

/// What is asked of a call's unit for a segment.
#[derive(Clone, Copy, Debug)]
pub(crate) enum UnitWord {
    Begin,
    Scan,
    Fetch,
    Take,
    Done,
}

/// What a line of one word says.
#[derive(Clone, Copy, Debug)]
pub(crate) enum BareWord {
    Announce,
    Advance,
    Settle,
}

/// What a command of a stepped run begins with.
#[derive(Clone, Copy, Debug)]
pub(crate) enum StepWord {
    Put,
    Erase,
    Call,
    Tick,
    Join,
    Depart,
    Install,
    Copies(CopyWord),
    Calls(CallWord),
    Units(UnitWord),
    Bare(BareWord),
}

/// What a line of a live script begins with.
#[derive(Clone, Copy, Debug)]
pub(crate) enum LiveWord {
    Load,
    Changes,
    Session,
    Join,
    Depart,
    Put,
    Erase,
    Call,
}

/// The word of a guarantee.
#[derive(Clone, Copy, Debug)]
pub(crate) struct GuaranteeWord {
    pub guarantee: Guarantee,
}

/// The word of a transfer.
fn copy_word(word: CopyWord) -> &'static str
    ensures { result.now ≡ copy_word word }
{
    match word {
        CopyWord::Copy => "copy ",
        CopyWord::Land => "land ",
    }
}

/// The word of what is asked of a call.
fn call_word(word: CallWord) -> &'static str
    ensures { result.now ≡ call_word word }
{
    match word {
        CallWord::Round => "round ",
        CallWord::Answer => "answer ",
        CallWord::Drive => "drive ",
        CallWord::Finish => "finish ",
    }
}

/// The word of what is asked of a unit.
fn unit_word(word: UnitWord) -> &'static str
    ensures { result.now ≡ unit_word word }
{
    match word {
        UnitWord::Begin => "begin ",
        UnitWord::Scan => "scan ",
        UnitWord::Fetch => "fetch ",
        UnitWord::Take => "take ",
        UnitWord::Done => "done ",
    }
}

/// The word of a line that has no other.
fn bare_word(word: BareWord) -> &'static str
    ensures { result.now ≡ bare_word word }
{
    match word {
        BareWord::Announce => "announce",
        BareWord::Advance => "advance",
        BareWord::Settle => "settle",
    }
}

impl Word for StepWord {
    ghost use Rattle.grid_script.specs.Words.{step_word};

    ghost word = { step_word };

    fn word(self) -> &'static str {
        match self {
            StepWord::Put => "put ",
            StepWord::Erase => "erase ",
            StepWord::Call => "call ",
            StepWord::Tick => "tick ",
            StepWord::Join => "join ",
            StepWord::Depart => "depart ",
            StepWord::Install => "install ",
            StepWord::Copies(word) => copy_word(word),
            StepWord::Calls(word) => call_word(word),
            StepWord::Units(word) => unit_word(word),
            StepWord::Bare(word) => bare_word(word),
        }
    }
}

impl Word for LiveWord {
    ghost use Rattle.grid_script.specs.Words.{live_word};

    ghost word = { live_word };

    fn word(self) -> &'static str {
        match self {
            LiveWord::Load => "load",
            LiveWord::Changes => "changes",
            LiveWord::Session => "session ",
            LiveWord::Join => "join ",
            LiveWord::Depart => "depart ",
            LiveWord::Put => "put ",
            LiveWord::Erase => "erase ",
            LiveWord::Call => "call ",
        }
    }
}

impl Word for GuaranteeWord {
    ghost use Rattle.grid_script.specs.Words.{asked_word};

    ghost word = { asked_word };

    fn word(self) -> &'static str {
        match self.guarantee {
            Guarantee::Exact => "exact ",
            Guarantee::AtLeast => "atleast ",
            Guarantee::AtMost => "atmost ",
        }
    }
}

/// Reads with what a command of a stepped run begins.
#[tactic(auto, unfolding(crate::specs::Words::step_word_at, crate::specs::Words::step_words))]
pub(crate) fn read_step_word(text: &[u8]) -> Result<(StepWord, &[u8]), Unread>
    ensures { Reads result (step_word_at text.now) }
{
    read_word(
        &[
            StepWord::Put,
            StepWord::Erase,
            StepWord::Call,
            StepWord::Tick,
            StepWord::Join,
            StepWord::Depart,
            StepWord::Install,
            StepWord::Copies(CopyWord::Copy),
            StepWord::Copies(CopyWord::Land),
            StepWord::Calls(CallWord::Round),
            StepWord::Calls(CallWord::Answer),
            StepWord::Calls(CallWord::Drive),
            StepWord::Calls(CallWord::Finish),
            StepWord::Units(UnitWord::Begin),
            StepWord::Units(UnitWord::Scan),
            StepWord::Units(UnitWord::Fetch),
            StepWord::Units(UnitWord::Take),
            StepWord::Units(UnitWord::Done),
            StepWord::Bare(BareWord::Announce),
            StepWord::Bare(BareWord::Advance),
            StepWord::Bare(BareWord::Settle),
        ],
        text,
    )
}

/// Reads with what a line of a live script begins.
#[tactic(auto, unfolding(crate::specs::Words::live_word_at, crate::specs::Words::live_words))]
pub(crate) fn read_live_word(text: &[u8]) -> Result<(LiveWord, &[u8]), Unread>
    ensures { Reads result (live_word_at text.now) }
{
    read_word(
        &[
            LiveWord::Load,
            LiveWord::Changes,
            LiveWord::Session,
            LiveWord::Join,
            LiveWord::Depart,
            LiveWord::Put,
            LiveWord::Erase,
            LiveWord::Call,
        ],
        text,
    )
}

/// Reads a guarantee, and the blank behind it.
#[tactic(auto, unfolding(crate::specs::Words::guarantee_at, crate::specs::Words::guarantee_words))]
pub(crate) fn read_guarantee(text: &[u8]) -> Result<(GuaranteeWord, &[u8]), Unread>
    ensures { Reads result (guarantee_at text.now) }
{
    read_word(
        &[
            GuaranteeWord {
                guarantee: Guarantee::Exact,
            },
            GuaranteeWord {
                guarantee: Guarantee::AtLeast,
            },
            GuaranteeWord {
                guarantee: Guarantee::AtMost,
            },
        ],
        text,
    )
}
