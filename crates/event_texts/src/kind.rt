//! The kinds of events, by their words.

use pipeline_parse::Word;

/// A kind of event.
#[derive(Clone, Copy, Debug, PartialEq, Eq)]
pub(crate) enum Kind {
    Write,
    Erase,
    Tick,
    Join,
    Depart,
    Announce,
    Install,
    Copy,
    Land,
    Invoke,
    Round,
    Begin,
    Scan,
    Fetch,
    Take,
    Done,
    Answer,
}

impl Word for Kind {
    ghost use Rattle.event_texts.specs.Kinds.{kind_word};

    ghost word = { kind_word };

    fn word(self) -> &'static str {
        match self {
            Kind::Write => "write",
            Kind::Erase => "erase",
            Kind::Tick => "tick",
            Kind::Join => "join",
            Kind::Depart => "depart",
            Kind::Announce => "announce",
            Kind::Install => "install",
            Kind::Copy => "copy",
            Kind::Land => "land",
            Kind::Invoke => "invoke",
            Kind::Round => "round",
            Kind::Begin => "begin",
            Kind::Scan => "scan",
            Kind::Fetch => "fetch",
            Kind::Take => "take",
            Kind::Done => "done",
            Kind::Answer => "answer",
        }
    }
}
