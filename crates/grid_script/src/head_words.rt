//! The words of the head of a script.

ghost use Rattle.std.specs.Prelude.{◌≡◌};
ghost use Rattle.pipeline_parse.specs.Gives.{Reads};
ghost use Rattle.grid_script.specs.Settings.{kinds_at, partition_at, setting_word, values_at};

use crate::script_kind::ScriptKind;
use grid_event::{Partition, ValueKind};
use pipeline_parse::reading::read_word;
use pipeline_parse::{Unread, Word};

/// The settings, in their order.
#[derive(Clone, Copy, Debug)]
pub(crate) enum Setting {
    Nodes,
    Segments,
    Owners,
    Partition,
    Values,
    Chunk,
}

/// The line of a kind of scripts.
#[derive(Clone, Copy, Debug)]
pub(crate) struct ScriptWord {
    pub kind: ScriptKind,
}

/// The word of a division of the keys.
#[derive(Clone, Copy, Debug)]
pub(crate) struct PartitionWord {
    pub partition: Partition,
}

/// The word of a kind of values.
#[derive(Clone, Copy, Debug)]
pub(crate) struct KindWord {
    pub kind: ValueKind,
}

impl Word for ScriptWord {
    ghost use Rattle.grid_script.specs.Settings.{script_word};

    ghost word = { script_word };

    fn word(self) -> &'static str {
        match self.kind {
            ScriptKind::Step => "script step",
            ScriptKind::Live => "script live",
        }
    }
}

impl Word for PartitionWord {
    ghost use Rattle.grid_script.specs.Settings.{partition_word};

    ghost word = { partition_word };

    fn word(self) -> &'static str {
        match self.partition {
            Partition::Plain => "plain",
            Partition::Grouped => "grouped",
        }
    }
}

impl Word for KindWord {
    ghost use Rattle.grid_script.specs.Settings.{values_word};

    ghost word = { values_word };

    fn word(self) -> &'static str {
        match self.kind {
            ValueKind::Int => "int",
            ValueKind::Text => "text",
            ValueKind::Flag => "flag",
        }
    }
}

/// The word of a setting, with the blank behind it.
pub(crate) fn setting_word(setting: Setting) -> &'static str
    ensures { result.now ≡ setting_word setting }
{
    match setting {
        Setting::Nodes => "nodes ",
        Setting::Segments => "segments ",
        Setting::Owners => "owners ",
        Setting::Partition => "partition ",
        Setting::Values => "values ",
        Setting::Chunk => "chunk ",
    }
}

/// Reads the kind of a script.
#[tactic(auto, unfolding(crate::specs::Settings::kinds_at))]
pub(crate) fn read_kind(text: &[u8]) -> Result<(ScriptWord, &[u8]), Unread>
    ensures { Reads result (kinds_at text.now) }
{
    read_word(
        &[
            ScriptWord {
                kind: ScriptKind::Step,
            },
            ScriptWord {
                kind: ScriptKind::Live,
            },
        ],
        text,
    )
}

/// Reads how keys are divided.
#[tactic(auto, unfolding(crate::specs::Settings::partition_at))]
pub(crate) fn read_partition_word(text: &[u8]) -> Result<(PartitionWord, &[u8]), Unread>
    ensures { Reads result (partition_at text.now) }
{
    read_word(
        &[
            PartitionWord {
                partition: Partition::Plain,
            },
            PartitionWord {
                partition: Partition::Grouped,
            },
        ],
        text,
    )
}

/// Reads the kind of the values.
#[tactic(auto, unfolding(crate::specs::Settings::values_at))]
pub(crate) fn read_values_word(text: &[u8]) -> Result<(KindWord, &[u8]), Unread>
    ensures { Reads result (values_at text.now) }
{
    read_word(
        &[
            KindWord {
                kind: ValueKind::Int,
            },
            KindWord {
                kind: ValueKind::Text,
            },
            KindWord {
                kind: ValueKind::Flag,
            },
        ],
        text,
    )
}
