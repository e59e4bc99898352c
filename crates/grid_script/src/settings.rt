//! Reading the head of a script.

ghost use Rattle.std.specs.Prelude.{◌≡◌, ◌+◌, ◌<◌, ◌≤◌, ◌^◌, true, length, IfOk, IfSome};
ghost use Rattle.grid_base.specs.declared.limits.TheConstants.{LONGEST_SCRIPT};
ghost use Rattle.grid_event.specs.Configs.{is_config};
ghost use Rattle.grid_script.specs.Judging.{Says};
ghost use Rattle.text_lines.specs.Lines.{Line, lines_of};
ghost use Rattle.grid_script.specs.Settings.{aim_from, aim_in, is_skipped, with_aim, head_of, needs_kind_line, number_within, partition_in, same_kind, setting_from, setting_in, setting_line_in, settings, settings_from, unset, values_in, with_setting};
ghost use Rattle.grid_script.specs.Heads.{Heads, behind_of};

use crate::head_words::{Setting, read_kind, read_partition_word, read_values_word, setting_word};
use crate::line_fault::LineFault;
use crate::lines::{needs_whole, on_line, says_nothing};
use crate::readers::{read_end, read_last_number};
use crate::reason::Reason;
use crate::rules;
use crate::rules::needs;
use crate::script_fault::ScriptFault;
use crate::script_kind::ScriptKind;
use grid_base::limits::{LONGEST_LINE, MOST_CHUNK, MOST_NODES, MOST_OWNERS, MOST_SEGMENTS};
use grid_event::{Config, Partition, ValueKind};
use pipeline_parse::reading::read_literal;
use text_lines::first_line;
use topology_phase::Aim;

/// The settings so far, the number of the next line, and the text from that line on.
#[derive(Clone, Copy, Debug)]
pub(crate) struct Head<'a> {
    pub config: Config,
    pub number: u32,
    pub rest: &'a [u8],
}

/// The settings before any is read.
fn unset() -> Config
    ensures unset { result ≡ unset }
    ensures limits { is_config result ≡ true }
{
    Config {
        nodes: 1,
        segments: 1,
        owners: 1,
        partition: Partition::Plain,
        values: ValueKind::Int,
        chunk: 1,
        aim: Aim::Create,
    }
}

/// Reads a number from 1 to a greatest one that ends the line.
#[tactic(auto, unfolding(crate::specs::Settings::number_within))]
fn read_number_within(most: u32, text: &[u8]) -> Result<u32, LineFault>
    ensures judged { Says result (number_within most text.now) }
    ensures least { IfOk result (λ n. 1 ≤ n) }
    ensures most { IfOk result (λ n. n ≤ most) }
{
    let number = read_last_number(text)?;
    rules::number_within(1, most, number)
}

/// Reads how keys are divided.
#[tactic(auto, unfolding(crate::specs::Settings::partition_in))]
fn read_partition(text: &[u8]) -> Result<Partition, LineFault>
    ensures { Says result (partition_in text.now) }
{
    let (word, rest) = read_partition_word(text)?;
    read_end(rest)?;
    Ok(word.partition)
}

/// Reads the kind of the values.
#[tactic(auto, unfolding(crate::specs::Settings::values_in))]
fn read_values(text: &[u8]) -> Result<ValueKind, LineFault>
    ensures { Says result (values_in text.now) }
{
    let (word, rest) = read_values_word(text)?;
    read_end(rest)?;
    Ok(word.kind)
}

/// The settings with what a setting says behind its word.
#[tactic(auto, unfolding(crate::specs::Settings::with_setting))]
fn with_setting(config: Config, setting: Setting, text: &[u8]) -> Result<Config, LineFault>
    requires { is_config config ≡ true }
    ensures judged { Says result (with_setting config setting text.now) }
    ensures limits { IfOk result (λ made. is_config made ≡ true) }
{
    match setting {
        Setting::Nodes => {
            let nodes = read_number_within(u32::from(MOST_NODES), text)?;
            Ok(Config {
                nodes: nodes as u8,
                ..config
            })
        }
        Setting::Segments => {
            let segments = read_number_within(u32::from(MOST_SEGMENTS), text)?;
            Ok(Config {
                segments: segments as u16,
                ..config
            })
        }
        Setting::Owners => {
            let owners = read_number_within(u32::from(MOST_OWNERS), text)?;
            Ok(Config {
                owners: owners as u8,
                ..config
            })
        }
        Setting::Partition => {
            let partition = read_partition(text)?;
            Ok(Config {
                partition,
                ..config
            })
        }
        Setting::Values => {
            let values = read_values(text)?;
            Ok(Config { values, ..config })
        }
        Setting::Chunk => {
            let chunk = read_number_within(u32::from(MOST_CHUNK), text)?;
            Ok(Config {
                chunk: chunk as u16,
                ..config
            })
        }
    }
}

/// The settings behind the line of a setting.
#[tactic(auto, unfolding(crate::specs::Settings::setting_in))]
fn read_setting_text(config: Config, setting: Setting, text: &[u8]) -> Result<Config, LineFault>
    requires { is_config config ≡ true }
    ensures judged { Says result (setting_in config setting text.now) }
    ensures limits { IfOk result (λ made. is_config made ≡ true) }
{
    let rest = read_literal(setting_word(setting), text)?;
    with_setting(config, setting, rest)
}

/// The settings behind a line, or none where it says nothing.
#[tactic(auto, unfolding(crate::specs::Settings::setting_line_in))]
fn read_setting_line(
    config: Config,
    setting: Setting,
    line: &[u8],
    ended: bool,
) -> Result<Option<Config>, LineFault>
    requires { is_config config ≡ true }
    ensures judged { Says result (setting_line_in config setting (record { bytes = line.now; ended = ended })) }
    ensures limits { IfOk result (λ found. IfSome found (λ made. is_config made ≡ true)) }
{
    needs_whole(line, ended)?;
    if says_nothing(line) {
        return Ok(None);
    }
    let config = read_setting_text(config, setting, line)?;
    Ok(Some(config))
}

/// Reads a setting, which stands in the next line that says something.
fn read_setting(
    config: Config,
    setting: Setting,
    number: u32,
    text: &[u8],
) -> Result<Head<'_>, ScriptFault>
    requires settings { is_config config ≡ true }
    requires lines { number + length text.now < 2 ^ 32 }
    ensures told { Heads result (setting_from config setting number (lines_of text.now)) }
    ensures limits { IfOk result (λ next. is_config next.config ≡ true) }
    ensures lines { IfOk result (λ next. next.number + length next.rest.now ≤ number + length text.now) }
{
    let mut line = number;
    let mut rest = text;
    'lines: while !rest.is_empty() {
        let cut = first_line(rest);
        match read_setting_line(config, setting, cut.line, cut.ended) {
            Ok(None) => {
                line += 1;
                rest = cut.rest;
            }
            Ok(Some(config)) => {
                return Ok(Head {
                    config,
                    number: line + 1,
                    rest: cut.rest,
                });
            }
            Err(fault) => return Err(on_line(line, fault)),
        }
    }
    Err(ScriptFault::Refused {
        line,
        reason: Reason::Syntax,
    })
}

/// Reads the settings, one behind the other, from the line of this number on.
#[tactic(auto, unfolding(crate::specs::Settings::settings_from))]
fn read_settings(number: u32, text: &[u8]) -> Result<Head<'_>, ScriptFault>
    requires { number + length text.now < 2 ^ 32 }
    ensures told { Heads result (settings_from unset settings number (lines_of text.now)) }
    ensures limits { IfOk result (λ next. is_config next.config ≡ true) }
    ensures lines { IfOk result (λ next. next.number + length next.rest.now ≤ number + length text.now) }
{
    let head = read_setting(unset(), Setting::Nodes, number, text)?;
    let head = read_setting(head.config, Setting::Segments, head.number, head.rest)?;
    let head = read_setting(head.config, Setting::Owners, head.number, head.rest)?;
    let head = read_setting(head.config, Setting::Partition, head.number, head.rest)?;
    let head = read_setting(head.config, Setting::Values, head.number, head.rest)?;
    read_setting(head.config, Setting::Chunk, head.number, head.rest)
}

/// The settings with the aim that the next line sets that says something; where it sets none, no
/// line is taken.
#[tactic(auto, unfolding(crate::specs::Settings::with_aim))]
fn with_aim(config: Config, number: u32, text: &[u8]) -> Head<'_>
    requires lines { number + length text.now < 2 ^ 32 }
    requires settings { is_config config ≡ true }
    ensures aimed { behind_of result ≡ with_aim (record { it = config; next = number; lines = lines_of text.now }) }
    ensures limits { is_config result.config ≡ true }
    ensures lines { result.number + length result.rest.now ≤ number + length text.now }
{
    let mut line = number;
    let mut rest = text;
    'lines: while !rest.is_empty() {
        let cut = first_line(rest);
        if is_skipped(cut.line, cut.ended) {
            line += 1;
            rest = cut.rest;
            continue;
        }
        return match aim_in(cut.line, cut.ended) {
            Some(aim) => Head {
                config: Config { aim, ..config },
                number: line + 1,
                rest: cut.rest,
            },
            None => Head {
                config,
                number,
                rest: text,
            },
        };
    }
    Head {
        config,
        number,
        rest: text,
    }
}

/// Whether a line may stand there and says nothing.
fn is_skipped(line: &[u8], ended: bool) -> bool
    ensures { result ≡ is_skipped (record { bytes = line.now; ended = ended }) }
{
    line.len() <= LONGEST_LINE && ended && says_nothing(line)
}

/// The aim that a line sets, where it sets one.
fn aim_in(line: &[u8], ended: bool) -> Option<Aim>
    ensures { result ≡ aim_in (record { bytes = line.now; ended = ended }) }
{
    if !ended {
        return None;
    }
    if line == b"hash create".as_slice() {
        return Some(Aim::Create);
    }
    if line == b"hash least".as_slice() {
        return Some(Aim::Least);
    }
    None
}

/// Whether two kinds of scripts are one.
fn same_kind(left: ScriptKind, right: ScriptKind) -> bool
    ensures { result ≡ same_kind left right }
{
    match (left, right) {
        (ScriptKind::Step, ScriptKind::Step) => true,
        (ScriptKind::Live, ScriptKind::Live) => true,
        _ => false,
    }
}

/// Refuses a first line that doesn't name the kind that is asked for.
#[tactic(auto, unfolding(crate::specs::Settings::needs_kind_line))]
fn needs_kind_line(kind: ScriptKind, line: &[u8], ended: bool) -> Result<(), LineFault>
    ensures { Says result (needs_kind_line kind (record { bytes = line.now; ended = ended })) }
{
    needs_whole(line, ended)?;
    let (word, rest) = read_kind(line)?;
    read_end(rest)?;
    needs(same_kind(word.kind, kind), Reason::OtherKind)
}

/// Reads the head of a script.
#[tactic(auto, unfolding(crate::specs::Settings::head_of))]
pub(crate) fn read_head(kind: ScriptKind, text: &[u8]) -> Result<Head<'_>, ScriptFault>
    requires { length text.now ≤ LONGEST_SCRIPT }
    ensures told { Heads result (head_of kind (lines_of text.now)) }
    ensures limits { IfOk result (λ next. is_config next.config ≡ true) }
    ensures lines { IfOk result (λ next. next.number + length next.rest.now ≤ 2 + LONGEST_SCRIPT) }
{
    if text.is_empty() {
        return Err(ScriptFault::Refused {
            line: 1,
            reason: Reason::Syntax,
        });
    }
    let cut = first_line(text);
    match needs_kind_line(kind, cut.line, cut.ended) {
        Ok(()) => {
            let head = read_settings(2, cut.rest)?;
            Ok(with_aim(head.config, head.number, head.rest))
        }
        Err(fault) => Err(on_line(1, fault)),
    }
}
