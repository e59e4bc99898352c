//! Scripts of stepped runs.

use crate::step_line::StepLine;
use grid_event::Config;
use sqlite_items::Items;
use std::marker::Model;

/// A script of a stepped run: the settings of the cluster, which are in their limits, and the lines
/// that order something, in their order.
#[derive(Debug, Drop)]
pub struct StepScript {
    pub config: Config,
    pub lines: Items<StepLine>,
}

impl Model for StepScript {
    ghost use Rattle.std.specs.Prelude.{◌≡◌, true};
    ghost use Rattle.std.specs.Coded.{codes};
    ghost use Rattle.pipeline_expr.specs.contracts.expr.Expr as exprs;
    ghost use Rattle.grid_event.specs.Configs.{is_config};
    ghost use Rattle.grid_script.specs.Scripts.{Steps};

    ghost Value = { Steps };

    ghost coded = { Prim.hlevel (codes, exprs.the_row.coded) };

    ghost view = { λ script. record { config = script.config; lines = script.lines } };

    ghost invariant = { λ script. is_config script.config ≡ true };
}
