//! Scripts of live runs.

use crate::member::Member;
use crate::session::Session;
use grid_base::Entries;
use grid_event::Config;
use sqlite_items::Items;
use std::marker::Model;

/// A script of a live run: the settings of the cluster, the entries that are loaded first, the
/// changes of the membership, and the sessions. It keeps the rules of scripts: each number is in
/// its limits, each change is possible behind those before it, the sessions are numbered from 1 and
/// have first nodes as their homes, no two calls have one number, each pipeline checks, each key has
/// a segment, and each value is of the settings' kind.
#[derive(Debug, Drop)]
pub struct LiveScript {
    pub config: Config,
    pub load: Entries,
    pub changes: Items<Member>,
    pub sessions: Items<Session>,
}

impl Model for LiveScript {
    ghost use Rattle.std.specs.Coded.{codes};
    ghost use Rattle.pipeline_expr.specs.contracts.expr.Expr as exprs;
    ghost use Rattle.grid_script.specs.LiveRules.{IsLive};
    ghost use Rattle.grid_script.specs.Scripts.{Lives};

    ghost Value = { Lives };

    ghost coded = { Prim.hlevel (codes, exprs.the_row.coded) };

    ghost view = { λ script. record { config = script.config; load = script.load.list; changes = script.changes; sessions = script.sessions } };

    ghost invariant = { λ script. IsLive (record { config = script.config; load = script.load.list; changes = script.changes; sessions = script.sessions }) };
}
