//! What happens in a cluster, as data: its configuration, the requests of calls, the events and the
//! commands that choose them, the outcomes, and the journal that keeps the events in their order.
#![tactic(auto)]

mod boxes;
mod call_events;
mod command;
mod config;
mod event;
mod idle;
mod journal;
mod outcome;
mod push_fault;
mod request;
mod store_events;
mod unit_events;

pub use call_events::{AnswerEvent, Ask, InvokeEvent, RoundEvent};
pub use command::Command;
pub use config::Config;
pub use delivery_mode::Guarantee;
pub use event::Event;
pub use idle::Idle;
pub use journal::Journal;
pub use outcome::Outcome;
pub use pipeline_expr::{
    Answer, CheckFault, End, Expr, Exprs, Kind, Op, Ops, Pipeline, Spread, ValueKind,
};
pub use push_fault::PushFault;
pub use request::Request;
pub use segment_hash::Partition;
pub use store_events::{CopyEvent, EraseEvent, WriteEvent};
pub use topology_phase::Topology;
pub use unit_events::{FetchEvent, ScanEvent, TakeEvent};
