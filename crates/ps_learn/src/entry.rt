//! A literal of a trail.
use ps_pb::Lit;
use std::marker::Model;

/// A literal that was set, the id of the constraint that forced it, or none where it was decided,
/// and its level.
#[derive(Drop)]
pub struct TrailEntry {
    /// The literal.
    pub lit: Lit,
    /// The id of the constraint that forced it; none where it was decided.
    pub reason: Option<u64>,
    /// Its level.
    pub level: u32,
}

impl Model for TrailEntry {
    ghost use Rattle.ps_learn.specs.Trails.{TrailEntry as TrailEntryValue};

    ghost Value = { TrailEntryValue };

    ghost view = { λ e. record { lit = e.lit; reason = e.reason; level = e.level } };
}
