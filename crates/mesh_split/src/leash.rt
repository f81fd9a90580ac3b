//! How far splits may lead from the given edges, which ones were held back for that, and in which order the edges of
//! these are split in the next attempt. Nothing is promised of it: whatever it answers, splits are legal.

use crate::nearness::distance;
use crate::split_log::SplitLog;
use crate::tuning::{
    LEASH, LONG, MOST_ORDERS, MOST_SPLITS_ANEW, MOST_STEPS, NARROW, NEAR_AN_END, NEIGHBOURS, RINGS,
};
use crate::witnesses::Witnesses;
use mesh_lattice::exact::{cross, is_end, minus};
use mesh_lattice::lattice::{LatticeEdge, LatticePoint};
use mesh_store::store::Store;
use mesh_store::tree::Meeting;
use mesh_store::tuning::SCATTERING;
use std::alloc::{AllocError, Global};
use std::collections::HashMap;

/// What an attempt may do, and what it could not do for that.
#[derive(Drop)]
pub struct Leash {
    alloc: Global,
    /// The given edges that the pieces of this attempt come from.
    witnesses: Witnesses,
    /// Of how many of its splits these are the pieces.
    learned: usize,
    /// How often the pieces of two given edges were split near an end in this attempt.
    steps: HashMap<(LatticeEdge, LatticeEdge), u64>,
    /// The given edges of splits that were held back in this attempt.
    held: HashMap<LatticeEdge, ()>,
    /// Those of attempts before, each with the number of orders that were drawn for it.
    noted: HashMap<LatticeEdge, u64>,
    /// How many splits the attempts before made.
    dropped: usize,
}

/// The greater of an edge's differences in `x` and in `y`.
fn length(e: LatticeEdge) -> u128 {
    let way = minus(e.1, e.0);
    way.0.unsigned_abs().max(way.1.unsigned_abs())
}

/// Greater for a greater angle between two edges.
fn angle(e: LatticeEdge, f: LatticeEdge) -> u64 {
    let sine = cross(minus(e.1, e.0), minus(f.1, f.0)).unsigned_abs();
    let share = sine.saturating_mul(1 << 56) / length(e).saturating_mul(length(f)).max(1);
    share.min(1 << 62) as u64
}

/// Whether two points differ by few units.
fn is_near(p: LatticePoint, q: LatticePoint) -> bool {
    let way = minus(p, q);
    way.0.unsigned_abs() <= NEAR_AN_END && way.1.unsigned_abs() <= NEAR_AN_END
}

/// Whether a segment is split there, and near an end of it. Runs cut pieces of few units off.
fn is_cut_near_an_end(e: LatticeEdge, c: LatticePoint) -> bool {
    !is_end(c, e) && (is_near(c, e.0) || is_near(c, e.1))
}

/// Whether a long segment would be split near an end.
fn is_at_a_tip(e: LatticeEdge, c: LatticePoint) -> bool {
    LONG <= length(e) && (is_near(c, e.0) || is_near(c, e.1))
}

/// Whether the pieces of two segments that cross are likely to meet anew where they are split: short pieces of long
/// segments are bent much there, and nearly parallel ones soon meet elsewhere.
pub fn is_delicate(e: LatticeEdge, m: Meeting) -> bool {
    let (f, c) = m;
    let do_cross = !is_end(c, e) && !is_end(c, f);
    do_cross && (is_at_a_tip(e, c) || is_at_a_tip(f, c) || angle(e, f) < NARROW)
}

/// A number that looks random, and is the same for the same numbers.
fn mixed(a: u64, b: u64) -> u64 {
    let sum = (a ^ b).wrapping_mul(SCATTERING);
    sum ^ (sum >> 29)
}

/// A number that looks random for a point.
fn number_of(p: LatticePoint) -> u64 {
    mixed(
        mixed(u64::from(p.0.unsigned_abs()), 1),
        u64::from(p.1.unsigned_abs()),
    )
}

/// A number that looks random for two edges, and is the same for both orders of them.
fn drawn(e: LatticeEdge, f: LatticeEdge, turn: u64) -> u64 {
    let first = mixed(number_of(e.0), number_of(e.1));
    let second = mixed(number_of(f.0), number_of(f.1));
    mixed(mixed(first.wrapping_add(second), turn), turn)
}

impl Leash {
    /// No edge is noted.
    pub fn new(alloc: Global) -> Self {
        Leash {
            alloc,
            witnesses: Witnesses::new(alloc),
            learned: 0,
            steps: HashMap::new(alloc),
            held: HashMap::new(alloc),
            noted: HashMap::new(alloc),
            dropped: 0,
        }
    }

    /// Whether a split of a given edge, the lesser end first, was held back in an attempt before.
    pub fn has_noted(&self, e: LatticeEdge) -> bool {
        self.turn(e) > 0
    }

    /// Whether a split was held back in this attempt, and another order may serve.
    pub fn has_held(&self) -> bool {
        self.held.len() > 0
    }

    /// The same, and not too many splits were made in vain, those of this attempt among them.
    pub fn wants_another(&self, log: &SplitLog) -> bool {
        self.has_held() && self.dropped.saturating_add(log.len()) <= MOST_SPLITS_ANEW
    }

    /// Notes where the pieces come from of the splits that were made since.
    pub fn learn(&mut self, log: &SplitLog) -> Result<(), AllocError> {
        let splits = log.splits();
        let (_, others) = splits.split_at(self.learned.min(splits.len()));
        for (ends, at) in others {
            let witness = self.witnesses.of(*ends);
            self.witnesses.note((ends.0, *at), witness)?;
            self.witnesses.note((*at, ends.1), witness)?;
        }
        self.learned = log.len();
        Ok(())
    }

    /// Whether a segment, which comes from a given edge, may be split there, or need not be.
    fn reaches(e: LatticeEdge, witness: LatticeEdge, c: LatticePoint) -> bool {
        !is_cut_near_an_end(e, c) || distance(witness, c) <= LEASH
    }

    /// How often the pieces of two given edges were split near an end, this time counted.
    fn step(&mut self, first: LatticeEdge, second: LatticeEdge) -> Result<u64, AllocError> {
        let pair = if first < second {
            (first, second)
        } else {
            (second, first)
        };
        let steps = match self.steps.get(&pair) {
            Some(steps) => steps.saturating_add(1),
            None => 1,
        };
        self.steps.insert(pair, steps)?;
        Ok(steps)
    }

    /// Whether two segments that meet may be split. What is held back is noted.
    pub fn allows(
        &mut self,
        e: LatticeEdge,
        m: Meeting,
        log: &SplitLog,
    ) -> Result<bool, AllocError> {
        let is_near_an_end = is_cut_near_an_end(e, m.1) || is_cut_near_an_end(m.0, m.1);
        if !is_near_an_end && !self.has_held() {
            return Ok(true);
        }
        self.learn(log)?;
        let first = self.witnesses.of(e);
        let second = self.witnesses.of(m.0);
        if self.held.contains_key(&first) && self.held.contains_key(&second) {
            return Ok(false);
        }
        if !is_near_an_end {
            return Ok(true);
        }
        let steps = self.step(first, second)?;
        let reach = Leash::reaches(e, first, m.1) && Leash::reaches(m.0, second, m.1);
        if steps <= MOST_STEPS && reach {
            return Ok(true);
        }
        self.hold(first, second)?;
        Ok(false)
    }

    /// Notes two given edges whose pieces are not split, unless their order was drawn too often.
    fn hold(&mut self, first: LatticeEdge, second: LatticeEdge) -> Result<(), AllocError> {
        if self.turn(first).max(self.turn(second)) < MOST_ORDERS {
            self.held.insert(first, ())?;
            self.held.insert(second, ())?;
        }
        Ok(())
    }

    /// Notes the given edges whose segments meet an edge that is noted of this attempt.
    fn note_ring(&mut self, live: &Store) -> Result<(), AllocError> {
        let held: Vec<LatticeEdge> = self.held.keys().copied().collect(self.alloc)?;
        for e in &held {
            for m in live.meetings(*e)?.iter().take(NEIGHBOURS) {
                self.held.insert(self.witnesses.of(m.0), ())?;
            }
        }
        Ok(())
    }

    /// The same again and again, at the end of an attempt.
    pub fn note_neighbours(&mut self, live: &Store, log: &SplitLog) -> Result<(), AllocError> {
        self.learn(log)?;
        for _ring in 0..RINGS {
            self.note_ring(live)?;
        }
        Ok(())
    }

    /// Begins the next attempt: the order of what was held back is drawn anew. Where an edge is among it that was not
    /// held back before, all of it begins with the first order.
    pub fn draw(&mut self, log: &SplitLog) -> Result<(), AllocError> {
        let held: Vec<LatticeEdge> = self.held.keys().copied().collect(self.alloc)?;
        let begins = held.iter().any(|e| !self.has_noted(*e));
        for e in &held {
            let turn = self.turn(*e);
            let next = if begins && turn < MOST_ORDERS {
                1
            } else {
                turn.saturating_add(1).min(MOST_ORDERS)
            };
            self.noted.insert(*e, next)?;
        }
        self.dropped = self.dropped.saturating_add(log.len());
        self.witnesses = Witnesses::new(self.alloc);
        self.learned = 0;
        self.steps = HashMap::new(self.alloc);
        self.held = HashMap::new(self.alloc);
        Ok(())
    }

    /// How often the order of the splits of a given edge was drawn.
    fn turn(&self, e: LatticeEdge) -> u64 {
        self.noted.get(&e).copied().unwrap_or(0)
    }

    /// Greater for two segments that are to be split before others. Some contours end only where ends inside segments
    /// go first, others only where these wait.
    pub fn priority(&self, s: LatticeEdge, m: Meeting) -> u64 {
        let e = self.witnesses.of(s);
        let f = self.witnesses.of(m.0);
        let turn = self.turn(e).max(self.turn(f));
        if turn % 3 != 2 && (is_end(m.1, s) || is_end(m.1, m.0)) {
            return u64::MAX;
        }
        match turn {
            1 | MOST_ORDERS => angle(e, f),
            2 => (u64::MAX / 2).saturating_sub(angle(e, f)),
            turn => drawn(e, f, turn) / 2,
        }
    }
}
