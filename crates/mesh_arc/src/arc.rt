//! Arcs of directions: a direction is turned by equal steps until it passes an end.

ghost use Rattle.std.specs.Prelude.{◌≡◌, ◌^◌, ◌≤◌, length, [], IsOk, IfOk};
ghost use Rattle.std.specs.Borrow.{sem};
ghost use Rattle.mesh_num.specs.Direction.{IsFresh};
ghost use Rattle.mesh_arc.specs.Arcs.{clamped as clamped_of, step_bits, arc};
ghost use Rattle.mesh_arc.specs.Building.{IsBuilt};
ghost use Rattle.mesh_arc.specs.Gaps.{HasNearGaps, ReachesEnd, NoStepFails, default_options};
ghost use Rattle.mesh_arc.specs.Lent.{EndsWith};
ghost use Rattle.mesh_arc.specs.Private.Steps.{steps_of};

use crate::steps::Steps;
use mesh_num::num::convert::widen;
use mesh_num::num::{Angle, IntNumber, Rotation, UnitIntVector};
use std::alloc::{AllocError, Global};
use std::marker::Model;

/// The sense of a turn, seen with the y axis up.
#[derive(Debug, Clone, Copy, PartialEq, Eq)]
pub enum ArcDirection {
    /// To the right.
    Clockwise,
    /// To the left.
    Counterclockwise,
}

/// How finely an arc is drawn.
#[derive(Debug, Clone, Copy, PartialEq, Eq)]
pub struct ArcOptions {
    /// The greatest angle between neighbouring directions. Values below `MIN_STEP` or above `MAX_STEP` count as these.
    pub max_step: Angle,
    /// How near the step comes to the greatest one: with precision `p` it is `2^p / (2^p + 1)` of it, less `2^33 /
    /// UNIT` bits to allow for rounding. Values below 4 count as 4, those above 32 as 32.
    pub rotation_precision: u32,
}

impl ArcOptions {
    /// The least step that can be asked for, 2^22 bits.
    pub const MIN_STEP: Angle = Angle::FINE_TURN;

    /// The greatest step that can be asked for, 2^29 bits.
    pub const MAX_STEP: Angle = Angle::EIGHTH_TURN;

    // The options with both values brought into their ranges.
    fn clamped(self) -> Self
        ensures { result ≡ clamped_of self }
    {
        let least = ArcOptions::MIN_STEP.bits();
        let most = ArcOptions::MAX_STEP.bits();
        ArcOptions {
            max_step: Angle::from_bits(self.max_step.bits().max(least).min(most)),
            rotation_precision: self.rotation_precision.max(4).min(32),
        }
    }
}

impl Default for ArcOptions {
    fn default() -> Self
        ensures { result ≡ default_options }
    {
        ArcOptions {
            max_step: ArcOptions::MAX_STEP,
            rotation_precision: 5,
        }
    }
}

/// Builds arcs of directions. It keeps its buffer from one arc to the next. Contracts see its options, the directions
/// of the last arc, and how many directions there is memory for.
#[derive(Debug, Drop)]
pub struct IntegerArc<I: IntNumber> {
    options: ArcOptions,
    step: Rotation<I>,
    // Sine and cosine, times 2^30, of the greatest step.
    bound: (i32, i32),
    directions: Vec<UnitIntVector<I>>,
}

/// Builds arcs of directions.
pub type ArcBuilder<I> = IntegerArc<I>;

impl<I: IntNumber> Model for IntegerArc<I> {
    ghost use Rattle.mesh_arc.specs.Building.{Building, building_with};
    ghost use Rattle.mesh_arc.specs.Private.Steps.{IsPrepared};

    ghost Value = { Building };

    ghost view = { λ a. building_with a.options a.directions };

    ghost invariant = { λ a. IsPrepared I.unit a.options a.step a.bound };
}

impl<I: IntNumber> IntegerArc<I> {
    ghost use Rattle.mesh_arc.specs.contracts.arc.IntegerArc.{the_row};

    /// A builder of arcs with these options, each brought into its range. It allocates nothing.
    pub fn new(alloc: Global, options: ArcOptions) -> Self
        ensures options { result.options ≡ clamped_of options }
        ensures empty { result.directions ≡ [] }
    {
        let ArcOptions {
            max_step,
            rotation_precision,
        } = options.clamped();
        IntegerArc {
            options: ArcOptions {
                max_step,
                rotation_precision,
            },
            step: Rotation::new(step_angle::<I>(max_step, rotation_precision)),
            bound: max_step.sin_cos(),
            directions: Vec::new(alloc),
        }
    }

    /// The options, each in its range.
    pub fn options(&self) -> ArcOptions
        ensures { result ≡ self.now.options }
    {
        self.options
    }

    /// The directions of the arc that was built last, none where memory was refused.
    pub fn directions(&self) -> &[UnitIntVector<I>]
        ensures { result.now ≡ self.now.directions }
    {
        &self.directions
    }

    /// Builds the arc as `build` does, and keeps its directions. It fails only where memory is refused: then none is
    /// kept, and the builder has its options and its room still.
    pub fn rebuild(
        &mut self,
        from: UnitIntVector<I>,
        to: UnitIntVector<I>,
        direction: ArcDirection,
    ) -> Result<(), AllocError>
        requires from { IsFresh I.unit from }
        requires to { IsFresh I.unit to }
        ensures built { IsBuilt I.unit self.old self.new direction from to result }
        ensures room { length (arc I.unit self.old.options direction from to) ≤ self.old.room → IsOk result }
    {
        let steps = self.steps(direction);
        steps.fill(from, to, &mut self.directions)
    }

    /// The directions between `from` and `to`, without these two, in this sense: `from` turned by one step, by two, and
    /// so on, until `to` would be passed. There are none where `to` is within the greatest step of `from`. There are at
    /// most 1536, and fewer where rounding makes a step too great or lets it stand still; with the default options it
    /// never does.
    ///
    /// Both directions have to be such as `fast_normalize` returns. The list is borrowed from a buffer that the next
    /// arc reuses; where the buffer has room for the arc nothing is allocated. After an error the buffer is empty.
    pub fn build(
        &mut self,
        from: UnitIntVector<I>,
        to: UnitIntVector<I>,
        direction: ArcDirection,
    ) -> Result<&[UnitIntVector<I>], AllocError>
        requires from { IsFresh I.unit from }
        requires to { IsFresh I.unit to }
        ensures value { IfOk result (λ ds. ds.now ≡ arc I.unit self.old.options direction from to) }
        ensures gaps { IfOk result (λ ds. HasNearGaps self.old.options direction from ds.now) }
        ensures last_gap { IfOk result (λ ds. ReachesEnd I.unit self.old.options direction from to ds.now) }
        ensures default_steps { self.old.options ≡ default_options → NoStepFails I.unit default_options direction from }
        ensures room { length (arc I.unit self.old.options direction from to) ≤ self.old.room → IsOk result }
        // Once the directions are no longer used, the builder is as after `rebuild`.
        ensures* after { sem 𝓛 (EndsWith
            (the_row I.row I.Wide.row I.WideUInt.row I.IntNumber.own I.Ord.own I.PartialEq I.PartialOrd.own
            I.Wide.WideNumber.own I.WideUInt.WideUnsigned.own)
            self.entry (λ n. IsBuilt I.unit self.old n direction from to result)) }
    {
        self.rebuild(from, to, direction)?;
        Ok(&self.directions)
    }

    // The steps in this sense.
    fn steps(&self, direction: ArcDirection) -> Steps<I>
        ensures { result ≡ steps_of I.unit self.now.options direction }
    {
        let rotation = match direction {
            ArcDirection::Counterclockwise => self.step,
            ArcDirection::Clockwise => self.step.inverse(),
        };
        Steps::new(rotation, self.bound, direction)
    }
}

// The angle by which an arc turns at each step.
fn step_angle<I: IntNumber>(max_step: Angle, rotation_precision: u32) -> Angle
    requires least { 2 ^ 22 ≤ max_step }
    requires most { max_step ≤ 2 ^ 29 }
    requires precision { rotation_precision ≤ 32 }
    ensures { result ≡ step_bits I.unit (record { max_step = max_step; rotation_precision = rotation_precision }) }
{
    let reserve = (1 << 33) / widen(I::UNIT).unsigned_abs();
    let share: u128 = 1 << rotation_precision;
    let bits = (max_step.bits() as u128 - reserve) * share / (share + 1);
    Angle::from_bits(bits as u32)
}
