//! Buffers and insets: what contours fill, with all that strokes along them cover, or without it.

ghost use Rattle.std.specs.Prelude.{◌≡◌, ◌↔◌, ◌≤◌, ◌^◌, IfOk, IsTrue, OnOk};
ghost use Rattle.mesh_num.specs.Paths.{paths_of, shapes_of};
ghost use Rattle.mesh_split.specs.Counting.{IsPastLimit, IsWithinLimit};
ghost use Rattle.mesh_below.specs.Options.{choices_of};
ghost use Rattle.mesh_offset.specs.Counting.{CountsAttempts};
ghost use Rattle.mesh_stroke.specs.Styles.{stroke_style_of};
ghost use Rattle.mesh_boolean.specs.declared.rule.BooleanRule.TheVariants.{Difference, Union};
ghost use Rattle.mesh_operands.specs.Exactness.{AreExactBeyond, AreExactShapes};
ghost use Rattle.mesh_operands.specs.Nearness.{AreCombinedShapesWithin, IsCombinedDrawing, all_lists};
ghost use Rattle.mesh_operands.specs.Operands.{boolean_of};
ghost use Rattle.mesh_buffer.specs.Buffers.{MayBeBuffered, buffer_edges, is_buffered, is_inset, with_strokes};

use mesh_below::below::IntOverlayOptions;
use mesh_below::nearness::{NearShapes, SplitCount};
use mesh_boolean::boolean::validate_overlay;
use mesh_boolean::rule::{BooleanFill, BooleanFillRule, BooleanRule};
use mesh_drawing::drawing::{Drawing, Stroke};
use mesh_join::style::IntStrokeStyle;
use mesh_num::num::{IntPoint, OverlayInt};
use mesh_offset::error::IntNearnessError;
use mesh_operands::combine::CombinedAnswer;
use mesh_operands::operand::{Boolean, Combination, Operand};
use mesh_operands::within::{NearCombined, combine_within};
use mesh_stroke::offset::IntStrokeOffset;
use std::alloc::{AllocError, Global};

/// What contours fill, and all that strokes along them cover: polygons grown by half the width of the style, with an
/// error bound, the nearness. With no least area and outer contours counterclockwise, the answer holds, at each point
/// farther than it from all edges of the contours and of the strokes, exactly what the contours fill by this rule or a
/// stroke covers. Each point of its boundary lies within it of such an edge. Contours may cross themselves and each other,
/// and run either way, unlike those of an outline.
///
/// The strokes are closed, so that caps draw nothing; one half alone (`side`) covers that side of each contour. Half the
/// width is the distance, in grid units, rounded up. The answer is made with these options.
///
/// Every split of an edge is added to `count`, those of attempts that were given up too. `CoordinateOutOfRange` means that
/// a point of a contour, or of a stroke along it, leaves the safe range, `TooManySplits` that the count passed its limit,
/// and `OutOfMemory` that memory was refused. The first is found before anything is built, and `may_be_buffered` tests it.
pub fn buffer<I: OverlayInt>(
    alloc: Global,
    contours: &Vec<Vec<IntPoint<I>>>,
    fill: BooleanFillRule,
    style: IntStrokeStyle<I>,
    options: IntOverlayOptions<I::WideUInt>,
    count: &mut SplitCount,
) -> Result<NearShapes<I>, IntNearnessError>
    ensures exact { IfOk result (λ near. AreExactBeyond near.nearness
        (buffer_edges I.unit (stroke_style_of I.value style) (paths_of contours.now.items))
        (is_buffered I.unit fill (stroke_style_of I.value style) (paths_of contours.now.items))
        (choices_of I.WideUInt.value options) (shapes_of near.shapes.items)) }
    ensures combined { IfOk result (λ near. AreCombinedShapesWithin near.nearness I.unit
        (choices_of I.WideUInt.value options)
        (with_strokes Union fill (stroke_style_of I.value style) (paths_of contours.now.items))
        (shapes_of near.shapes.items) count.old count.new) }
    ensures small { IfOk result (λ near. near.nearness ≤ 2 ^ 40) }
    ensures counted { let made = with_strokes Union fill (stroke_style_of I.value style) (paths_of contours.now.items) in
        CountsAttempts (all_lists made) (IsCombinedDrawing I.unit made) count.old count.new }
    ensures within { OnOk result (IsWithinLimit count.new) }
    ensures past { result ≡ Err IntNearnessError.TooManySplits → IsPastLimit count.new }
    ensures accepted { OnOk result
        (MayBeBuffered I.unit (stroke_style_of I.value style) (paths_of contours.now.items)) }
    ensures refused { result ≡ Err IntNearnessError.CoordinateOutOfRange
        ↔ ¬ MayBeBuffered I.unit (stroke_style_of I.value style) (paths_of contours.now.items) }
{
    resolved(
        alloc,
        contours,
        fill,
        style,
        BooleanRule::Union,
        options,
        count,
    )
}

/// What contours fill, without what strokes along them cover: polygons shrunk by half the width of the style, with an
/// error bound, as of `buffer`: at each point farther than it from all these edges, the answer holds exactly what the
/// contours fill and no stroke covers. Errors come, and splits are counted, as there.
pub fn inset<I: OverlayInt>(
    alloc: Global,
    contours: &Vec<Vec<IntPoint<I>>>,
    fill: BooleanFillRule,
    style: IntStrokeStyle<I>,
    options: IntOverlayOptions<I::WideUInt>,
    count: &mut SplitCount,
) -> Result<NearShapes<I>, IntNearnessError>
    ensures exact { IfOk result (λ near. AreExactBeyond near.nearness
        (buffer_edges I.unit (stroke_style_of I.value style) (paths_of contours.now.items))
        (is_inset I.unit fill (stroke_style_of I.value style) (paths_of contours.now.items))
        (choices_of I.WideUInt.value options) (shapes_of near.shapes.items)) }
    ensures combined { IfOk result (λ near. AreCombinedShapesWithin near.nearness I.unit
        (choices_of I.WideUInt.value options)
        (with_strokes Difference fill (stroke_style_of I.value style) (paths_of contours.now.items))
        (shapes_of near.shapes.items) count.old count.new) }
    ensures small { IfOk result (λ near. near.nearness ≤ 2 ^ 40) }
    ensures counted { let made = with_strokes Difference fill (stroke_style_of I.value style) (paths_of contours.now.items) in
        CountsAttempts (all_lists made) (IsCombinedDrawing I.unit made) count.old count.new }
    ensures within { OnOk result (IsWithinLimit count.new) }
    ensures past { result ≡ Err IntNearnessError.TooManySplits → IsPastLimit count.new }
    ensures accepted { OnOk result
        (MayBeBuffered I.unit (stroke_style_of I.value style) (paths_of contours.now.items)) }
    ensures refused { result ≡ Err IntNearnessError.CoordinateOutOfRange
        ↔ ¬ MayBeBuffered I.unit (stroke_style_of I.value style) (paths_of contours.now.items) }
{
    resolved(
        alloc,
        contours,
        fill,
        style,
        BooleanRule::Difference,
        options,
        count,
    )
}

/// Whether `buffer` and `inset` accept contours and a style: each point of the contours, and each of the strokes along
/// them, stays in the safe range. It allocates nothing.
pub fn may_be_buffered<I: OverlayInt>(
    contours: &Vec<Vec<IntPoint<I>>>,
    style: &IntStrokeStyle<I>,
) -> bool
    ensures { IsTrue result ↔ MayBeBuffered I.unit (stroke_style_of I.value style.now) (paths_of contours.now.items) }
{
    validate_overlay(contours).is_ok() && contours.validate_stroke(style).is_ok()
}

/// A boolean of what contours fill and of the closed strokes along them.
fn resolved<I: OverlayInt>(
    alloc: Global,
    contours: &Vec<Vec<IntPoint<I>>>,
    fill: BooleanFillRule,
    style: IntStrokeStyle<I>,
    rule: BooleanRule,
    options: IntOverlayOptions<I::WideUInt>,
    count: &mut SplitCount,
) -> Result<NearShapes<I>, IntNearnessError>
    ensures exact { IfOk result (λ near. AreExactShapes near.nearness I.unit (choices_of I.WideUInt.value options)
        (with_strokes rule fill (stroke_style_of I.value style) (paths_of contours.now.items))
        (shapes_of near.shapes.items)) }
    ensures combined { IfOk result (λ near. AreCombinedShapesWithin near.nearness I.unit
        (choices_of I.WideUInt.value options)
        (with_strokes rule fill (stroke_style_of I.value style) (paths_of contours.now.items))
        (shapes_of near.shapes.items) count.old count.new) }
    ensures small { IfOk result (λ near. near.nearness ≤ 2 ^ 40) }
    ensures counted { let made = with_strokes rule fill (stroke_style_of I.value style) (paths_of contours.now.items) in
        CountsAttempts (all_lists made) (IsCombinedDrawing I.unit made) count.old count.new }
    ensures within { OnOk result (IsWithinLimit count.new) }
    ensures past { result ≡ Err IntNearnessError.TooManySplits → IsPastLimit count.new }
    ensures accepted { OnOk result
        (MayBeBuffered I.unit (stroke_style_of I.value style) (paths_of contours.now.items)) }
    ensures refused { result ≡ Err IntNearnessError.CoordinateOutOfRange
        ↔ ¬ MayBeBuffered I.unit (stroke_style_of I.value style) (paths_of contours.now.items) }
{
    // Read, so that it is known to fit: a return before any attempt counts none.
    let _made = count.made;
    // Asked here, so that memory that is refused for copies hides no point that leaves the range.
    if !may_be_buffered(contours, &style) {
        return Err(IntNearnessError::CoordinateOutOfRange);
    }
    let boolean = strokes_beside(alloc, contours, fill, style, rule)?;
    let NearCombined { answer, nearness } = combine_within(
        alloc,
        &Combination::Boolean(boolean),
        options,
        count,
    )?;
    match answer {
        CombinedAnswer::Shapes(shapes) => Ok(NearShapes { shapes, nearness }),
        CombinedAnswer::Overlaps(_) => unreachable!(),
    }
}

/// The operands: contours, and the closed strokes along them.
fn strokes_beside<I: OverlayInt>(
    alloc: Global,
    contours: &Vec<Vec<IntPoint<I>>>,
    fill: BooleanFillRule,
    style: IntStrokeStyle<I>,
    rule: BooleanRule,
) -> Result<Boolean<I>, AllocError>
    ensures { IfOk result (λ boolean. boolean_of I.value boolean
        ≡ with_strokes rule fill (stroke_style_of I.value style) (paths_of contours.now.items)) }
{
    let paths = contours.clone()?;
    Ok(Boolean {
        subject: Operand::Paths(contours.clone()?),
        clip: Operand::Drawing(Drawing::Stroke(Stroke {
            paths,
            style,
            closed: true,
        })),
        rule,
        fill: BooleanFill {
            subject: fill,
            clip: fill,
        },
    })
}
