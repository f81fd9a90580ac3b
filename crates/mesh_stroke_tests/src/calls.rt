//! The setters of a style.

use mesh_join::arc::ArcOptions;
use mesh_join::style::{
    DEFAULT_MITER_MIN_TURN, IntLineCap, IntLineJoin, IntStrokeStyle, MathMode, StrokeSide,
};
use mesh_num::num::Angle;

/// Whether the style has this width, joins, slightest turn, and butt caps at these ends.
fn is_style(
    style: &IntStrokeStyle<i16>,
    width: i16,
    join: IntLineJoin,
    turn: u32,
    butts: (bool, bool),
) -> bool {
    let start = matches!(style.start_cap, IntLineCap::Butt);
    let end = matches!(style.end_cap, IntLineCap::Butt);
    style.width == width
        && style.join == join
        && style.miter_min_turn.bits() == turn
        && style.math == MathMode::Integer
        && (start, end) == butts
}

/// Round joins with the default options.
fn round() -> IntLineJoin {
    IntLineJoin::Round(ArcOptions::default())
}

// Each setter changes a new style, since the checker takes long for a style that is changed again and again.

#[test]
fn a_new_style(rt: HostRuntime) {
    let style = IntStrokeStyle::new(7);
    let turn = DEFAULT_MITER_MIN_TURN;
    assert!(rt; is_style(&style, 7, IntLineJoin::Bevel, turn, (true, true)));
    assert!(rt; style.side == StrokeSide::Both && style.side == StrokeSide::default());
}

#[test]
fn caps_of_a_style(rt: HostRuntime) {
    let turn = DEFAULT_MITER_MIN_TURN;
    let start = IntStrokeStyle::new(7).start_cap(IntLineCap::Square);
    assert!(rt; is_style(&start, 7, IntLineJoin::Bevel, turn, (false, true)));
    let end = IntStrokeStyle::new(7).end_cap(IntLineCap::Square);
    assert!(rt; is_style(&end, 7, IntLineJoin::Bevel, turn, (true, false)));
}

#[test]
fn joins_of_a_style(rt: HostRuntime) {
    let joined = IntStrokeStyle::new(7).line_join(round());
    assert!(rt; is_style(&joined, 7, round(), DEFAULT_MITER_MIN_TURN, (true, true)));
    let turned = IntStrokeStyle::new(7).miter_min_turn(Angle::from_bits(u32::MAX));
    assert!(rt; is_style(&turned, 7, IntLineJoin::Bevel, u32::MAX, (true, true)));
}

#[test]
fn a_style_of_another_width(rt: HostRuntime) {
    let turn = DEFAULT_MITER_MIN_TURN;
    let wide = IntStrokeStyle::new(7).width(i16::MIN);
    assert!(rt; is_style(&wide, i16::MIN, IntLineJoin::Bevel, turn, (true, true)));
    let whole = IntStrokeStyle::new(7).math(MathMode::Integer);
    assert!(rt; is_style(&whole, 7, IntLineJoin::Bevel, turn, (true, true)));
}

#[test]
fn sides_of_a_style(rt: HostRuntime) {
    let left = IntStrokeStyle::new(7).side(StrokeSide::Left);
    assert!(rt; left.side == StrokeSide::Left);
    let right = IntStrokeStyle::new(7).side(StrokeSide::Right);
    assert!(rt; right.side == StrokeSide::Right && right.width == 7);
}
