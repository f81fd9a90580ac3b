//! What is wrong at a place of a request.

ghost use Rattle.std.specs.Prelude.{◌≡◌, Some};
ghost use Rattle.std.specs.Fmt.{DisplaysOnOk};
ghost use Rattle.mesh_request.specs.Texts.{misfit_text, type_text};

use crate::fault::key::Key;
use crate::json::coordinate;
use crate::request::caps::NO_CAP;
use crate::request::joins::NO_JOIN;
use mesh_num::num::IntNumber;
use mesh_num::num::convert::widen;
use serde_json::Value;
use std::fmt;

/// What is needed of a value that names no rule of booleans.
const NO_RULE: &str = "\"subject\", \"clip\", \"intersect\", \"union\", \"difference\", \
    \"inverse_difference\" or \"xor\" is needed";

/// What is needed of a value that names no fill rule.
const NO_FILL: &str = "\"even_odd\", \"non_zero\", \"positive\" or \"negative\" is needed";

/// What is needed of a value that names no fill rules of a subject and a clip.
const NO_FILLS: &str = "\"even_odd\", \"non_zero\", \"positive\", \"negative\" or \
    {\"subject\": FILL, \"clip\": FILL} is needed";

/// What is needed of a value that is no operand.
const NO_OPERAND: &str =
    "a list of paths or an object with \"op\", \"paths\" and \"style\" is needed";

/// A type of coordinates.
#[derive(Debug, Clone, Copy, PartialEq, Eq)]
pub enum CoordinateType {
    I16,
    I32,
}

impl CoordinateType {
    /// The type of this width.
    pub(crate) fn of<I: IntNumber>() -> Self {
        if widen(I::UNIT) <= 1 << 14 {
            CoordinateType::I16
        } else {
            CoordinateType::I32
        }
    }

    /// Its name.
    fn name(self) -> &'static str
        ensures { result.now ≡ type_text self }
    {
        match self {
            CoordinateType::I16 => "i16",
            CoordinateType::I32 => "i32",
        }
    }
}

/// A whole number of 64 bits.
#[derive(Debug, Clone, Copy, PartialEq, Eq)]
pub enum WholeNumber {
    /// One that fits with a sign.
    Signed(i64),
    /// One that fits without a sign alone.
    Unsigned(u64),
}

impl fmt::Display for WholeNumber {
    ghost use Rattle.std.specs.Prelude.{Some};
    ghost use Rattle.mesh_request.specs.Texts.{number_text};

    ghost output = { λ number. Some (number_text number) };

    fn fmt<W: fmt::Write>(&self, f: &mut fmt::Formatter<W>) -> fmt::Result {
        match self {
            WholeNumber::Signed(number) => write!(f, "{number}"),
            WholeNumber::Unsigned(number) => write!(f, "{number}"),
        }
    }
}

/// What is wrong at a place.
#[derive(Debug, Clone, Copy, PartialEq, Eq)]
pub enum Problem {
    /// A key that is required is missing.
    Missing(Key),
    /// It is no object.
    NoObject,
    /// It names no operation.
    NoOperation,
    /// It names no type of coordinates.
    NoCoordinateType,
    /// It names nothing to list.
    NoOutput,
    /// It is no list.
    NoPaths,
    /// A path is no list.
    NoPath,
    /// A point is no list of two.
    NoPoint,
    /// A vertex is no list of three.
    NoVertex,
    /// It is no whole number.
    NoWholeNumber,
    /// The number does not fit the type of coordinates.
    OutOfType(WholeNumber, CoordinateType),
    /// It is neither true nor false.
    NoBool,
    /// It is no area: a whole number without sign that fits the type of areas.
    NoArea,
    /// It names no join.
    NoJoin,
    /// It names no cap.
    NoCap,
    /// It names no side.
    NoSide,
    /// A round join or cap has not the two numbers of its arcs.
    NoRoundOptions,
    /// A miter has not its number of bits.
    NoMiterBits,
    /// The object that names a join or a cap has another key.
    MoreKeys,
    /// It is no turn in bits.
    NoBits,
    /// It is no list of the two numbers of arcs.
    NoArc,
    /// It names no combination of operands.
    NoCombination,
    /// It does not name shapes, which alone are listed of combinations.
    NoShapes,
    /// It names no rule of booleans.
    NoRule,
    /// It names no fill rule.
    NoFill,
    /// It names no fill rule, and no two of them.
    NoFills,
    /// It is no list of zones.
    NoZones,
    /// An operand is neither a list of paths nor a drawing.
    NoOperand,
    /// It is no number of zones.
    NoLeast,
}

impl fmt::Display for Problem {
    ghost use Rattle.std.specs.Prelude.{Some};
    ghost use Rattle.mesh_request.specs.Texts.{problem_text};

    ghost output = { λ problem. Some (problem_text problem) };

    fn fmt<W: fmt::Write>(&self, f: &mut fmt::Formatter<W>) -> fmt::Result {
        match self {
            Problem::Missing(key) => write!(f, "\"{}\" is missing", key.text()),
            Problem::OutOfType(number, kind) => write_misfit(f, *number, *kind),
            Problem::NoObject => f.write_str("an object is needed"),
            Problem::NoOperation => {
                f.write_str("\"outline\", \"stroke\" or \"variable_stroke\" is needed")
            }
            Problem::NoCoordinateType => f.write_str("\"i16\" or \"i32\" is needed"),
            Problem::NoOutput => f.write_str("\"edges\" or \"shapes\" is needed"),
            Problem::NoPaths => f.write_str("a list of paths is needed"),
            Problem::NoPath => f.write_str("a path is a list of points"),
            Problem::NoPoint => f.write_str("a point has two numbers"),
            Problem::NoVertex => f.write_str("a vertex has three numbers"),
            Problem::NoWholeNumber => f.write_str("a whole number is needed"),
            Problem::NoBool => f.write_str("true or false is needed"),
            Problem::NoArea => {
                f.write_str("an area is a whole number from 0 on that fits its type")
            }
            Problem::NoJoin => f.write_str(NO_JOIN),
            Problem::NoCap => f.write_str(NO_CAP),
            Problem::NoSide => f.write_str("\"both\", \"left\" or \"right\" is needed"),
            Problem::NoRoundOptions => f.write_str("\"round\" needs [BITS, PRECISION]"),
            Problem::NoMiterBits => f.write_str("\"miter\" needs BITS"),
            Problem::MoreKeys => f.write_str("only one key is allowed"),
            Problem::NoBits => f.write_str("BITS is needed, a whole number from 0 to 4294967295"),
            Problem::NoArc => f.write_str("[BITS, PRECISION] is needed"),
            Problem::NoCombination => {
                f.write_str("\"boolean\", \"coverage\" or \"overlaps\" is needed")
            }
            Problem::NoShapes => f.write_str("\"shapes\" is needed"),
            Problem::NoRule => f.write_str(NO_RULE),
            Problem::NoFill => f.write_str(NO_FILL),
            Problem::NoFills => f.write_str(NO_FILLS),
            Problem::NoZones => f.write_str("a list of zones is needed"),
            Problem::NoOperand => f.write_str(NO_OPERAND),
            Problem::NoLeast => f.write_str("a whole number from 1 to 4294967295 is needed"),
        }
    }
}

/// Writes that a number does not fit a type.
fn write_misfit<W: fmt::Write>(
    f: &mut fmt::Formatter<W>,
    number: WholeNumber,
    kind: CoordinateType,
) -> fmt::Result
    ensures { DisplaysOnOk W.write_str_gives f.old result (Some (misfit_text number kind)) f.new }
{
    let name = kind.name();
    write!(f, "{number} is no {name}")
}

/// What is wrong with a value that is no coordinate.
pub(crate) fn coordinate_problem<I: IntNumber>(value: &Value) -> Problem {
    match whole_number(value) {
        Some(number) => Problem::OutOfType(number, CoordinateType::of::<I>()),
        None => Problem::NoWholeNumber,
    }
}

/// What is wrong with a value that is no list of so many coordinates, where this is if it is no such list.
pub(crate) fn corner_problem<I: IntNumber>(
    value: &Value,
    size: usize,
    problem: Problem,
) -> Problem {
    let Some(numbers) = value.as_array() else {
        return problem;
    };
    if numbers.len() != size {
        return problem;
    }
    for number in numbers {
        if coordinate::<I>(number).is_none() {
            return coordinate_problem::<I>(number);
        }
    }
    problem
}

/// The whole number of 64 bits, with or without sign, that a value is.
fn whole_number(value: &Value) -> Option<WholeNumber> {
    match value.as_i64() {
        Some(number) => Some(WholeNumber::Signed(number)),
        None => Some(WholeNumber::Unsigned(value.as_u64()?)),
    }
}
