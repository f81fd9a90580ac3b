//! Places in a request.

ghost use Rattle.serde_json.specs.View.{view};
ghost use Rattle.mesh_request.specs.Places.{IsPlaceIn};

use crate::fault::key::Key;
use serde_json::Value;
use std::fmt;

/// A place in a request.
#[derive(Debug, Clone, Copy, PartialEq, Eq)]
pub enum Place {
    /// The request itself.
    Request,
    /// What it has under a key: `style`.
    Member(Key),
    /// What the object under a key has under another: `style.join`.
    Inner(Key, Key),
    /// One of its paths, by index: `paths[1]`.
    Path(usize),
    /// A point of a path: `paths[1][0]`.
    Point(usize, usize),
    /// A point of the custom cap that the style has under a key: `style.start.custom[2]`.
    CapPoint(Key, usize),
    /// One of its zones, by index: `zones[1]`.
    Zone(usize),
}

impl fmt::Display for Place {
    ghost use Rattle.std.specs.Prelude.{Some};
    ghost use Rattle.mesh_request.specs.Texts.{place_text};

    ghost output = { λ place. Some (place_text place) };

    fn fmt<W: fmt::Write>(&self, f: &mut fmt::Formatter<W>) -> fmt::Result {
        match self {
            Place::Request => write!(f, "request"),
            Place::Member(key) => write!(f, "{}", key.text()),
            Place::Inner(outer, key) => write!(f, "{}.{}", outer.text(), key.text()),
            Place::Path(path) => write!(f, "paths[{path}]"),
            Place::Point(path, point) => write!(f, "paths[{path}][{point}]"),
            Place::CapPoint(end, point) => write!(f, "style.{}.custom[{point}]", end.text()),
            Place::Zone(zone) => write!(f, "zones[{zone}]"),
        }
    }
}

/// The place of what a request has under a key; the request itself where it has nothing there.
pub fn member_place(request: &Value, key: Key) -> Place
    ensures { IsPlaceIn (view request.now) result }
{
    match request.get(key.text()) {
        Some(_) => Place::Member(key),
        None => Place::Request,
    }
}

/// The place of what the object under a key has under another; the object's own where it has nothing there.
pub fn inner_place(request: &Value, outer: Key, key: Key) -> Place
    ensures { IsPlaceIn (view request.now) result }
{
    let Some(object) = request.get(outer.text()) else {
        return Place::Request;
    };
    match object.get(key.text()) {
        Some(_) => Place::Inner(outer, key),
        None => Place::Member(outer),
    }
}

/// The place of a point of the custom cap that the style has under a key; the cap's own where it has no such point.
pub fn cap_point_place(request: &Value, end: Key, point: usize) -> Place
    ensures { IsPlaceIn (view request.now) result }
{
    let Some(style) = request.get("style") else {
        return Place::Request;
    };
    let Some(cap) = style.get(end.text()) else {
        return Place::Member(Key::Style);
    };
    let Some(points) = cap.get("custom") else {
        return Place::Inner(Key::Style, end);
    };
    match points.get(point) {
        Some(_) => Place::CapPoint(end, point),
        None => Place::Inner(Key::Style, end),
    }
}

/// The place of a path of a request, by its index; the request itself where it has no such path.
pub fn path_place(request: &Value, path: usize) -> Place
    ensures { IsPlaceIn (view request.now) result }
{
    let Some(paths) = request.get("paths") else {
        return Place::Request;
    };
    match paths.get(path) {
        Some(_) => Place::Path(path),
        None => Place::Member(Key::Paths),
    }
}

/// The place of a point of a path, by their indices; the path's own where it has no such point.
pub fn point_place(request: &Value, path: usize, point: usize) -> Place
    ensures { IsPlaceIn (view request.now) result }
{
    let Some(paths) = request.get("paths") else {
        return Place::Request;
    };
    let Some(points) = paths.get(path) else {
        return Place::Member(Key::Paths);
    };
    match points.get(point) {
        Some(_) => Place::Point(path, point),
        None => Place::Path(path),
    }
}

/// The place of a zone of a request, by its index; that of all zones where it has no such zone.
pub fn zone_place(request: &Value, zone: usize) -> Place
    ensures { IsPlaceIn (view request.now) result }
{
    let Some(zones) = request.get("zones") else {
        return Place::Request;
    };
    match zones.get(zone) {
        Some(_) => Place::Zone(zone),
        None => Place::Member(Key::Zones),
    }
}
