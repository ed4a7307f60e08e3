//! Segments with common points, and places round a polygon.

use plane_geometry::{Place, clash, meets, outside};

/// `parts * from + share * (to - from)`, for small numbers.
fn at_share(from: i64, to: i64, parts: i64, share: i64) -> i64 {
    parts
        .wrapping_mul(from)
        .wrapping_add(share.wrapping_mul(to.wrapping_sub(from)))
}

/// Whether a place so many parts on the way is one of two ends.
fn is_end(x: i64, y: i64, parts: i64, a: Place, b: Place) -> bool {
    let first = x == parts.wrapping_mul(a.x) && y == parts.wrapping_mul(a.y);
    let second = x == parts.wrapping_mul(b.x) && y == parts.wrapping_mul(b.y);
    first || second
}

/// Whether the second segment has the place too that lies `s` of `parts` on the way along the first; and whether
/// that place isn't an end of both.
fn shares(a: Place, b: Place, c: Place, d: Place, parts: i64, s: i64) -> (bool, bool) {
    let x = at_share(a.x, b.x, parts, s);
    let y = at_share(a.y, b.y, parts, s);
    for t in 0..19i64 {
        if t <= parts && at_share(c.x, d.x, parts, t) == x && at_share(c.y, d.y, parts, t) == y {
            let both = is_end(x, y, parts, a, b) && is_end(x, y, parts, c, d);
            return (true, !both);
        }
    }
    (false, false)
}

/// Whether segments on a grid of 4 by 4 meet and clash, by trying every share with up to 18 parts: no two ways
/// on that grid span an area above 18.
fn by_search(a: Place, b: Place, c: Place, d: Place) -> (bool, bool) {
    let mut found = (false, false);
    for parts in 1..19i64 {
        for s in 0..19i64 {
            if s <= parts {
                let (met, clashed) = shares(a, b, c, d, parts, s);
                found = (found.0 || met, found.1 || clashed);
            }
        }
    }
    found
}

/// A place near the origin.
fn place(x: i8, y: i8) -> Place {
    Place {
        x: i64::from(x),
        y: i64::from(y),
    }
}

/// A place of the grid of 4 by 4, by its number.
fn grid_place(number: u8) -> Place {
    Place {
        x: i64::from(number % 4),
        y: i64::from(number / 4),
    }
}

#[test]
fn agrees_with_a_search_on_all_small_segments(rt: HostRuntime) {
    for a in 0..16u8 {
        for b in 0..16u8 {
            for c in 0..16u8 {
                for d in 0..16u8 {
                    let (p, q) = (grid_place(a), grid_place(b));
                    let (r, s) = (grid_place(c), grid_place(d));
                    let (met, clashed) = by_search(p, q, r, s);
                    assert_eq!(rt; meets(p, q, r, s), met, "{a} {b} {c} {d}");
                    assert_eq!(rt; clash(p, q, r, s), clashed, "{a} {b} {c} {d}");
                }
            }
        }
    }
}

#[test]
fn places_round_a_notched_square(rt: HostRuntime) {
    let corners = [
        place(0, 0),
        place(4, 0),
        place(4, 4),
        place(2, 2),
        place(0, 4),
    ];
    for (x, y, is_outside) in [
        (1, 1, false),
        (2, 2, false),
        (2, 3, true),
        (4, 2, false),
        (0, 4, false),
        (3, 3, false),
        (5, 2, true),
        (-1, 0, true),
        (2, 4, true),
    ] {
        assert_eq!(rt; outside(place(x, y), &corners), is_outside, "{x} {y}");
    }
}
