// The list of the changes of coordinates and both conversions.
mod ask;

use replay::outcome::{one, told};
use replay_arguments::{answers, cartesian, degrees, face, lon_lat, polar, radians, spherical};
use replay_tally::table::{Entry, run};
use std::alloc::Global;
use std::io;
use std::io::{Read, Write};
use transforms::conversions::{from_lon_lat, to_lon_lat};
use transforms::coordinate_transforms::to_spherical;
use transforms::geographic::{deg_to_rad, normalize_longitude, rad_to_deg};
use transforms::gnomonic;
use transforms::plane::to_polar;
use transforms::vector::length;

// Runs the list, and reports.
pub(crate) fn run_list<R: Read, W: Write>(
    alloc: Global,
    from: &mut R,
    to: &mut W,
) -> io::Result<()> {
    let table = [
        Entry::new("deg_to_rad", 1, |record| one(deg_to_rad(degrees(record)).0)),
        Entry::new("rad_to_deg", 1, |record| one(rad_to_deg(radians(record)).0)),
        Entry::new("to_polar", 2, |record| {
            answers::polar(to_polar(face(record, 0)))
        }),
        Entry::new(
            "to_face",
            2,
            |record| told(ask::to_face(record), answers::face),
        ),
        Entry::new("face_to_barycentric", 8, ask::face_to_barycentric),
        Entry::new("barycentric_to_face", 9, ask::barycentric_to_face),
        Entry::new("to_spherical", 3, |record| {
            answers::spherical(to_spherical(cartesian(record, 0)))
        }),
        Entry::new(
            "to_cartesian",
            2,
            |record| told(ask::to_cartesian(record), answers::cartesian),
        ),
        Entry::new("normalize_longitude", 1, |record| {
            one(normalize_longitude(degrees(record)).0)
        }),
        Entry::new(
            "authalic::forward",
            1,
            |record| told(ask::authalic_forward(record), |phi| one(phi.0)),
        ),
        Entry::new(
            "authalic::inverse",
            1,
            |record| told(ask::authalic_inverse(record), |phi| one(phi.0)),
        ),
        Entry::new(
            "gnomonic::forward",
            2,
            |record| told(ask::gnomonic_forward(record), answers::polar),
        ),
        Entry::new("gnomonic::inverse", 2, |record| {
            answers::spherical(gnomonic::inverse(polar(record)))
        }),
        Entry::new("triple_product", 9, ask::triple_product),
        Entry::new("length", 3, |record| one(length(cartesian(record, 0)))),
        Entry::new("vec3_distance", 6, ask::vec3_distance),
        Entry::new("from_lon_lat", 2, |record| {
            told(from_lon_lat(lon_lat(record)), answers::spherical)
        }),
        Entry::new("to_lon_lat", 2, |record| {
            told(to_lon_lat(spherical(record, 0)), answers::lon_lat)
        }),
    ];
    run(alloc, from, to, &table)
}
