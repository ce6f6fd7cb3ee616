//! What is asked of a join.

/// What is asked of a join.
#[derive(Clone, Copy)]
pub(crate) enum Asked {
    /// Its answers, of so many rows each.
    Pieces(u32),
    /// The index of the built side.
    Slots,
    /// The numbers of the keys of the built side's one partition.
    Members,
    /// Where the rows of each built key stand in a build of two builds of all rows.
    Places,
    /// Where they stand in a build of the first two rows and one of the others.
    HalfPlaces,
}

/// How many rows a piece has, none where it isn't said.
fn rows_of(how: &str) -> u32 {
    match how.strip_prefix("pieces ") {
        Some(rows) => rows.parse::<u32>().unwrap_or(0),
        None => 0,
    }
}

/// What some words ask.
pub(crate) fn asked_by(how: &str) -> Asked {
    match how {
        "slots" => Asked::Slots,
        "members" => Asked::Members,
        "places" => Asked::Places,
        "places of halves" => Asked::HalfPlaces,
        _ => Asked::Pieces(rows_of(how)),
    }
}
