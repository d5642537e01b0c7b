// What lies around a place in a mesh that has room for every number in a word of 16 bits.
ghost use Rattle.std.specs.Prelude.{◌≤◌, ◌<◌};

/// A place in its mesh: `c` columns lie west of it and `u` east, `r` rows south and `d` north.
#[derive(Clone, Copy)]
pub struct Frame {
    pub columns: u16,
    pub rows: u16,
    pub c: u16,
    pub u: u16,
    pub r: u16,
    pub d: u16,
    pub ghost columns_high: { columns ≤ 64 },
    pub ghost rows_high: { rows ≤ 64 },
    pub ghost west: { c < columns },
    pub ghost east: { u < columns },
    pub ghost south: { r < rows },
    pub ghost north: { d < rows },
}
