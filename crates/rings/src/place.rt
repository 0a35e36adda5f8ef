ghost use Rattle.std.specs.Prelude.{◌≡◌, ◌^◌, ◌<◌};
ghost use Rattle.rings.specs.RingLists.{side_length};

/// A side of a ring of cells, by the way in which it is walked: along a column or a row, up or down.
#[derive(Clone, Copy, PartialEq, Eq, Debug)]
pub enum RingSide {
    RowRising,
    ColumnRising,
    RowFalling,
    ColumnFalling,
}

/// A place of a walk by rings: `step` places past the beginning of a side of a ring.
#[derive(Clone, Copy)]
pub struct RingPlace {
    pub ring: usize,
    pub side: RingSide,
    pub step: usize,
    ghost few: { ring < 2 ^ 24 },
}

impl RingPlace {
    /// The place on the same side after so many steps.
    pub fn at(&self, step: usize) -> RingPlace
        ensures { result ≡ record (self.now) { step = step } }
    {
        RingPlace {
            ring: self.ring,
            side: self.side,
            step,
        }
    }

    /// The number of places that the side has.
    pub fn side_length(&self) -> usize
        ensures { result ≡ side_length self.now.ring self.now.side }
    {
        if self.ring > 0 {
            return 2 * self.ring;
        }
        match self.side {
            RingSide::RowRising => 1,
            RingSide::ColumnRising | RingSide::RowFalling | RingSide::ColumnFalling => 0,
        }
    }
}
