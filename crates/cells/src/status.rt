ghost use Rattle.std.specs.Int.Bits.{bit_or};
ghost use Rattle.std.specs.Prelude.{◌≡◌};
ghost use Rattle.cells.specs.Statuses.{has_all, zigzag, removed};

/// The status of the cell of a heightfield.
#[derive(Clone, Copy, PartialEq, Eq, Debug)]
pub struct HeightFieldCellStatus(u8);

impl HeightFieldCellStatus {
    /// If this bit is set, the concerned heightfield cell is subdivided using a Z pattern.
    pub const ZIGZAG_SUBDIVISION: HeightFieldCellStatus = HeightFieldCellStatus(0b001);
    /// If this bit is set, the leftmost triangle of the concerned heightfield cell is removed.
    pub const LEFT_TRIANGLE_REMOVED: HeightFieldCellStatus = HeightFieldCellStatus(0b010);
    /// If this bit is set, the rightmost triangle of the concerned heightfield cell is removed.
    pub const RIGHT_TRIANGLE_REMOVED: HeightFieldCellStatus = HeightFieldCellStatus(0b100);
    /// If these bits are set, both triangles of the concerned heightfield cell are removed.
    pub const CELL_REMOVED: HeightFieldCellStatus = HeightFieldCellStatus(0b110);

    /// The status with these bits, known or not.
    // The names are those of the library's `Flags`, whose promises go by sets of flags and say less of the bits.
    pub fn from_bits_retain(bits: u8) -> HeightFieldCellStatus
        ensures { result.0 ≡ bits }
    {
        HeightFieldCellStatus(bits)
    }

    /// The bits of this status.
    pub fn bits(self) -> u8
        ensures { result ≡ self.0 }
    {
        self.0
    }

    /// The status with the bits of both.
    pub fn union(self, other: HeightFieldCellStatus) -> HeightFieldCellStatus
        ensures { result.0 ≡ bit_or self.0 other.0 }
    {
        HeightFieldCellStatus(self.0 | other.0)
    }

    /// Whether this status has every bit of the other.
    pub fn contains(self, other: HeightFieldCellStatus) -> bool
        ensures { result ≡ has_all self.0 other.0 }
    {
        (self.0 & other.0) == other.0
    }

    /// Whether the cell is subdivided using a Z pattern.
    pub fn is_zigzag(self) -> bool
        ensures { result ≡ zigzag self.0 }
    {
        self.contains(HeightFieldCellStatus::ZIGZAG_SUBDIVISION)
    }

    /// Whether the left or right triangle is removed.
    pub fn is_removed(self, left: bool) -> bool
        ensures { result ≡ removed self.0 left }
    {
        if left {
            self.contains(HeightFieldCellStatus::LEFT_TRIANGLE_REMOVED)
        } else {
            self.contains(HeightFieldCellStatus::RIGHT_TRIANGLE_REMOVED)
        }
    }
}
