ghost use Rattle.numbering.specs.Seams.{EachSeamCarriesOneNumber, EqualNumbersJoinEqualPoints};

/// Whatever the size and the flags of a heightfield, a seam carries exactly one edge number, and two sides of triangles convert
/// to equal edge numbers exactly when they join the same two grid points. Nothing is computed: the contract is the statement.
pub fn seam_numbers()
    ensures one_number { EachSeamCarriesOneNumber }
    ensures equal_numbers { EqualNumbersJoinEqualPoints }
{}
