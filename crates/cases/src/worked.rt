ghost use Rattle.cases.specs.Worked.{WorkedCases};

/// The cases worked out by hand hold, all together. Nothing is computed: the contract is the statement.
pub fn worked_cases()
    ensures { WorkedCases }
{}
