//! The worked examples, as one statement about the definitions.
#![tactic(auto)]

ghost use Rattle.std.specs.Prelude.{◌≡◌};
ghost use Rattle.worked_examples.specs.Examples.{WorkedExamples, example_count};

/// How many worked examples there are.
const EXAMPLES: u32 = 18;

/// Tells how many worked examples there are. Its contract states each, by the definitions that the other contracts cite.
pub fn worked_examples() -> u32
    ensures number { result ≡ example_count }
    ensures examples { WorkedExamples }
{
    EXAMPLES
}
