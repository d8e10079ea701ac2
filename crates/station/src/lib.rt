// The station's facade.
//
// Today it has the worked examples, as one joint statement about the definitions that the contracts use.
#![tactic(auto)]

ghost use Rattle.station.specs.Examples.{WorkedExamples};

// The worked examples hold. The function is there for its contract, so that the gate asks for the proof.
pub fn worked_examples()
    ensures { WorkedExamples }
{}
