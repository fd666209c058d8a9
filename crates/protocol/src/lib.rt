// Signed agreement by the clock: the theorem.
#![tactic(auto)]

ghost use Rattle.protocol.specs.Agreement.{Agreement};
ghost use Rattle.protocol.specs.Example.{Happens};

// After any list of calls no two decisions of an item differ, each is as a correct sender would have it, and a correct
// processor has room for every broadcast.
pub fn agreement_stands()
    ensures { Agreement }
{}

// The moves can be made: one run, to its decisions.
pub fn example_happens()
    ensures { Happens }
{}
