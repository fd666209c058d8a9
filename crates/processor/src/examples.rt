// Examples of the rules, as a theorem.
ghost use Rattle.processor.specs.Examples.{Examples};

pub fn examples_stand()
    ensures { Examples }
{}
