// Laws of the rules. The check proves them; a call does nothing.
ghost use Rattle.rules.specs.Examples.{TypedExamples};
ghost use Rattle.rules.specs.Sound.{RulesKeep};

// On a plant that fits the catalogue every typed form has its values within its range, and can be evaluated.
pub fn rules_keep_values_in_range()
    ensures keep { RulesKeep }
    ensures examples { TypedExamples }
{}
