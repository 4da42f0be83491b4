//! Inserting a rule.

ghost use Rattle.caret_laws.specs.RuleLaws.{FittingRulesSpare, InsertRuleAdds};

/// At a caret of the host, inserting a rule adds one hr at one place, and loses no image, no rule
/// and no character other than tab, LF, CR, space and U+00A0, keeps their order, and brings no
/// other. The caret stands in no image and no rule, or amid its node, or in the host itself, or in
/// a node that has children or such a character. And no removal of the step that puts the hr, and
/// lifts it out of the ancestors that may not have it, takes out an image, a rule or a character
/// other than tab, LF, CR and space.
pub fn insert_horizontal_rule_adds()
    ensures { InsertRuleAdds }
{}

/// Where the hr may stand in the node that it comes into, no removal of that step does.
pub fn fitting_rules_spare()
    ensures { FittingRulesSpare }
{}
