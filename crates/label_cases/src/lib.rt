// Worked cases of a label: its limits, and its text.
#![tactic(auto)]

ghost use Rattle.label_cases.specs.Limits.{LimitCases};
ghost use Rattle.label_cases.specs.Texts.{TextCases};

/// Which numbers a tree may have, and which label is good.
pub fn limits_stand()
    ensures { LimitCases }
{}

/// The label that a text tells, and the text of a label.
pub fn texts_stand()
    ensures { TextCases }
{}
