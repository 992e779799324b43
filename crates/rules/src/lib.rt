//! The rules of a sheet, and what holds of a sheet that keeps them.
#![tactic(auto)]

ghost use Rattle.rules.specs.Apart.{CheckedLiesApart};
ghost use Rattle.rules.specs.Broken.{RuleExamples};
ghost use Rattle.rules.specs.EitherWay.{ClashesEitherWay, TouchTells};
ghost use Rattle.rules.specs.Planes.{CheckedIsInOrder};
ghost use Rattle.rules.specs.Sound.{RulesTell};
ghost use Rattle.rules.specs.Tables.{TablesTell};

mod broken;
mod corners;
mod counts;
mod listed;
mod segments;
mod strokes;
mod turns;

pub use broken::first_broken;
pub use corners::loop_edges;
pub use counts::sum_broken;
pub use strokes::Stroke;

/// A sheet within its limits that keeps the rules is a subdivision of the plane in order.
pub fn checked_is_in_order()
    ensures { CheckedIsInOrder }
{}

/// In such a sheet no vertex is inside an edge, no two edges share a point inside both, and every vertex is an end of an edge.
pub fn checked_lies_apart()
    ensures { CheckedLiesApart }
{}

/// The worked examples of the rules follow from the definitions: for each rule there is a sheet that breaks it first.
pub fn rule_examples_stand()
    ensures { RuleExamples }
{}

/// What the tables of a sheet break is what the sheet breaks.
pub fn tables_tell_stands()
    ensures { TablesTell }
{}

/// What the rules tell of a sheet is said in the subject's words: nothing exactly where all eight hold, and else the least that is broken,
/// at the least place where it is.
pub fn rules_tell_stands()
    ensures { RulesTell }
{}

/// Points, directed edges, and edges of a sheet clash either way round.
pub fn clashes_either_way_stand()
    ensures { ClashesEitherWay }
{}

/// Two edges touch, by determinants of sheet points, exactly where they share a point in common, or overlap from a vertex in common.
pub fn touch_tells_stands()
    ensures { TouchTells }
{}
