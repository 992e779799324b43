//! The worked examples: proved of the definitions, and run.
#![tactic(auto)]

ghost use Rattle.examples.specs.SpringCells.{CellExamples};
ghost use Rattle.examples.specs.Worked.{WorkedExamples};

/// The worked examples follow from the definitions: of reading, the check, cutting and rounds, and tips.
pub fn worked_examples_stand()
    ensures { WorkedExamples }
{}

/// So do those of cells: which cell of the spring sheet holds a point, and on which side of a line it is.
pub fn cell_examples_stand()
    ensures { CellExamples }
{}

#[cfg(test)]
mod rule_tests;
#[cfg(test)]
mod run_tests;
#[cfg(test)]
mod tests;
