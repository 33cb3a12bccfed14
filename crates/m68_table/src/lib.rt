//! What holds of the table of the 68000's instructions as a whole: the check computes it over all 65536 first words.
#![tactic(auto)]

ghost use Rattle.m68_table.specs.laws.Laws.{TableLaws};

/// What holds of the table of instructions as a whole. It does nothing: the clause is its point.
pub fn table_laws()
    ensures { TableLaws }
{}
