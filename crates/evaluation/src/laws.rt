// A law of tables. The check proves it; a call does nothing.
ghost use Rattle.evaluation.specs.Queries.{LinedSpells};

// A table that has one entry for each form of a number, opening where the written form has it, has nothing else in it,
// so that it can be evaluated where the rules type the number.
pub fn lined_tables_spell_their_number()
    ensures { LinedSpells }
{}
