// Laws of trees and of their written form. The check proves them; a call does nothing.
ghost use Rattle.std.specs.Prelude.{◌≡◌, Decides};
ghost use Rattle.trees.specs.Fold.{BuiltByTable};
ghost use Rattle.trees.specs.Words.{spelled_alike};
ghost use Rattle.trees.specs.Written.{ToldByLines, WrittenExample, WrittenOnce};

use crate::words::Word;

// `==` on words holds of a word and itself, and so of the words that are spelled alike.
pub fn words_are_equal_where_spelled_alike()
    ensures value { (v w : Word) → ⟦<Word as PartialEq>⟧.eq v w ≡ spelled_alike v w }
    ensures same { (v w : Word) → Decides (⟦<Word as PartialEq>⟧.eq v w) (v ≡ w) }
{}

// Each form has the kind, the numbers and the parts that the table gives its word.
pub fn trees_are_built_by_the_table()
    ensures { BuiltByTable }
{}

// Size, depth and numbers of a tree can be read off its lines.
pub fn lines_tell_the_size()
    ensures { ToldByLines }
{}

// No two trees are written alike.
pub fn written_form_is_unique()
    ensures once { WrittenOnce }
    ensures example { WrittenExample }
{}
