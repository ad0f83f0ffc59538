// The words of a query, by one table: how each is spelled, what its form gives, and what stands in it.
ghost use Rattle.std.specs.Prelude.{◌≡◌};
ghost use Rattle.trees.specs.Words.{entry, spelled_in, word_spelled, Names, SpelledApart};

use crate::Kind;

#[derive(Clone, Copy, PartialEq, Eq, Debug)]
pub enum Word {
    Bag,
    Keep,
    Put,
    Pool,
    Col,
    Lit,
    Plus,
    Times,
    Pick,
    Less,
    Equal,
    Either,
    Not,
    Num,
    Setting,
    Var,
    Count,
    Sum,
    Add,
    Sub,
    Least,
    Most,
    Scale,
    Clip,
    Let,
}

// Every word once.
const WORDS: [Word; 25] = [
    Word::Bag,
    Word::Keep,
    Word::Put,
    Word::Pool,
    Word::Col,
    Word::Lit,
    Word::Plus,
    Word::Times,
    Word::Pick,
    Word::Less,
    Word::Equal,
    Word::Either,
    Word::Not,
    Word::Num,
    Word::Setting,
    Word::Var,
    Word::Count,
    Word::Sum,
    Word::Add,
    Word::Sub,
    Word::Least,
    Word::Most,
    Word::Scale,
    Word::Clip,
    Word::Let,
];

impl Word {
    // The word with this spelling, by a look through all 25.
    pub fn named(spelling: &[u8]) -> Option<Word>
        ensures found { result ≡ word_spelled spelling.now }
        ensures exactly { Names spelling.now result }
        ensures apart { SpelledApart }
    {
        first_spelled(&WORDS, spelling)
    }

    pub fn spelling(self) -> &'static [u8]
        ensures { result.now ≡ (entry self).spelling }
    {
        match self {
            Word::Bag => b"bag",
            Word::Keep => b"keep",
            Word::Put => b"put",
            Word::Pool => b"pool",
            Word::Col => b"col",
            Word::Lit => b"lit",
            Word::Plus => b"plus",
            Word::Times => b"times",
            Word::Pick => b"pick",
            Word::Less => b"less",
            Word::Equal => b"equal",
            Word::Either => b"either",
            Word::Not => b"not",
            Word::Num => b"num",
            Word::Setting => b"setting",
            Word::Var => b"var",
            Word::Count => b"count",
            Word::Sum => b"sum",
            Word::Add => b"add",
            Word::Sub => b"sub",
            Word::Least => b"least",
            Word::Most => b"most",
            Word::Scale => b"scale",
            Word::Clip => b"clip",
            Word::Let => b"let",
        }
    }

    // What its form gives.
    pub fn kind(self) -> Kind
        ensures { result ≡ (entry self).kind }
    {
        match self {
            Word::Bag | Word::Keep | Word::Put | Word::Pool => Kind::Bag,
            Word::Col | Word::Lit | Word::Plus | Word::Times | Word::Pick => Kind::Term,
            Word::Less | Word::Equal | Word::Either | Word::Not => Kind::Condition,
            _ => Kind::Number,
        }
    }

    // How many numbers follow the word on its line.
    pub fn numbers(self) -> usize
        ensures { result ≡ (entry self).numbers }
    {
        match self {
            Word::Sum | Word::Clip => 2,
            Word::Bag
            | Word::Put
            | Word::Col
            | Word::Lit
            | Word::Num
            | Word::Setting
            | Word::Var
            | Word::Scale => 1,
            _ => 0,
        }
    }

    // The kinds of the form's parts, in order.
    pub fn parts(self) -> &'static [Kind]
        ensures { result.now ≡ (entry self).parts }
    {
        match self {
            Word::Bag | Word::Col | Word::Lit | Word::Num | Word::Setting | Word::Var => &[],
            Word::Keep => &[Kind::Bag, Kind::Condition],
            Word::Put | Word::Sum => &[Kind::Bag, Kind::Term],
            Word::Pool => &[Kind::Bag, Kind::Bag],
            Word::Plus | Word::Times | Word::Less | Word::Equal => &[Kind::Term, Kind::Term],
            Word::Pick => &[Kind::Condition, Kind::Term, Kind::Term],
            Word::Either => &[Kind::Condition, Kind::Condition],
            Word::Not => &[Kind::Condition],
            Word::Count => &[Kind::Bag],
            Word::Scale | Word::Clip => &[Kind::Number],
            Word::Add | Word::Sub | Word::Least | Word::Most | Word::Let => &[
                Kind::Number,
                Kind::Number,
            ],
        }
    }
}

fn first_spelled(among: &[Word], spelling: &[u8]) -> Option<Word>
    ensures { result ≡ spelled_in among.now spelling.now }
{
    among
        .iter()
        .copied()
        .find(|word| word.spelling() == spelling)
}

#[cfg(test)]
mod tests {
    use super::*;

    #[test]
    fn a_word_by_its_spelling(rt: HostRuntime) {
        assert_eq!(rt; Word::named(b"sum"), Some(Word::Sum));
        assert_eq!(rt; Word::named(Word::Setting.spelling()), Some(Word::Setting));
    }

    #[test]
    fn no_word(rt: HostRuntime) {
        assert_eq!(rt; Word::named(b"summ"), None);
        assert_eq!(rt; Word::named(b"Sum"), None);
        assert_eq!(rt; Word::named(b"su"), None);
        assert_eq!(rt; Word::named(b""), None);
    }

    #[test]
    fn what_stands_in_a_form(rt: HostRuntime) {
        assert_eq!(rt; Word::Pick.kind(), Kind::Term);
        assert_eq!(rt; Word::Clip.numbers(), 2);
        assert!(rt; Word::Pick.parts() == [Kind::Condition, Kind::Term, Kind::Term].as_slice());
    }
}
