//! How many shared words a line has, and where some of them stand.
ghost use Rattle.std.specs.Prelude.{◌≡◌};
ghost use Rattle.block_words.specs.declared.Way.TheVariants.{Up, Down};
ghost use Rattle.word_laws.specs.WordNumbers.{BellOf, BlockOf, PlainLineOf, TallyOf};
ghost use Rattle.word_laws.specs.WordPlaces.{word_count, word_place};

/// A line of two boxes has nine words: the posts drawn, two tallies, and a bell, an instrument and a section each way.
/// One of three has sixteen, and one of 64 has 443.
pub fn words_are_counted()
    ensures two { word_count 2 ≡ 9 }
    ensures three { word_count 3 ≡ 16 }
    ensures most { word_count 64 ≡ 443 }
    ensures tallies { (word_place 2 (TallyOf 0) ≡ 1) × (word_place 2 (TallyOf 1) ≡ 2) }
    ensures bells { (word_place 2 (BellOf 0 Up) ≡ 3) × (word_place 2 (BellOf 0 Down) ≡ 4) }
    ensures instruments { (word_place 2 (BlockOf 0 Up) ≡ 5) × (word_place 2 (BlockOf 0 Down) ≡ 6) }
    ensures sections { (word_place 2 (PlainLineOf 0 Up) ≡ 7) × (word_place 2 (PlainLineOf 0 Down) ≡ 8) }
    ensures last { word_place 64 (PlainLineOf 62 Down) ≡ 442 }
{}
