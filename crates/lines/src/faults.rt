// What can be wrong with the words of a line and with the line.
ghost use Rattle.std.specs.Prelude.{◌≡◌};
ghost use Rattle.lines.specs.Faults.{word_values, line_values};
ghost use Rattle.lines.specs.declared.faults.LineFault.TheVariants.{OfWord};

use crate::place::Place;

#[derive(Clone, Copy, PartialEq, Eq, Debug)]
pub enum Layer {
    Word,
    Line,
    Tree,
}

// A case that holds a place can be given no number of its own, here and below: the numbers stand apart.
#[derive(Clone, Copy, PartialEq, Eq, Debug)]
pub enum WordFault {
    StrayByte(Place),
    LongName(Place),
    BadSteps(Place),
}

impl WordFault {
    pub fn number(&self) -> u32
        ensures result { result ≡ (word_values self.now).number }
    {
        match self {
            WordFault::StrayByte(_) => 2,
            WordFault::LongName(_) => 4,
            WordFault::BadSteps(_) => 5,
        }
    }

    pub fn place(&self) -> Place
        ensures result { result ≡ (word_values self.now).place }
    {
        match self {
            WordFault::StrayByte(place) | WordFault::LongName(place) | WordFault::BadSteps(place) =>
                *place,
        }
    }
}

#[derive(Clone, Copy, PartialEq, Eq, Debug)]
pub enum LineFault {
    OfWord(WordFault),
    NoForm(Place),
}

impl LineFault {
    pub fn number(&self) -> u32
        ensures result { result ≡ (line_values self.now).number }
    {
        match self {
            LineFault::OfWord(fault) => fault.number(),
            LineFault::NoForm(_) => 3,
        }
    }

    pub fn layer(&self) -> Layer
        ensures result { result ≡ (line_values self.now).layer }
    {
        match self {
            LineFault::OfWord(_) => Layer::Word,
            LineFault::NoForm(_) => Layer::Line,
        }
    }

    pub fn place(&self) -> Place
        ensures result { result ≡ (line_values self.now).place }
    {
        match self {
            LineFault::OfWord(fault) => fault.place(),
            LineFault::NoForm(place) => *place,
        }
    }
}

impl From<WordFault> for LineFault {
    ghost from_gives = { λ x y. y ≡ OfWord x };

    fn from(value: WordFault) -> LineFault {
        LineFault::OfWord(value)
    }
}
