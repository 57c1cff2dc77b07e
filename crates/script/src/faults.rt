// What can be wrong with a script, in any layer.
ghost use Rattle.std.specs.Prelude.{◌≡◌};
ghost use Rattle.script.specs.Values.{script_values};
ghost use Rattle.script.specs.declared.faults.ScriptFault.TheVariants.{OfLine};
ghost use Rattle.script.specs.declared.faults.ReadError.TheVariants.{Fault, NoMemory};

use lines::{Layer, LineFault, Place};
use std::alloc::AllocError;
use tree::TreeFault;

// Cases that hold a fault or a place can be given no numbers of their own: the numbers stand apart.
#[derive(Clone, Copy, PartialEq, Eq, Debug)]
pub enum ScriptFault {
    TooLong,
    OfLine(LineFault),
    OfTree(TreeFault, Place),
}

impl ScriptFault {
    pub fn number(&self) -> u32
        ensures result { result ≡ (script_values self.now).number }
    {
        match self {
            ScriptFault::TooLong => 1,
            ScriptFault::OfLine(fault) => fault.number(),
            ScriptFault::OfTree(fault, _) => fault.number(),
        }
    }

    pub fn layer(&self) -> Layer
        ensures result { result ≡ (script_values self.now).layer }
    {
        match self {
            ScriptFault::TooLong => Layer::Tree,
            ScriptFault::OfLine(fault) => fault.layer(),
            ScriptFault::OfTree(TreeFault::Steps, _) => Layer::Word,
            ScriptFault::OfTree(_, _) => Layer::Tree,
        }
    }

    // The line and the place of its first byte; line 0 and place 0 for a text that is too long.
    pub fn place(&self) -> Place
        ensures result { result ≡ (script_values self.now).place }
    {
        match self {
            ScriptFault::TooLong => Place { line: 0, byte: 0 },
            ScriptFault::OfLine(fault) => fault.place(),
            ScriptFault::OfTree(_, place) => *place,
        }
    }
}

impl From<LineFault> for ScriptFault {
    ghost from_gives = { λ x y. y ≡ OfLine x };

    fn from(value: LineFault) -> ScriptFault {
        ScriptFault::OfLine(value)
    }
}

// Why a script was not read.
#[derive(Clone, Copy, PartialEq, Eq, Debug)]
pub enum ReadError {
    Fault(ScriptFault),
    NoMemory,
}

impl From<ScriptFault> for ReadError {
    ghost from_gives = { λ x y. y ≡ Fault x };

    fn from(value: ScriptFault) -> ReadError {
        ReadError::Fault(value)
    }
}

impl From<AllocError> for ReadError {
    ghost from_gives = { λ _ y. y ≡ NoMemory };

    fn from(_value: AllocError) -> ReadError {
        ReadError::NoMemory
    }
}
